//! Texts that are printed and read back.

mod long;
mod modules;

use ir_forms::{Level, Module};
use mlir_print::print;
use mlir_text::{PROGRAM_LIMITS, parse};
use modules::{CHECKED_LOADS, CHECKED_LOOP, CHECKED_PARALLEL, FORMS, SPLIT_LOOP, TASKS};
use std::alloc::Global;
use std::process::Abort;
use std::test::Fail;

const MEBIBYTE: usize = 1 << 20;

/// The module of a text at the split level, which has all forms of the three levels.
fn read(rt: &impl Abort, alloc: Global, text: &[u8]) -> Option<Module> {
    assert!(rt; text.len() <= 16 * MEBIBYTE);
    match parse(alloc, text, Level::Split, &PROGRAM_LIMITS) {
        Ok(module) => Some(module),
        Err(fault) => {
            assert!(rt; false, "{fault}");
            None
        }
    }
}

/// The printed text of what a text reads as, which reads as the same.
fn printed(rt: &impl Abort, alloc: Global, text: &[u8]) -> Result<String, Fail> {
    match read(rt, alloc, text) {
        Some(module) => {
            let printed = print(alloc, &module)?;
            let same = read(rt, alloc, printed.as_bytes()) == Some(module);
            assert!(rt; same);
            Ok(printed)
        }
        None => Ok(String::new(alloc)),
    }
}

#[test]
fn prints_printed_texts_as_they_are(rt: HostRuntime) -> Result<(), Fail> {
    for text in [
        FORMS,
        TASKS,
        CHECKED_LOADS,
        CHECKED_LOOP,
        CHECKED_PARALLEL,
        SPLIT_LOOP,
    ] {
        let printed = printed(&rt, rt.alloc(), text.as_bytes())?;
        assert_eq!(rt; printed.as_str(), text);
    }
    Ok(())
}

/// Texts as a user may write them, and how they print.
const WRITTEN: [(&str, &str); 6] = [
    (
        "module @m attributes {a.b = 1.5 : f32} { func.func private @f(%a: i64 {x.y}, %b: i64) -> (i64) { %c:1 = arith.addi %a, %b {z} : i64 loc(unknown) return %c#0 : i64 } }",
        "func.func @f(%0 : i64, %1 : i64) -> i64 {\n  %2 = arith.addi %0, %1 : i64\n  func.return %2 : i64\n}\n",
    ),
    (
        "func.func @f(%c: i1) { scf.if %c { } scf.if %c { } else { } return }",
        "func.func @f(%0 : i1) {\n  scf.if %0 {\n    scf.yield\n  }\n  scf.if %0 {\n    scf.yield\n  } else {\n    scf.yield\n  }\n  func.return\n}\n",
    ),
    (
        "func.func @f() { %t = async.execute { } // a task\n async.await %t : !async.token\n return }",
        "func.func @f() {\n  %0 = async.execute {\n    async.yield\n  }\n  async.await %0 : !async.token\n  func.return\n}\n",
    ),
    (
        "func.func @\"f\"(%m: memref< ? x 08 x i64 >) -> () { %n:2 = call @g(%m) : (memref<?x8xi64>) -> (i1, i8) return %x = arith.constant 0x1F : i8 {aio.at = 0x2 : i64} }",
        "func.func @f(%0 : memref<?x8xi64>) {\n  %1, %2 = func.call @g(%0) : (memref<?x8xi64>) -> (i1, i8)\n  func.return\n  %3 = arith.constant 31 : i8 {aio.at = 2 : i64}\n}\n",
    ),
    (
        "func.func @f(%l: index) { scf.parallel (%i, %j) = (%l, %l) to (%l, %l) step (%l, %l) { scf.yield } return }",
        "func.func @f(%0 : index) {\n  scf.parallel (%1, %2) = (%0, %0) to (%0, %0) step (%0, %0) {\n    scf.reduce\n  }\n  func.return\n}\n",
    ),
    (
        "func.func @f(%l: index) { scf.parallel (%i) = (%l) to (%l) step (%l) { %z = scf.yield } return %l : index }",
        "func.func @f(%0 : index) {\n  scf.parallel (%1) = (%0) to (%0) step (%0) {\n    %2 = scf.reduce\n  }\n  func.return %0 : index\n}\n",
    ),
];

#[test]
fn prints_what_is_written(rt: HostRuntime) -> Result<(), Fail> {
    for (text, wanted) in WRITTEN {
        let printed = printed(&rt, rt.alloc(), text.as_bytes())?;
        assert_eq!(rt; printed.as_str(), wanted, "{text}");
    }
    Ok(())
}
