//! Texts that are refused, each with its fault.

use super::{read, read_within};
use crate::TextFault::{Lex, Limit, Syntax, UnknownOp, UnknownType, WideNumber};
use crate::{Limited, TextFault, TextLimits};
use mlir_lex::LexFault;
use std::test::Fail;

type Refusal = (&'static str, TextFault);

const TEXTS: [Refusal; 20] = [
    ("func.func @main() -> i64 {", Syntax { at: 26 }),
    ("func.func @main() -", Syntax { at: 18 }),
    ("func.func @f() -> {", UnknownType { at: 18 }),
    ("func.func @f() ->", UnknownType { at: 17 }),
    ("func.func @f( -> i64 { return }", Syntax { at: 14 }),
    ("foo", Syntax { at: 0 }),
    ("func.func @main() { return } }", Syntax { at: 29 }),
    ("module { } module { }", Syntax { at: 11 }),
    ("module { } func.func @f() { return }", Syntax { at: 11 }),
    ("func.func { return }", Syntax { at: 10 }),
    (
        "func.func private public @f() { return }",
        Syntax { at: 18 },
    ),
    ("func.func @main() { foo }", UnknownOp { at: 20 }),
    ("func.func @main() { func.func }", Syntax { at: 20 }),
    ("func.func @main() { module }", Syntax { at: 20 }),
    ("func.func @main() { loc }", UnknownOp { at: 20 }),
    (
        "func.func @main() {\n  %a = arith.constan",
        UnknownOp { at: 27 },
    ),
    (
        "func.func @main() { %a = aio.try_call @main() : () -> i1 return }",
        UnknownOp { at: 25 },
    ),
    (
        "func.func @main() { %c = arith.constant true scf.if %c { } else { } else { } return }",
        UnknownOp { at: 68 },
    ),
    ("func.func @main() { return } loc(\"x\")", Syntax { at: 29 }),
    (
        "func.func @main() { memref.load %m i64 return }",
        Syntax { at: 35 },
    ),
];

const NAMES: [Refusal; 12] = [
    (
        "func.func @main(%a: i64, %a: i64) { return }",
        Syntax { at: 25 },
    ),
    (
        "func.func @main() { %a = arith.constant true %a = arith.constant true return }",
        Syntax { at: 45 },
    ),
    (
        "func.func @main() { %a = arith.constant true return %a = arith.constant true }",
        Syntax { at: 55 },
    ),
    (
        "func.func @main(%a: i1) { %t = async.execute { %a = arith.constant true async.yield } return }",
        Syntax { at: 47 },
    ),
    (
        "func.func @main(%a: index) { scf.parallel (%i, %i) = (%a, %a) to (%a, %a) step (%a, %a) { } return }",
        Syntax { at: 47 },
    ),
    (
        "func.func @main(%a: index) { scf.for %a = %a to %a step %a { } return }",
        Syntax { at: 37 },
    ),
    (
        "func.func @main() { %a, %a = call @f() : () -> (i1, i1) return }",
        Syntax { at: 24 },
    ),
    (
        "func.func @main() { %a:2, %b = call @f() : () -> i64 return }",
        Syntax { at: 24 },
    ),
    (
        "func.func @main(%a: i64) { %b = arith.addi %a #0, %a : i64 return }",
        Syntax { at: 46 },
    ),
    (
        "func.func @main(%a: i64) { %b = arith.addi %a#x, %a : i64 return }",
        Syntax { at: 45 },
    ),
    (
        "func.func @main() { %a%b = arith.constant true return }",
        Syntax { at: 22 },
    ),
    (
        "func.func @main() { return %a, = arith.constant true }",
        Syntax { at: 31 },
    ),
];

const NUMBERS: [Refusal; 12] = [
    (
        "func.func @main() { %a = arith.constant 18446744073709551616 : i64 return }",
        WideNumber { at: 40 },
    ),
    (
        "func.func @main() { %a = arith.constant -9223372036854775809 : i64 return }",
        WideNumber { at: 41 },
    ),
    (
        "func.func @main() { %a = arith.constant 0x10000000000000000 : i64 return }",
        WideNumber { at: 40 },
    ),
    (
        "func.func @main() { %a = arith.constant true 99999999999999999999 return }",
        Syntax { at: 45 },
    ),
    (
        "func.func @main() { %a = arith.constant 1.5 : f32 return }",
        Syntax { at: 41 },
    ),
    (
        "func.func @main() { %a = arith.constant 1 : f32 return }",
        UnknownType { at: 44 },
    ),
    (
        "func.func @main() { %a = arith.constant : i64 return }",
        Syntax { at: 40 },
    ),
    (
        "func.func @main() { return {aio.at = 4294967296 : i64} }",
        Syntax { at: 37 },
    ),
    (
        "func.func @main() { return {aio.at = 99999999999999999999 : i64} }",
        WideNumber { at: 37 },
    ),
    (
        "func.func @main() { return {a = 1 > 2} }",
        Syntax { at: 34 },
    ),
    ("func.func @main() { return {a} {b} }", Syntax { at: 31 }),
    ("func.func @main() { return {a = (1} }", Syntax { at: 34 }),
];

const TYPES: [Refusal; 14] = [
    (
        "func.func @main(%m: memref<2xi64>) { memref.dealloc %m : i64 return }",
        Syntax { at: 57 },
    ),
    (
        "func.func @main(%m: memref<2xi64>) { memref.dealloc %m : f32 return }",
        UnknownType { at: 57 },
    ),
    (
        "func.func @main(%m: memref <2xi64>) { return }",
        UnknownType { at: 20 },
    ),
    (
        "func.func @main(%m: memref<16777217xi64>) { return }",
        UnknownType { at: 20 },
    ),
    (
        "func.func @main(%m: memref<1x1x1x1x1xi64>) { return }",
        UnknownType { at: 20 },
    ),
    (
        "func.func @main(%m: memref<2xmemref<2xi64>>) { return }",
        UnknownType { at: 20 },
    ),
    (
        "func.func @main(%m: memref<2x // two\n i64>) { return }",
        UnknownType { at: 20 },
    ),
    (
        "func.func @main(%v: !async.value<!async.token>) { return }",
        Syntax { at: 33 },
    ),
    (
        "func.func @main(%v: !async.value<f32>) { return }",
        UnknownType { at: 33 },
    ),
    (
        "func.func @main(%v: !async.coro.id) { return }",
        UnknownType { at: 20 },
    ),
    (
        "func.func @main(%n: index) { %g = async.create_group %n : !async.token return }",
        Syntax { at: 58 },
    ),
    (
        "func.func @main(%v: !async.value) { return }",
        Syntax { at: 32 },
    ),
    ("func.func @main(%v: ) { return }", UnknownType { at: 20 }),
    (
        "func.func @main() -> (i64, ) { return }",
        UnknownType { at: 27 },
    ),
];

const REGIONS: [Refusal; 5] = [
    (
        "func.func @main() { %c = arith.constant true %r = scf.if %c -> i1 { scf.yield %c : i1 } return }",
        Syntax { at: 88 },
    ),
    (
        "func.func @main(%a: i1) { scf.while : () -> () { scf.condition(%a) } return }",
        Syntax { at: 69 },
    ),
    (
        "func.func @main(%a: i1) { scf.while : () -> () { scf.condition(%a) } do { ^b : scf.yield } return }",
        Syntax { at: 77 },
    ),
    ("func.func @main(%a: i1) { scf.if %a { ", Syntax { at: 38 }),
    (
        "func.func @main(%a: index) { scf.parallel () = () to () step () { } return }",
        Syntax { at: 43 },
    ),
];

const TOKENS: [Refusal; 5] = [
    (
        "func.func @main() { cf.assert %c, \"abc",
        Lex(LexFault::OpenString { at: 34 }),
    ),
    ("func.func @\"a", Lex(LexFault::BadByte { at: 10 })),
    (
        "func.func @\"\\q\"() { return }",
        Lex(LexFault::BadByte { at: 10 }),
    ),
    (
        "func.func @main() { return } 1 .",
        Lex(LexFault::BadByte { at: 31 }),
    ),
    ("foo ?", Lex(LexFault::BadByte { at: 4 })),
];

#[test]
fn refuses_at_the_first_fault(rt: HostRuntime) {
    let tables: [&[Refusal]; 6] = [&TEXTS, &NAMES, &NUMBERS, &TYPES, &REGIONS, &TOKENS];
    for table in tables {
        for (text, wanted) in table {
            let fault = read(&rt, rt.alloc(), text.as_bytes()).err();
            assert_eq!(rt; fault, Some(*wanted), "{text}");
        }
    }
}

#[test]
fn refuses_what_is_not_utf8(rt: HostRuntime) {
    let fault = read(&rt, rt.alloc(), b"// \xC3\xA9 \xFF").err();
    assert_eq!(rt; fault, Some(Lex(LexFault::BadUtf8 { at: 6 })));
}

const NESTED: &str = "func.func @f(%c: i1) { scf.if %c { } return } func.func @g() { return }";

/// A text of two functions, five operations and an implied one, depth 2 and two values' names.
#[test]
fn refuses_what_passes_a_limit(rt: HostRuntime) {
    let within = TextLimits {
        operations: 6,
        functions: 2,
        depth: 2,
        values: 2,
    };
    assert!(rt; read_within(&rt, rt.alloc(), NESTED.as_bytes(), &within).is_ok());
    let limits = [
        (
            TextLimits {
                operations: 5,
                ..within
            },
            Limited::Operations,
            63,
        ),
        (
            TextLimits {
                operations: 2,
                ..within
            },
            Limited::Operations,
            35,
        ),
        (
            TextLimits {
                operations: 0,
                ..within
            },
            Limited::Operations,
            0,
        ),
        (
            TextLimits {
                functions: 1,
                ..within
            },
            Limited::Functions,
            46,
        ),
        (TextLimits { depth: 1, ..within }, Limited::Depth, 33),
        (TextLimits { depth: 0, ..within }, Limited::Depth, 21),
        (
            TextLimits {
                values: 1,
                ..within
            },
            Limited::Values,
            30,
        ),
        (
            TextLimits {
                values: 0,
                ..within
            },
            Limited::Values,
            13,
        ),
    ];
    for (limits, which, at) in limits {
        let fault = read_within(&rt, rt.alloc(), NESTED.as_bytes(), &limits).err();
        assert_eq!(rt; fault, Some(Limit { which, at }), "{which:?}");
    }
}

/// What a fault is called where it is shown.
#[test]
fn shows_each_fault(rt: HostRuntime) -> Result<(), Fail> {
    let shown = [
        (Lex(LexFault::BadByte { at: 7 }), "byte 7: begins no token"),
        (Syntax { at: 7 }, "Syntax at byte 7"),
        (UnknownOp { at: 7 }, "UnknownOp at byte 7"),
        (UnknownType { at: 7 }, "UnknownType at byte 7"),
        (WideNumber { at: 7 }, "WideNumber at byte 7"),
        (
            Limit {
                which: Limited::Depth,
                at: 7,
            },
            "Limit Depth at byte 7",
        ),
        (TextFault::OutOfMemory, "out of memory"),
    ];
    for (fault, wanted) in shown {
        let text = format!(in rt.alloc(); "{fault}")?;
        assert_eq!(rt; text.as_str(), wanted);
    }
    Ok(())
}
