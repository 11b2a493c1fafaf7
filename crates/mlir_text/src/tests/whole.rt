//! Whole texts of real functions: how many functions and operations they have, and that no front of them is one.

use super::{assert_shown, read};
use ir_forms::operation_count;
use std::test::Fail;

/// Texts, with how many functions and operations they have.
const TEXTS: [(&str, usize, u32); 26] = [
    (
        "func.func @main() -> i64 {
    %a = arith.constant 40 : i64
    %b = arith.constant 2 : i64
    %c = arith.addi %a, %b : i64
    return %c : i64
}
",
        1,
        5,
    ),
    (
        "func.func @main() -> i64 {
    %t, %v = async.execute -> !async.value<i64> {
        %c = arith.constant 7 : i64
        async.yield %c : i64
    }
    %r = async.await %v : !async.value<i64>
    return %r : i64
}
",
        1,
        6,
    ),
    (
        "func.func @q(%a: i8, %b: i8) -> i8 {
    %r = arith.divsi %a, %b : i8
    return %r : i8
}
",
        1,
        3,
    ),
    (
        "func.func @q(%a: i1, %b: i1) -> i1 {
    %r = arith.divsi %a, %b : i1
    return %r : i1
}
",
        1,
        3,
    ),
    (
        "func.func @s(%a: i8, %b: i8) -> i8 {
    %r = arith.shli %a, %b : i8
    %q = arith.remui %r, %b : i8
    return %q : i8
}
",
        1,
        4,
    ),
    (
        "func.func @get(%m: memref<?x8xi64>, %i: index, %j: index) -> i64 {
    %x = memref.load %m[%i, %j] : memref<?x8xi64>
    return %x : i64
}
",
        1,
        3,
    ),
    (
        "func.func @put(%m: memref<8xi64>, %d: index, %x: i64) {
    memref.store %x, %m[%d] : memref<8xi64>
    %n = memref.dim %m, %d : memref<8xi64>
    return
}
",
        1,
        4,
    ),
    (
        "func.func @main(%n: index) {
    %m = memref.alloc(%n) : memref<?xi64>
    return
}
",
        1,
        3,
    ),
    (
        "func.func @main(%n: index) {
    %m = memref.alloc(%n) : memref<4x?xi64>
    return
}
",
        1,
        3,
    ),
    (
        "func.func @main(%l: index, %u: index, %s: index) -> i64 {
    %z = arith.constant 0 : i64
    %r = scf.for %i = %l to %u step %s iter_args(%p = %z) -> (i64) {
        %x = arith.index_cast %i : index to i64
        %y = arith.addi %p, %x : i64
        scf.yield %y : i64
    }
    return %r : i64
}
",
        1,
        7,
    ),
    (
        "func.func @main(%l: index, %u: index, %s: index) {
    scf.parallel (%i) = (%l) to (%u) step (%s) {
    }
    return
}
",
        1,
        4,
    ),
    (
        "func.func @main(%u: index, %v: index) {
    %c0 = arith.constant 0 : index
    %c1 = arith.constant 1 : index
    scf.parallel (%i, %j) = (%c0, %c0) to (%u, %v) step (%c1, %c1) {
    }
    return
}
",
        1,
        6,
    ),
    (
        "func.func @main(%m: memref<10xindex>) {
    %c0 = arith.constant 0 : index
    %c1 = arith.constant 1 : index
    %c10 = arith.constant 10 : index
    scf.parallel (%i) = (%c0) to (%c10) step (%c1) {
        memref.store %i, %m[%i] : memref<10xindex>
        scf.reduce
    }
    return
}
",
        1,
        8,
    ),
    (
        "func.func @f(%m: memref<8xindex>, %u: index) {
    %c0 = arith.constant 0 : index
    %c1 = arith.constant 1 : index
    scf.parallel (%i, %j) = (%c0, %c0) to (%u, %u) step (%c1, %c1) {
        memref.store %i, %m[%j] : memref<8xindex>
    }
    return
}
func.func @main(%m: memref<8xindex>, %u: index) {
    %t = async.execute {
        func.call @f(%m, %u) : (memref<8xindex>, index) -> ()
    }
    async.await %t : !async.token
    return
}
",
        2,
        13,
    ),
    (
        "func.func @main(%a: i64, %b: i64) -> i64 {
    %c = arith.cmpi slt, %a, %b : i64
    %m = scf.if %c -> i64 {
        scf.yield %b : i64
    } else {
        scf.yield %a : i64
    }
    scf.if %c {
        cf.assert %c, \"no\"
    }
    return %m : i64
}
",
        1,
        9,
    ),
    (
        "func.func @main(%n: index, %z: i64) -> i64 {
    %c0 = arith.constant 0 : index
    %c1 = arith.constant 1 : index
    %r = scf.for %i = %c0 to %n step %c1 iter_args(%p = %z) -> (i64) {
        %y = arith.addi %p, %p : i64
        scf.yield %y : i64
    }
    return %r : i64
}
",
        1,
        7,
    ),
    (
        "func.func @main(%m: memref<8xi64>, %c: i1) {
    %c0 = arith.constant 0 : index
    %c8 = arith.constant 8 : index
    %c1 = arith.constant 1 : index
    scf.for %i = %c0 to %c8 step %c1 {
        scf.if %c {
            cf.assert %c, \"first\"
        }
        cf.assert %c, \"second\"
    }
    cf.assert %c, \"third\"
    return
}
",
        1,
        12,
    ),
    (
        "func.func @main(%n: i64) -> i64 {
    %one = arith.constant 1 : i64
    %r = scf.while (%a = %n) : (i64) -> i64 {
        %c = arith.cmpi sgt, %a, %one : i64
        scf.condition(%c) %a : i64
    } do {
        ^body(%b : i64) :
        %d = arith.subi %b, %one : i64
        scf.yield %d : i64
    }
    return %r : i64
}
",
        1,
        8,
    ),
    (
        "func.func @q(%a: i64) -> (i64, i64) {
    return %a, %a : i64, i64
}
func.func @main(%a: i64) -> i64 {
    %x, %y = call @q(%a) : (i64) -> (i64, i64)
    return %y : i64
}
",
        2,
        5,
    ),
    (
        "func.func @main() -> i64 {
    %c0 = arith.constant 0 : i64
    %t, %v = async.execute -> !async.value<i64> {
        %x = arith.constant 7 : i64
        async.yield %x : i64
    }
    %u, %w = async.execute [%t] (%v as %y : !async.value<i64>) -> !async.value<i64> {
        %p = arith.cmpi sgt, %y, %c0 : i64
        cf.assert %p, \"not positive\"
        async.yield %y : i64
    }
    %r = async.await %w : !async.value<i64>
    return %r : i64
}
",
        1,
        11,
    ),
    (
        "func.func @main() {
    %n = arith.constant 1 : index
    %g = async.create_group %n : !async.group
    %t = async.execute { async.yield }
    %u = async.execute [%t] {
        %r = async.add_to_group %t, %g : !async.token
        async.yield
    }
    async.await_all %g
    return
}
",
        1,
        10,
    ),
    (
        "func.func @main() {
    %c0 = arith.constant 0 : index
    %c1 = arith.constant 1 : index
    %c3 = arith.constant 3 : index
    %t = async.execute { async.yield }
    %l = scf.for %i = %c0 to %c3 step %c1 iter_args(%p = %t) -> (!async.token) {
        %q = async.execute [%p] { async.yield }
        scf.yield %q : !async.token
    }
    async.await %l : !async.token
    return
}
",
        1,
        12,
    ),
    (
        "func.func @main() {
    %n = arith.constant 2 : index
    %g = async.create_group %n : !async.group
    %t = async.execute { async.yield }
    %r = async.add_to_group %t, %g : !async.token
    %s = async.add_to_group %t, %g : !async.token
    async.await_all %g
    return
}
",
        1,
        9,
    ),
    (
        "func.func @g(%a: !async.token) { return }
func.func @main() {
    %t = async.execute { async.yield }
    func.call @g(%t) : (!async.token) -> ()
    return
}
",
        2,
        7,
    ),
    (
        "func.func @main(%m: memref<4xi64>) {
    %c0 = arith.constant 0 : index
    %c1 = arith.constant 1 : index
    %c2 = arith.constant 2 : index
    %x = arith.constant 7 : i64
    %t = async.execute { async.yield }
    async.await %t : !async.token
    scf.parallel (%i, %j) = (%c0, %c0) to (%c2, %c2) step (%c1, %c1) {
        memref.store %x, %m[%j] : memref<4xi64>
    }
    return
}
",
        1,
        12,
    ),
    (
        "func.func @main() -> index {
    %n = arith.constant 2 : index
    %g = async.create_group %n : !async.group
    %t = async.execute { async.yield }
    %u = async.execute [%t, %t] {
        %r = async.add_to_group %t, %g : !async.token
        async.yield
    }
    %s = async.add_to_group %t, %g : !async.token
    async.await_all %g
    return %s : index
}
",
        1,
        11,
    ),
];

#[test]
fn reads_whole_texts(rt: HostRuntime) -> Result<(), Fail> {
    for (text, functions, operations) in TEXTS {
        match read(&rt, rt.alloc(), text.as_bytes()) {
            Ok(module) => {
                assert_eq!(rt; module.funcs.len(), functions, "{text}");
                assert_eq!(rt; operation_count(&module), Some(operations), "{text}");
            }
            Err(fault) => assert!(rt; false, "{fault}: {text}"),
        }
    }
    Ok(())
}

/// Each front of a function that ends before its last brace is refused, but that of no byte.
#[test]
fn refuses_each_front(rt: HostRuntime) {
    for (text, functions, _) in TEXTS {
        if functions > 1 {
            continue;
        }
        let bytes = text.as_bytes();
        let last = bytes.iter().rposition(|byte| *byte == b'}').unwrap_or(0);
        for len in 1..=last.min(bytes.len()) {
            assert!(rt;
                read(&rt, rt.alloc(), &bytes[..len]).is_err(),
                "{len}: {text}"
            );
        }
    }
}

#[test]
fn reads_a_launch(rt: HostRuntime) -> Result<(), Fail> {
    let text = TEXTS[1].0;
    let wanted =
        "@main#1 -> i64 { async.execute#2/0/0 = 0,1 : token, value i64 { arith.constant#3 = 2 : i64 7; async.yield#4 2 of i64; }; async.await#5 1 of value i64 = 3 : i64; func.return#6 3 of i64; }\n";
    assert_shown(&rt, rt.alloc(), text, wanted)
}
