//! How texts are read, and where they are refused: texts with what `check` answers.
use crate::harness::assert_checks;
use std::test::Fail;

const MODULES: &str = r#"
    ok: 0 functions, 0 operations
func.func @main() -> i64 { %a = arith.constant 40 : i64 %b = arith.constant 2 : i64 %c = arith.addi %a, %b : i64 return %c : i64 }
    ok: 1 functions, 5 operations
func.func @main() { %t = async.execute { async.yield } async.await %t : !async.token return }
    ok: 1 functions, 5 operations
func.func @main(%m: memref<2x!async.token>) { return }
    refused: AsyncInMemref at operation 1
func.func @f() -> f32 { return }
    refused: UnknownType at byte 18
func.func @f() { %a = arith.constant 18446744073709551616 : i64 return }
    refused: WideNumber at byte 37
func.func @f() { arith.nothing return }
    refused: UnknownOp at byte 17
func.func @f() { %a = arith.constant 1 : i64 {aio.at = 7 : i64} return %b : i64 }
    refused: Undefined at operation 3
"#;

const HEADS_AND_BRANCHES: &str = r#"func.func @f() -> {
    refused: UnknownType at byte 18
func.func @f() ->
    refused: UnknownType at byte 17
func.func @f( -> i64 { return }
    refused: Syntax at byte 14
foo
    refused: Syntax at byte 0
func.func @main() { foo }
    refused: UnknownOp at byte 20
func.func @main() { func.func }
    refused: Syntax at byte 20
func.func @main() { %c = arith.constant true scf.if %c { } else { } else { } return }
    refused: UnknownOp at byte 68
func.func @main() { %c = arith.constant true scf.if %c { return } return }
    refused: Terminator at operation 4
func.func @main() { %c = arith.constant true scf.if %c { } return }
    ok: 1 functions, 5 operations
func.func @main() { %c = arith.constant true scf.if %c { } else { } return }
    ok: 1 functions, 6 operations
func.func @main() { %c = arith.constant true %r = scf.if %c -> i1 { scf.yield %c : i1 } return }
    refused: Syntax at byte 88
func.func @main() { %c = arith.constant true %r = scf.if %c -> i1 { scf.yield %c : i1 } else { } return }
    refused: Terminator at operation 3
func.func @main() { %c = arith.constant true scf.if %c -> () { } return }
    ok: 1 functions, 5 operations
func.func @main() { return %a = arith.constant true }
    refused: Terminator at operation 1
func.func @main() { return %a:2 = arith.constant true }
    refused: Terminator at operation 1
func.func @main() { %a = arith.constant true return %a = arith.constant true }
    refused: Syntax at byte 55
func.func @main() { %a = arith.constant true %a = arith.constant true return }
    refused: Syntax at byte 45
"#;

const DICTIONARIES_AND_NAMES: &str =
    r#"func.func @main() { %a = arith.constant 99999999999999999999 : i64 return }
    refused: WideNumber at byte 40
func.func @main() { %a = arith.constant -99999999999999999999 : i64 return }
    refused: WideNumber at byte 41
func.func @main() { %a = arith.constant true 99999999999999999999 return }
    refused: Syntax at byte 45
func.func @main() attributes {n = 99999999999999999999} { return }
    ok: 1 functions, 2 operations
func.func @main() { return {aio.at = 4294967296 : i64} }
    refused: Syntax at byte 37
func.func @main() { return {aio.at = 4294967296 : i32} }
    ok: 1 functions, 2 operations
func.func @main() { return {aio.at = 99999999999999999999 : i64} }
    refused: WideNumber at byte 37
func.func @main() { return {a = 1.5 : f32} }
    ok: 1 functions, 2 operations
func.func @main() { return {a = 1 > 2} }
    refused: Syntax at byte 34
func.func @main() { return {a} {b} }
    refused: Syntax at byte 31
func.func @main() { return loc("x") }
    ok: 1 functions, 2 operations
func.func @main() { return } loc("x")
    refused: Syntax at byte 29
func.func @main() { %a = arith.constant 1 {a} : i64 {b} loc("x") return }
    ok: 1 functions, 3 operations
func.func @main(%a: i64 {x = 1}, %b: i64) { return }
    ok: 1 functions, 2 operations
func.func @main(%a: i64) { %b = arith.addi %a#0, %a : i64 return }
    refused: Undefined at operation 2
func.func @f() -> i64 { %c = arith.constant 1 : i64 return %c : i64 } func.func @main() { %a:1 = call @f() : () -> i64 %b = arith.addi %a#0, %a : i64 return }
    ok: 2 functions, 7 operations
func.func @f() -> i64 { %c = arith.constant 1 : i64 return %c : i64 } func.func @main() { %a:1 = call @f() : () -> i64 %b = arith.addi %a#1, %a : i64 return }
    refused: Undefined at operation 6
"#;

const TYPES: &str =
    r#"func.func @f() -> i64 { %c = arith.constant 1 : i64 return %c : i64 } func.func @main() { %a:1 = call @f() : () -> i64 %b = arith.addi %a #0, %a : i64 return }
    refused: Syntax at byte 138
func.func @f() -> i64 { %c = arith.constant 1 : i64 return %c : i64 } func.func @main() { %a:2, %b = call @f() : () -> i64 return }
    refused: Syntax at byte 94
func.func @main() { %a:0 = arith.constant true return }
    refused: Arity at operation 2
func.func @main() { %a = arith.constant true %b = arith.addi %b, %a : i1 return }
    refused: Undefined at operation 3
func.func @main() { %a = async.execute { %a = arith.constant true async.yield } return }
    ok: 1 functions, 5 operations
func.func @main(%a: i1) { %t = async.execute { %a = arith.constant true async.yield } return }
    refused: Syntax at byte 47
func.func @main(%m: memref<2xi64>) { memref.dealloc %m : i64 return }
    refused: Syntax at byte 57
func.func @main(%m: memref<2xi64>) { memref.dealloc %m : f32 return }
    refused: UnknownType at byte 57
func.func @main(%m: memref <2xi64>) { return }
    refused: UnknownType at byte 20
func.func @main(%m: memref<2 x i 64>) { return }
    ok: 1 functions, 2 operations
func.func @main(%m: memref<02x0xi64>) { return }
    ok: 1 functions, 2 operations
func.func @main(%m: memref<16777217xi64>) { return }
    refused: UnknownType at byte 20
func.func @main(%m: memref<1x1x1x1x1xi64>) { return }
    refused: UnknownType at byte 20
func.func @main(%m: memref<2x!async.token>) { return }
    refused: AsyncInMemref at operation 1
func.func @main(%m: memref<2xmemref<2xi64>>) { return }
    refused: UnknownType at byte 20
func.func @main(%v: !async.value<!async.token>) { return }
    refused: Syntax at byte 33
func.func @main(%v: !async.value<f32>) { return }
    refused: UnknownType at byte 33
"#;

const LISTS_AND_LOOPS: &str = r#"func.func @main(%v: !async.coro.id) { return }
    refused: UnknownType at byte 20
func.func @main(%n: index) { %g = async.create_group %n : !async.token return }
    refused: Syntax at byte 58
func.func @main(%a: i64) { %b = arith.select %a, %a, %a : !async.token return }
    refused: TypeMismatch at operation 2
func.func @main(%a: i64) { %b = arith.extsi %a : i64 to index return }
    refused: TypeMismatch at operation 2
func.func @main(%a: i64) { %b = arith.index_cast %a : i64 to i32 return }
    refused: TypeMismatch at operation 2
func.func @main(%a: i64) { %b, %c = arith.addi %a, %a : i64 return }
    refused: Arity at operation 2
func.func @main(%a: i64) { arith.addi %a, %a : i64 return }
    refused: Arity at operation 2
func.func @main(%a: i64) { call @main(%a, %a) : (i64) -> () return }
    refused: Arity at operation 2
func.func @main(%a: i64) { call @main(%a, %a) : (i32, i64) -> () return }
    refused: TypeMismatch at operation 2
func.func @main(%a: i64) { call @nosuch(%b) : (i64) -> () return }
    refused: Undefined at operation 2
func.func @main(%a: i64) -> i64 { return %a, %a : i32, i64 }
    refused: TypeMismatch at operation 2
func.func @main() { return } func.func @main() { return }
    refused: Undefined at operation 3
func.func @main(%a: index) { scf.parallel (%i) = (%a) to (%a) step (%a) { scf.yield } return }
    ok: 1 functions, 4 operations
func.func @main(%a: index) { scf.parallel (%i) = (%a) to (%a) step (%a) { scf.yield %a : index } return }
    refused: Terminator at operation 3
func.func @main(%a: index) { scf.parallel (%i) = (%a) to (%a) step (%a) { %z = scf.yield } return }
    refused: Arity at operation 3
func.func @main(%a: index) { scf.parallel (%i, %j) = (%a) to (%a, %a) step (%a, %a) { } return }
    refused: Arity at operation 2
func.func @main(%a: index) { scf.parallel (%i, %i) = (%a, %a) to (%a, %a) step (%a, %a) { } return }
    refused: Syntax at byte 47
func.func @main(%a: index) { scf.for %i = %a to %a step %a iter_args(%p = %a, %q = %a) -> (index) { scf.yield %p : index } return }
    refused: Arity at operation 2
"#;

const ENDS_OF_TEXTS: &str =
    r#"func.func @main(%a: i64) { %t = async.execute (%a as %b : i64) { } return }
    refused: TypeMismatch at operation 2
func.func @main(%t: !async.value<i64>) { %u = async.execute [%t] { } return }
    refused: TypeMismatch at operation 2
func.func @main() { %t = async.execute { } async.await %t : !async.token }
    refused: Terminator at operation 1
func.func @main() { %t = async.execute { } %r = async.await %t : !async.token return }
    refused: Arity at operation 4
func.func @main() { %a = aio.try_call @main() : () -> i1 return }
    refused: UnknownOp at byte 25
func.func @main() { return } }
    refused: Syntax at byte 29
module @m attributes {a} { func.func @main() { return } }
    ok: 1 functions, 2 operations
module { } module { }
    refused: Syntax at byte 11
func.func @main() { cf.assert %c, "abc
    refused: OpenString at byte 34
func.func @"a
    refused: BadByte at byte 10
func.func @"\q"() { return }
    refused: BadByte at byte 10
func.func @main() { return } 1 .
    refused: BadByte at byte 31
func.func @"a b"() { return }
    ok: 1 functions, 2 operations
func.func @""() { return }
    ok: 1 functions, 2 operations
"#;

const VALUES_BEYOND_THE_LIMIT: &str =
    r#"func.func @f() { %a:1048577 = func.call @g() : () -> () return }
    refused: Limit Values at byte 17
func.func @f() { %a:99999999999999999999 = func.call @g() : () -> () return }
    refused: Limit Values at byte 17
func.func @f(%a: i64) { %z:1048574 = func.call @g() : () -> () return %a, %a }
    refused: Limit Values at byte 74
func.func @f(%a: i64) { %z:1048574 = func.call @g() : () -> () return %a, %a, }
    refused: Limit Values at byte 74
func.func @f(%a: i64) { %z:1048574 = func.call @g() : () -> () return %a, %a : f32 }
    refused: Limit Values at byte 74
func.func @f(%a: i64) { %z:1048573 = func.call @g() : () -> () return %a, %a }
    refused: Syntax at byte 77
func.func @f(%a: i64) { %a:1048577 = func.call @g() : () -> () return }
    refused: Limit Values at byte 24
func.func @f(%a: i64) { %a:1048575 = func.call @g() : () -> () return }
    refused: Syntax at byte 24
"#;

#[test]
fn reads_up_to_the_first_fault(rt: HostRuntime) -> Result<(), Fail> {
    let tables = [
        MODULES,
        HEADS_AND_BRANCHES,
        DICTIONARIES_AND_NAMES,
        TYPES,
        LISTS_AND_LOOPS,
        ENDS_OF_TEXTS,
        VALUES_BEYOND_THE_LIMIT,
    ];
    for rows in tables {
        assert_checks(&rt, rt.alloc(), "", "", rows)?;
    }
    Ok(())
}
