//! Each form of an operation, and each rule of the verifier: texts with what `check` answers.
use crate::harness::assert_checks;
use std::test::Fail;

// The head of a function with a parameter of each sort of type, and its end.
const HEAD: &str = "func.func @main(%a: i64, %n: index, %c: i1, %m: memref<2x?xi64>) { ";

const END: &str = " return }";

const OPERANDS: &str = r#"%a, %a : i64
    ok: 1 functions, 3 operations
%a, %n : i64
    refused: TypeMismatch at operation 2
"#;

#[test]
fn checks_each_operation_of_two_numbers(rt: HostRuntime) -> Result<(), Fail> {
    let names = [
        "addi", "subi", "muli", "divsi", "divui", "remsi", "remui", "andi", "ori", "xori", "shli",
        "shrsi", "shrui", "maxsi", "maxui", "minsi", "minui",
    ];
    for name in names {
        let head = format!(in rt.alloc(); "{HEAD}%x = arith.{name} ")?;
        assert_checks(&rt, rt.alloc(), head.as_str(), END, OPERANDS)?;
    }
    Ok(())
}

const CONSTANTS_AND_CASTS: &str = r#"%x = arith.cmpi slt, %a, %a : i64
    ok: 1 functions, 3 operations
%x = arith.cmpi slt, %m, %m : memref<2x?xi64>
    refused: TypeMismatch at operation 2
%x = arith.constant -128 : i8
    ok: 1 functions, 3 operations
%x = arith.constant -129 : i8
    refused: TypeMismatch at operation 2
%x = arith.constant true
    ok: 1 functions, 3 operations
%x = arith.constant 1 : i1
    refused: TypeMismatch at operation 2
%x = arith.extsi %c : i1 to i8
    ok: 1 functions, 3 operations
%x = arith.extsi %a : i64 to i32
    refused: TypeMismatch at operation 2
%x = arith.extui %c : i1 to i64
    ok: 1 functions, 3 operations
%x = arith.extui %a : i64 to i64
    refused: TypeMismatch at operation 2
%x = arith.trunci %a : i64 to i1
    ok: 1 functions, 3 operations
%x = arith.trunci %a : i64 to i64
    refused: TypeMismatch at operation 2
%x = arith.index_cast %a : i64 to index
    ok: 1 functions, 3 operations
%x = arith.index_cast %n : index to index
    refused: TypeMismatch at operation 2
%x = arith.index_castui %n : index to i8
    ok: 1 functions, 3 operations
%x = arith.index_castui %a : i64 to i32
    refused: TypeMismatch at operation 2
%x = arith.select %c, %a, %a : i64
    ok: 1 functions, 3 operations
%x = arith.select %a, %a, %a : i64
    refused: TypeMismatch at operation 2
"#;

const TASKS: &str =
    r#"%g = async.create_group %n : !async.group %t = async.execute { } %x = async.add_to_group %t, %g : !async.token
    ok: 1 functions, 6 operations
%g = async.create_group %n : !async.group %x = async.add_to_group %a, %g : i64
    refused: TypeMismatch at operation 3
%t, %v = async.execute -> !async.value<i64> { async.yield %a : i64 } %x = async.await %v : !async.value<i64>
    ok: 1 functions, 5 operations
%x = async.await %a : i64
    refused: TypeMismatch at operation 2
%g = async.create_group %n : !async.group async.await_all %g
    ok: 1 functions, 4 operations
async.await_all %a
    refused: TypeMismatch at operation 2
%g = async.create_group %n : !async.group
    ok: 1 functions, 3 operations
%g = async.create_group %a : !async.group
    refused: TypeMismatch at operation 2
%t = async.execute { } %u, %v = async.execute [%t] -> !async.value<i64> { async.yield %a : i64 } %w = async.execute (%v as %x : !async.value<i64>) { %y = arith.addi %x, %x : i64 async.yield }
    ok: 1 functions, 9 operations
%t = async.execute [%a] { }
    refused: TypeMismatch at operation 2
%t, %v = async.execute -> !async.value<i1> { async.yield %c : i1 }
    ok: 1 functions, 4 operations
%t, %v = async.execute -> !async.value<i1> { async.yield %a : i64 }
    refused: TypeMismatch at operation 3
cf.assert %c, "no"
    ok: 1 functions, 3 operations
cf.assert %a, "no"
    refused: TypeMismatch at operation 2
"#;

const MEMORY: &str = r#"%x = memref.alloc(%n, %n) : memref<?x2x?xi64>
    ok: 1 functions, 3 operations
%x = memref.alloc(%n) : memref<?x2x?xi64>
    refused: Arity at operation 2
memref.dealloc %m : memref<2x?xi64>
    ok: 1 functions, 3 operations
memref.dealloc %m : memref<?x?xi64>
    refused: TypeMismatch at operation 2
%x = memref.dim %m, %n : memref<2x?xi64>
    ok: 1 functions, 3 operations
%x = memref.dim %m, %a : memref<2x?xi64>
    refused: TypeMismatch at operation 2
%x = memref.load %m[%n, %n] : memref<2x?xi64>
    ok: 1 functions, 3 operations
%x = memref.load %m[%n] : memref<2x?xi64>
    refused: Arity at operation 2
memref.store %a, %m[%n, %n] : memref<2x?xi64>
    ok: 1 functions, 3 operations
memref.store %n, %m[%n, %n] : memref<2x?xi64>
    refused: TypeMismatch at operation 2
"#;

const LOOPS_AND_BRANCHES: &str =
    r#"%x = scf.for %i = %n to %n step %n iter_args(%p = %a) -> (i64) { %q = arith.addi %p, %a : i64 scf.yield %q : i64 }
    ok: 1 functions, 5 operations
scf.for %i = %n to %n step %a { }
    refused: TypeMismatch at operation 2
%x = scf.if %c -> i64 { scf.yield %a : i64 } else { scf.yield %a : i64 }
    ok: 1 functions, 5 operations
scf.if %a { }
    refused: TypeMismatch at operation 2
scf.parallel (%i, %j) = (%n, %n) to (%n, %n) step (%n, %n) { memref.store %a, %m[%i, %j] : memref<2x?xi64> }
    ok: 1 functions, 5 operations
scf.parallel (%i) = (%a) to (%n) step (%n) { }
    refused: TypeMismatch at operation 2
scf.parallel (%i) = (%n) to (%n) step (%n) { scf.reduce }
    ok: 1 functions, 4 operations
scf.reduce
    refused: Terminator at operation 2
%x = scf.while (%p = %a) : (i64) -> i64 { scf.condition(%c) %p : i64 } do { ^b(%q : i64): scf.yield %q : i64 }
    ok: 1 functions, 5 operations
%x = scf.while (%p = %a) : (i64) -> i64 { scf.condition(%a) %p : i64 } do { ^b(%q : i64): scf.yield %q : i64 }
    refused: TypeMismatch at operation 3
scf.while : () -> () { scf.condition(%c) } do { scf.yield }
    ok: 1 functions, 5 operations
scf.condition(%c)
    refused: Terminator at operation 2
%x = scf.if %c -> i64 { scf.yield %a : i64 } else { scf.yield %a : i64 }
    ok: 1 functions, 5 operations
%x = scf.if %c -> i64 { scf.yield %n : index } else { scf.yield %a : i64 }
    refused: TypeMismatch at operation 3
"#;

#[test]
fn checks_each_form(rt: HostRuntime) -> Result<(), Fail> {
    for rows in [CONSTANTS_AND_CASTS, TASKS, MEMORY, LOOPS_AND_BRANCHES] {
        assert_checks(&rt, rt.alloc(), HEAD, END, rows)?;
    }
    Ok(())
}

const CALLS_AND_RULES: &str =
    r#"func.func @f(%a: i64) -> (i64, i1) { %c = arith.constant true return %a, %c : i64, i1 } func.func @main(%a: i64) { %x, %y = call @f(%a) : (i64) -> (i64, i1) return }
    ok: 2 functions, 6 operations
func.func @f(%a: i64) -> i64 { return %a : i64 } func.func @main(%a: i64) { %x = call @f(%a) : (i64) -> i1 return }
    refused: TypeMismatch at operation 4
func.func @main() { call @f() : () -> () return }
    refused: UnknownFunc at operation 2
func.func @main(%a: i64) -> (i64, i64) { return %a, %a : i64, i64 }
    ok: 1 functions, 2 operations
func.func @main(%a: i64) -> (i64, i64) { return %a : i64 }
    refused: Arity at operation 2
func.func @f(%g: !async.group) { async.await_all %g return } func.func @main(%n: index) { %g = async.create_group %n : !async.group %t = async.execute { call @f(%g) : (!async.group) -> () async.yield } return }
    refused: BlockingAwait at operation 2
func.func @f(%t: !async.token) { async.await %t : !async.token return } func.func @h(%t: !async.token) { call @f(%t) : (!async.token) -> () return } func.func @main(%n: index) { %t = async.execute { } scf.parallel (%i) = (%n) to (%n) step (%n) { call @h(%t) : (!async.token) -> () } return }
    refused: BlockingAwait at operation 2
func.func @f(%t: !async.token) { async.await %t : !async.token return } func.func @main() { %t = async.execute { } call @f(%t) : (!async.token) -> () return }
    ok: 2 functions, 8 operations
func.func @main(%n: index) { %t = async.execute { } scf.parallel (%i) = (%n) to (%n) step (%n) { async.await %t : !async.token } return }
    refused: BlockingAwait at operation 5
func.func @main(%n: index) { scf.parallel (%i) = (%n) to (%n) step (%n) { %t = async.execute { } %u = async.execute { async.await %t : !async.token } } return }
    ok: 1 functions, 9 operations
func.func @main(%m: memref<1x!async.token>) { %a = arith.constant 300 : i8 %b = arith.addi %c, %a : i64 call @nosuch() : () -> () }
    refused: Terminator at operation 1
func.func @main(%a: i64) { %b = arith.constant 300 : i8 %x, %y = arith.addi %z, %a : i1 return }
    refused: TypeMismatch at operation 2
func.func @f() { return } func.func @f() { return } func.func @f() { return }
    refused: Undefined at operation 3
func.func @main(%n: index) { scf.parallel (%i, %j, %k, %l, %o) = (%n, %n, %n, %n, %n) to (%n, %n, %n, %n, %n) step (%n, %n, %n, %n, %n) { } return }
    refused: Arity at operation 2
func.func @main(%c: i1) { scf.if %c { %x = arith.constant true } %y = arith.addi %x, %x : i1 return }
    refused: Undefined at operation 5
func.func @main() { %m = memref.alloc() : memref<1x!async.value<i64>> return }
    refused: AsyncInMemref at operation 2
func.func @main(%c: i1, %m: memref<1x!async.group>) { return }
    refused: AsyncInMemref at operation 1
"#;

#[test]
fn checks_calls_and_rules(rt: HostRuntime) -> Result<(), Fail> {
    assert_checks(&rt, rt.alloc(), "", "", CALLS_AND_RULES)
}
