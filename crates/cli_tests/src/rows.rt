//! Whole answers of `run`, `source` and `replay` on modules with tasks, groups, buffers and calls.
use crate::harness::assert_cases;
use std::test::Fail;

const TASKS: &str = r#"
$ run --steps --journal
func.func @main() -> i64 {
  %t, %v = async.execute -> !async.value<i64> {
    %c = arith.constant 7 : i64
    async.yield %c : i64
  }
  %r = async.await %v : !async.value<i64>
  return %r : i64
}
= 0
result 0: 7
tasks 1, objects 2
steps 26, entries 11
-- journal
0 1
0 0
0 3
0 4
1 2
1 0
1 0
1 3
0 0
0 1
0 1

$ run
func.func @main() {
  %t = async.execute {
    %f = arith.constant false
    cf.assert %f, "no"
    async.yield
  }
  async.await %t : !async.token
  return
}
= 1
failed at operation 6: Awaited async operand is in error state
tasks 1, objects 1

$ run
func.func @main() {
  %t = async.execute {
    %f = arith.constant false
    cf.assert %f, "no"
    async.yield
  }
  return
}
= 0
tasks 1, objects 1

$ run --args=[1:9]
func.func @main(%m: memref<1xi64>) {
  %c0 = arith.constant 0 : index
  %c5 = arith.constant 5 : i64
  %t = async.execute { %f = arith.constant false cf.assert %f, "no" async.yield }
  %u = async.execute { async.yield }
  %w = async.execute [%t, %u] { memref.store %c5, %m[%c0] : memref<1xi64> async.yield }
  async.await %u : !async.token
  return
}
= 0
argument 0: [9]
tasks 3, objects 3

$ run --args=[1:0]
func.func @main(%m: memref<1xi64>) {
  %c0 = arith.constant 0 : index
  %c1 = arith.constant 1 : i64
  %c2 = arith.constant 2 : i64
  %t = async.execute { memref.store %c1, %m[%c0] : memref<1xi64> async.yield }
  %u = async.execute [%t] { memref.store %c2, %m[%c0] : memref<1xi64> async.yield }
  async.await %t : !async.token
  async.await %u : !async.token
  return
}
= 0
argument 0: [2]
tasks 2, objects 2

$ run
func.func @f(%a: !async.token, %b: !async.token) {
  async.await %a : !async.token
  return
}
func.func @main() {
  %c0 = arith.constant 0 : index
  %c1 = arith.constant 1 : index
  %c3 = arith.constant 3 : index
  %t = async.execute { async.yield }
  func.call @f(%t, %t) : (!async.token, !async.token) -> ()
  %l = scf.for %i = %c0 to %c3 step %c1 iter_args(%p = %t) -> (!async.token) {
    scf.yield %p : !async.token
  }
  async.await %l : !async.token
  return
}
= 0
tasks 1, objects 1

$ run --entry=f
func.func @f(%a: !async.token, %b: !async.token) {
  async.await %a : !async.token
  return
}
= 3
refused: entry type at operation 1
"#;

const GROUPS: &str = r#"
$ run
func.func @main() { %z = arith.constant 0 : index %g = async.create_group %z : !async.group async.await_all %g return }
= 0
tasks 0, objects 1

$ source
func.func @main() { %n = arith.constant 2 : index %g = async.create_group %n : !async.group %t = async.execute { async.yield } %r = async.add_to_group %t, %g : !async.token async.await_all %g return }
= 4
stopped: group root:1 has 1 of 2 elements

$ run --steps --journal
func.func @main() { %n = arith.constant 2 : index %g = async.create_group %n : !async.group %t = async.execute { async.yield } %r = async.add_to_group %t, %g : !async.token async.await_all %g return }
= 4
stopped: parked tasks 1

$ run
func.func @main() { %n = arith.constant 2 : index %g = async.create_group %n : !async.group %t = async.execute { async.yield } %r = async.add_to_group %t, %g : !async.token %s = async.add_to_group %t, %g : !async.token async.await_all %g return }
= 0
tasks 1, objects 2

$ run
func.func @main() { %n = arith.constant 2 : index %g = async.create_group %n : !async.group %t = async.execute { async.yield } %r = async.add_to_group %t, %g : !async.token %s = async.add_to_group %t, %g : !async.token %q = async.add_to_group %t, %g : !async.token async.await_all %g return }
= 5
stopped: group is full at 2
"#;

const FAILURES: &str = r#"
$ run --args=-9223372036854775808,-1
func.func @q(%a: i64, %b: i64) -> i64 { %r = arith.divsi %a, %b : i64 return %r : i64 }
func.func @main(%a: i64, %b: i64) {
  %t = async.execute { %r = func.call @q(%a, %b) : (i64, i64) -> i64 async.yield }
  async.await %t : !async.token
  return
}
= 1
failed at operation 8: Awaited async operand is in error state
tasks 1, objects 1

$ run --entry=q --args=-9223372036854775808,-1
func.func @q(%a: i64, %b: i64) -> i64 { %r = arith.divsi %a, %b : i64 return %r : i64 }
= 1
failed at operation 2: division has no result
tasks 0, objects 0

$ run --entry=q --args=7,-2
func.func @q(%a: i64, %b: i64) -> i64 { %r = arith.divsi %a, %b : i64 return %r : i64 }
= 0
result 0: -3
tasks 0, objects 0

$ run --entry=q --args=7
func.func @q(%a: i64, %b: i64) -> i64 { %r = arith.divsi %a, %b : i64 return %r : i64 }
= 3
refused: argument 1

$ run --entry=q --args=true,1
func.func @q(%a: i64, %b: i64) -> i64 { %r = arith.divsi %a, %b : i64 return %r : i64 }
= 3
refused: argument 0

$ run --args=0
func.func @main(%c: i1) { cf.assert %c, "no\22 sir" return }
= 3
refused: argument 0

$ run --args=false --steps
func.func @main(%c: i1) { cf.assert %c, "no\22 sir" return }
= 1
failed at operation 2: no" sir
tasks 0, objects 0
steps 3, entries 1
"#;

const STOPS: &str = r#"
$ run --objects=1
func.func @main() { %t, %v = async.execute -> !async.value<i64> { %c = arith.constant 7 : i64 async.yield %c : i64 } return }
= 5
stopped: objects 1

$ run --objects=2
func.func @main() { %t, %v = async.execute -> !async.value<i64> { %c = arith.constant 7 : i64 async.yield %c : i64 } return }
= 0
tasks 1, objects 2

$ run --entries=1
func.func @main() { %t = async.execute { async.yield } return }
= 6
stopped: entries 1

$ run --entries=1 --steps
func.func @main() { return }
= 0
tasks 0, objects 0
steps 1, entries 1

$ run
func.func @main() { %n = arith.constant 16777216 : index %a = memref.alloc(%n) : memref<?xi64> %b = memref.alloc(%n) : memref<?xi64> return }
= 5
stopped: cells 16777216

$ run
func.func @main() { %n = arith.constant 16777217 : index %a = memref.alloc(%n) : memref<?xi64> %b = memref.alloc(%n) : memref<?xi64> return }
= 1
failed at operation 3: allocation out of range
tasks 0, objects 0

$ run
func.func @main() { func.call @main() : () -> () return }
= 5
stopped: frames 1024

$ run --entry=f
func.func @f() { return } func.func @main() { %z = arith.constant 0 : index %s = arith.constant 1 : index scf.if %c { scf.parallel (%i) = (%z) to (%z) step (%s) { } } return }
= 3
refused: Undefined at operation 6

$ run --objects=0
func.func @main() { return }
= 2
refused: words

$ run --objects=65537
func.func @main() { return }
= 2
refused: words

$ check --entries=16777217
func.func @main() { return }
= 2
refused: words

$ run --objects=65536 --entries=16777216 --fuel=1
func.func @main() { return }
= 0
tasks 0, objects 0

$ run --entries=1 --entries=1
func.func @main() { return }
= 2
refused: words
"#;

#[test]
fn answers_worked_modules(rt: HostRuntime) -> Result<(), Fail> {
    for cases in [TASKS, GROUPS, FAILURES] {
        assert_cases(&rt, rt.alloc(), cases)?;
    }
    Ok(())
}

#[test]
fn stops_at_limits(rt: HostRuntime) -> Result<(), Fail> {
    assert_cases(&rt, rt.alloc(), STOPS)
}
