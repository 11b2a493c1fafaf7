//! `source`: the first race of the tasks. The entries of a trace are counted by hand: a launch, an await and each end of a
//! task is one, as each access and each add is.
use crate::harness::assert_cases;
use std::test::Fail;

const OF_CELLS: &str = r#"
$ source --args=[1:0]
func.func @main(%m: memref<1xi64>) {
  %z = arith.constant 0 : index
  %a = arith.constant 1 : i64
  %t = async.execute { memref.store %a, %m[%z] : memref<1xi64> async.yield }
  %u = async.execute { memref.store %a, %m[%z] : memref<1xi64> async.yield }
  async.await %t : !async.token
  async.await %u : !async.token
  return
}
= 10
race: entries 1 and 4
entry 1: task root.1 write arg0[0]
entry 4: task root.2 write arg0[0]

$ source --args=[1:0]
func.func @main(%m: memref<1xi64>) {
  %z = arith.constant 0 : index
  %a = arith.constant 1 : i64
  %b = arith.constant 2 : i64
  %t = async.execute { memref.store %a, %m[%z] : memref<1xi64> async.yield }
  %u = async.execute [%t] { memref.store %b, %m[%z] : memref<1xi64> async.yield }
  async.await %t : !async.token
  async.await %u : !async.token
  return
}
= 0
argument 0: [2]
race: none

$ source --args=[1:0]
func.func @main(%m: memref<1xi64>) {
  %z = arith.constant 0 : index
  %t = async.execute { %x = memref.load %m[%z] : memref<1xi64> async.yield }
  %u = async.execute { %x = memref.load %m[%z] : memref<1xi64> async.yield }
  %y = memref.load %m[%z] : memref<1xi64>
  return
}
= 0
argument 0: [0]
race: none

$ source --args=[1:0]
func.func @main(%m: memref<1xi64>) {
  %z = arith.constant 0 : index
  %a = arith.constant 1 : i64
  %t = async.execute { memref.store %a, %m[%z] : memref<1xi64> async.yield }
  %u = async.execute { async.yield }
  %v = async.execute [%u] { async.yield }
  %w = async.execute [%v] { %x = memref.load %m[%z] : memref<1xi64> async.yield }
  return
}
= 10
race: entries 1 and 10
entry 1: task root.1 write arg0[0]
entry 10: task root.4 read arg0[0]

$ source --args=[1:0]
func.func @main(%m: memref<1xi64>) {
  %z = arith.constant 0 : index
  %a = arith.constant 1 : i64
  %t = async.execute { memref.store %a, %m[%z] : memref<1xi64> async.yield }
  %u = async.execute [%t] { async.yield }
  %v = async.execute [%u] { async.yield }
  %w = async.execute [%v] { %x = memref.load %m[%z] : memref<1xi64> async.yield }
  return
}
= 0
argument 0: [1]
race: none

$ source --args=[1:0]
func.func @main(%m: memref<1xi64>) {
  %z = arith.constant 0 : index
  %a = arith.constant 1 : i64
  %t = async.execute { %x = memref.load %m[%z] : memref<1xi64> async.yield }
  %u = async.execute { %x = memref.load %m[%z] : memref<1xi64> async.yield }
  %v = async.execute [%u] { memref.store %a, %m[%z] : memref<1xi64> async.yield }
  return
}
= 10
race: entries 1 and 8
entry 1: task root.1 read arg0[0]
entry 8: task root.3 write arg0[0]

$ source --args=[1:0]
func.func @main(%m: memref<1xi64>) {
  %z = arith.constant 0 : index
  %a = arith.constant 1 : i64
  %t = async.execute { %x = memref.load %m[%z] : memref<1xi64> async.yield }
  %u = async.execute { %x = memref.load %m[%z] : memref<1xi64> async.yield }
  %v = async.execute { memref.store %a, %m[%z] : memref<1xi64> async.yield }
  return
}
= 10
race: entries 1 and 7
entry 1: task root.1 read arg0[0]
entry 7: task root.3 write arg0[0]

$ source --args=[1:0],false
func.func @main(%m: memref<1xi64>, %c: i1) {
  %z = arith.constant 0 : index
  %a = arith.constant 1 : i64
  %t = async.execute { memref.store %a, %m[%z] : memref<1xi64> async.yield }
  memref.store %a, %m[%z] : memref<1xi64>
  cf.assert %c, "no"
  return
}
= 10
race: entries 1 and 3
entry 1: task root.1 write arg0[0]
entry 3: task root write arg0[0]

$ source --args=[1:0],false
func.func @main(%m: memref<1xi64>, %c: i1) {
  %z = arith.constant 0 : index
  %a = arith.constant 1 : i64
  %t = async.execute { memref.store %a, %m[%z] : memref<1xi64> cf.assert %c, "no" async.yield }
  %u = async.execute [%t] { async.yield }
  async.await %u : !async.token
  return
}
= 1
failed at operation 10: Awaited async operand is in error state
race: none
"#;

const OF_LOOPS: &str = r#"
$ source --args=[4:=0]
func.func @main(%m: memref<4xi64>) {
  %c0 = arith.constant 0 : index
  %c1 = arith.constant 1 : index
  %c2 = arith.constant 2 : index
  %x = arith.constant 7 : i64
  %t = async.execute { async.yield }
  async.await %t : !async.token
  scf.parallel (%i, %j) = (%c0, %c0) to (%c2, %c2) step (%c1, %c1) {
    memref.store %x, %m[%j] : memref<4xi64>
  }
  return
}
= 10
race: entries 4 and 8
entry 4: task root.3.0 write arg0[0]
entry 8: task root.3.2 write arg0[0]

$ source --args=[2:=0]
func.func @main(%m: memref<2xi64>) -> i64 {
  %c0 = arith.constant 0 : index
  %c1 = arith.constant 1 : index
  %c2 = arith.constant 2 : index
  %x = arith.constant 7 : i64
  scf.parallel (%i) = (%c0) to (%c2) step (%c1) { memref.store %x, %m[%i] : memref<2xi64> }
  scf.parallel (%i) = (%c0) to (%c2) step (%c1) {
    %y = memref.load %m[%c0] : memref<2xi64>
    %z = memref.load %m[%c1] : memref<2xi64>
  }
  %r = memref.load %m[%c1] : memref<2xi64>
  return %r : i64
}
= 0
result 0: 7
argument 0: [7, 7]
race: none
"#;

const OF_GROUPS: &str = r#"
$ source --args=[2:=0]
func.func @main(%m: memref<2xi64>) {
  %z = arith.constant 0 : index
  %s = arith.constant 1 : index
  %a = arith.constant 1 : i64
  %g = async.create_group %s : !async.group
  %t = async.execute { memref.store %a, %m[%z] : memref<2xi64> async.yield }
  %u = async.execute { memref.store %a, %m[%s] : memref<2xi64> async.yield }
  %r = async.add_to_group %t, %g : !async.token
  async.await_all %g
  %x = memref.load %m[%z] : memref<2xi64>
  %y = memref.load %m[%s] : memref<2xi64>
  return
}
= 10
race: entries 5 and 10
entry 5: task root.3 write arg0[1]
entry 10: task root read arg0[1]

$ source
func.func @main() -> index {
  %n = arith.constant 2 : index
  %g = async.create_group %n : !async.group
  %t = async.execute { async.yield }
  %u = async.execute [%t, %t] {
    %r = async.add_to_group %t, %g : !async.token
    async.yield
  }
  %s = async.add_to_group %t, %g : !async.token
  async.await_all %g
  return %s : index
}
= 10
race: entries 6 and 8
entry 6: task root.3 add root:1 unused
entry 8: task root add root:1 used

$ source
func.func @main() {
  %n = arith.constant 2 : index
  %g = async.create_group %n : !async.group
  %t = async.execute { async.yield }
  %u = async.execute { %r = async.add_to_group %t, %g : !async.token async.yield }
  %s = async.add_to_group %t, %g : !async.token
  async.await_all %g
  return
}
= 0
race: none

$ source
func.func @main() {
  %z = arith.constant 0 : index
  %s = arith.constant 1 : index
  %t = async.execute {
    %m = memref.alloc(%s) : memref<?xi64>
    %a = arith.constant 1 : i64
    %u = async.execute { memref.store %a, %m[%z] : memref<?xi64> async.yield }
    memref.store %a, %m[%z] : memref<?xi64>
    async.yield
  }
  return
}
= 10
race: entries 3 and 5
entry 3: task root.1.2 write root.1:1[0]
entry 5: task root.1 write root.1:1[0]
"#;

#[test]
fn names_the_first_race(rt: HostRuntime) -> Result<(), Fail> {
    assert_cases(&rt, rt.alloc(), OF_CELLS)?;
    assert_cases(&rt, rt.alloc(), OF_LOOPS)?;
    assert_cases(&rt, rt.alloc(), OF_GROUPS)
}
