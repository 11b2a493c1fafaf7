//! `source`: what the run in order gives, why it stops, and the message of each operation that fails.
use crate::harness::assert_cases;
use std::test::Fail;

const ENDS: &str = r#"
$ source --fuel=4
func.func @main() -> i64 { %a = arith.constant 40 : i64 %b = arith.constant 2 : i64 %c = arith.addi %a, %b : i64 return %c : i64 }
= 0
result 0: 42
race: none

$ source --fuel=3
func.func @main() -> i64 { %a = arith.constant 40 : i64 %b = arith.constant 2 : i64 %c = arith.addi %a, %b : i64 return %c : i64 }
= 6
stopped: fuel 3

$ source
func.func @main() -> (i8, i8, i16, index, i1) {
  %a = arith.constant 255 : i8
  %b = arith.constant -128 : i8
  %c = arith.constant 0xFFFF : i16
  %d = arith.constant 18446744073709551615 : index
  %e = arith.constant false
  return %a, %b, %c, %d, %e : i8, i8, i16, index, i1
}
= 0
result 0: -1
result 1: -128
result 2: -1
result 3: -1
result 4: false
race: none

$ source --args=true,7,-7
func.func @main(%c: i1, %a: i64, %b: i64) -> (i64, i64) {
  %n = arith.constant false
  %x = arith.select %c, %a, %b : i64
  %y = arith.select %n, %a, %b : i64
  return %x, %y : i64, i64
}
= 0
result 0: 7
result 1: -7
race: none

$ source --args=[3:9,9,9],3
func.func @main(%m: memref<?xi8>, %n: index) -> (index, i1) {
  %z = arith.constant 0 : index
  %s = arith.constant 1 : index
  scf.parallel (%i) = (%z) to (%n) step (%s) {
    %x = arith.index_cast %i : index to i8
    memref.store %x, %m[%i] : memref<?xi8>
  }
  %c = arith.cmpi slt, %z, %n : index
  return %n, %c : index, i1
}
= 0
result 0: 3
result 1: true
argument 0: [0, 1, 2]
race: none

$ source --args=[2x2:1,2,3,4],[:9],[0:]
func.func @main(%m: memref<2x?xi64>, %k: memref<i64>, %o: memref<?xi1>) -> (index, index, index, i64, i64) {
  %z = arith.constant 0 : index
  %s = arith.constant 1 : index
  %a = memref.dim %m, %z : memref<2x?xi64>
  %b = memref.dim %m, %s : memref<2x?xi64>
  %c = memref.dim %o, %z : memref<?xi1>
  %x = memref.load %m[%s, %z] : memref<2x?xi64>
  %y = memref.load %k[] : memref<i64>
  memref.store %y, %m[%z, %s] : memref<2x?xi64>
  memref.dealloc %k : memref<i64>
  return %a, %b, %c, %x, %y : index, index, index, i64, i64
}
= 0
result 0: 2
result 1: 2
result 2: 0
result 3: 3
result 4: 9
argument 0: [1, 9, 3, 4]
argument 1: [9]
argument 2: []
race: none

$ source --args=4611686018427387903
func.func @main(%l: index) -> (i64, i64) {
  %s = arith.constant 1 : index
  %u = arith.constant 4611686018427387904 : index
  %a = arith.constant 5 : i64
  %c = arith.constant true
  %n = arith.constant false
  %x = scf.for %i = %l to %u step %u iter_args(%p = %a) -> (i64) { %q = arith.addi %p, %a : i64 scf.yield %q : i64 }
  scf.for %i = %u to %l step %s { cf.assert %n, "no turn" }
  %y = scf.while (%p = %a) : (i64) -> i64 {
    %d = arith.cmpi slt, %p, %x : i64
    scf.condition(%d) %p : i64
  } do {
    ^b(%q : i64):
    %r = scf.if %c -> i64 { %t = arith.addi %q, %q : i64 scf.yield %t : i64 } else { scf.yield %q : i64 }
    scf.yield %r : i64
  }
  return %x, %y : i64, i64
}
= 0
result 0: 10
result 1: 10
race: none

$ source
func.func @main() -> (i64, index, index) {
  %n = arith.constant 2 : index
  %g = async.create_group %n : !async.group
  %t, %v = async.execute -> !async.value<i64> { %x = arith.constant 7 : i64 async.yield %x : i64 }
  %u, %w = async.execute [%t] (%v as %x : !async.value<i64>) -> !async.value<i64> { %y = arith.addi %x, %x : i64 async.yield %y : i64 }
  %r = async.add_to_group %t, %g : !async.token
  %s = async.add_to_group %w, %g : !async.value<i64>
  async.await_all %g
  %a = async.await %w : !async.value<i64>
  return %a, %r, %s : i64, index, index
}
= 0
result 0: 14
result 1: 0
result 2: 1
race: none

$ source --args=7
func.func @main(%a: i8, %b: i8) { return }
= 3
refused: argument 1

$ source --args=7,true
func.func @main(%a: i8, %b: i8) { return }
= 3
refused: argument 1

$ source --entry=no
func.func @main() { return }
= 3
refused: no entry no

$ source
func.func @main() {
= 3
refused: Syntax at byte 19
"#;

const STOPS: &str = r#"
$ source
func.func @main() {
  %n = arith.constant 2 : index
  %g = async.create_group %n : !async.group
  %t = async.execute { async.yield }
  %r = async.add_to_group %t, %g : !async.token
  async.await_all %g
  return
}
= 4
stopped: group root:1 has 1 of 2 elements

$ source
func.func @main() {
  %n = arith.constant 2 : index
  %g = async.create_group %n : !async.group
  %t = async.execute { async.yield }
  %r = async.add_to_group %t, %g : !async.token
  %s = async.add_to_group %t, %g : !async.token
  %q = async.add_to_group %t, %g : !async.token
  async.await_all %g
  return
}
= 5
stopped: group root:1 is full at 2

$ source --args=[1:0]
func.func @main(%m: memref<?xi64>) {
  %n = arith.constant 16777215 : index
  %s = arith.constant 1 : index
  %a = memref.alloc(%s) : memref<?xi64>
  %b = memref.alloc(%n) : memref<?xi64>
  return
}
= 5
stopped: cells 2
"#;

const MESSAGES: &str = r#"
$ source --args=false
func.func @main(%c: i1) { cf.assert %c, "a \"b\" \\ \41" return }
= 1
failed at operation 2: a "b" \ A
race: none

$ source --args=false
func.func @f(%c: i1) { cf.assert %c, "in the call" return }
func.func @main(%c: i1) { call @f(%c) : (i1) -> () return }
= 1
failed at operation 2: in the call
race: none

$ source --args=false
func.func @main(%c: i1) { cf.assert %c, "numbered" {aio.at = 70 : i64} return }
= 1
failed at operation 2: numbered
race: none

$ source --args=false
func.func @main(%c: i1) {
  %t = async.execute { cf.assert %c, "no" async.yield }
  %u = async.execute [%t] { async.yield }
  async.await %u : !async.token
  return
}
= 1
failed at operation 7: Awaited async operand is in error state
race: none

$ source --args=false
func.func @main(%c: i1) {
  %t, %v = async.execute -> !async.value<i1> { cf.assert %c, "no" async.yield %c : i1 }
  %x = async.await %v : !async.value<i1>
  return
}
= 1
failed at operation 5: Awaited async operand is in error state
race: none

$ source --args=false
func.func @main(%c: i1) {
  %n = arith.constant 2 : index
  %g = async.create_group %n : !async.group
  %t = async.execute { cf.assert %c, "no" async.yield }
  %u = async.execute { async.yield }
  %r = async.add_to_group %u, %g : !async.token
  %s = async.add_to_group %t, %g : !async.token
  async.await_all %g
  return
}
= 1
failed at operation 11: Awaited async operand is in error state
race: none

$ source --args=[1:9],false
func.func @main(%m: memref<1xi64>, %c: i1) {
  %z = arith.constant 0 : index
  %a = arith.constant 5 : i64
  %t = async.execute { cf.assert %c, "no" async.yield }
  %u = async.execute [%t] { memref.store %a, %m[%z] : memref<1xi64> async.yield }
  return
}
= 0
argument 0: [9]
race: none

$ source --args=[2:=0],2
func.func @main(%m: memref<2xi64>, %i: index) { %x = memref.load %m[%i] : memref<2xi64> return }
= 1
failed at operation 2: index out of range
race: none

$ source --args=[2:=0],-1
func.func @main(%m: memref<2xi64>, %i: index) { %x = memref.load %m[%i] : memref<2xi64> return }
= 1
failed at operation 2: index out of range
race: none

$ source --args=[1x2:=0],1
func.func @main(%m: memref<1x2xi64>, %i: index) {
  %x = arith.constant 1 : i64
  memref.store %x, %m[%i, %i] : memref<1x2xi64>
  return
}
= 1
failed at operation 3: index out of range
race: none

$ source --args=[1x2:=0],2
func.func @main(%m: memref<1x2xi64>, %i: index) { %n = memref.dim %m, %i : memref<1x2xi64> return }
= 1
failed at operation 2: index out of range
race: none

$ source --args=-1
func.func @main(%n: index) { %m = memref.alloc(%n) : memref<?xi64> return }
= 1
failed at operation 2: allocation out of range
race: none

$ source --args=16777217
func.func @main(%n: index) { %m = memref.alloc(%n) : memref<?xi64> return }
= 1
failed at operation 2: allocation out of range
race: none

$ source --args=4097,0
func.func @main(%n: index, %z: index) { %m = memref.alloc(%n, %z) : memref<4096x?x?xi64> return }
= 1
failed at operation 2: allocation out of range
race: none

$ source --args=4097,0
func.func @main(%n: index, %z: index) { %m = memref.alloc(%z, %n) : memref<?x4096x?xi64> return }
= 0
race: none

$ source --args=-1
func.func @main(%n: index) { %g = async.create_group %n : !async.group return }
= 1
failed at operation 2: group size out of range
race: none

$ source --args=2147483649
func.func @main(%n: index) { %g = async.create_group %n : !async.group return }
= 1
failed at operation 2: group size out of range
race: none

$ source --args=2147483648
func.func @main(%n: index) { %g = async.create_group %n : !async.group return }
= 0
race: none

$ source --args=0,0,0
func.func @main(%l: index, %u: index, %s: index) { scf.for %i = %l to %u step %s { } return }
= 1
failed at operation 2: loop bounds out of range
race: none

$ source --args=0,4611686018427387905,1
func.func @main(%l: index, %u: index, %s: index) { scf.for %i = %l to %u step %s { } return }
= 1
failed at operation 2: loop bounds out of range
race: none

$ source --args=-4611686018427387905,0,1
func.func @main(%l: index, %u: index, %s: index) { scf.for %i = %l to %u step %s { } return }
= 1
failed at operation 2: loop bounds out of range
race: none

$ source --args=0,0,4611686018427387905
func.func @main(%l: index, %u: index, %s: index) { scf.for %i = %l to %u step %s { } return }
= 1
failed at operation 2: loop bounds out of range
race: none

$ source --args=0,0,0
func.func @main(%l: index, %u: index, %s: index) { scf.parallel (%i) = (%l) to (%u) step (%s) { } return }
= 1
failed at operation 2: parallel loop failed
race: none

$ source --args=0,2147483649,1
func.func @main(%l: index, %u: index, %s: index) { scf.parallel (%i) = (%l) to (%u) step (%s) { } return }
= 1
failed at operation 2: parallel loop failed
race: none

$ source --args=[3:=9],0,3,1
func.func @main(%m: memref<3xi64>, %l: index, %u: index, %s: index) {
  scf.parallel (%i) = (%l) to (%u) step (%s) {
    %c = arith.cmpi ne, %i, %s : index
    cf.assert %c, "no"
    %x = arith.index_cast %i : index to i64
    memref.store %x, %m[%i] : memref<3xi64>
  }
  return
}
= 1
failed at operation 2: parallel loop failed
race: none
"#;

#[test]
fn tells_what_a_run_in_order_gives(rt: HostRuntime) -> Result<(), Fail> {
    assert_cases(&rt, rt.alloc(), ENDS)?;
    assert_cases(&rt, rt.alloc(), STOPS)?;
    assert_cases(&rt, rt.alloc(), MESSAGES)
}
