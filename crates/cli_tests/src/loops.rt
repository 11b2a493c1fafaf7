//! Parallel loops on tasks, the texts of the passes, and the options and the flag for both.
use crate::harness::assert_cases;
use std::test::Fail;

const LOOPS: &str = r#"
$ run --num-workers=1 --min-task=3 --args=[10:=0]
func.func @main(%m: memref<10xindex>) {
  %c0 = arith.constant 0 : index
  %c1 = arith.constant 1 : index
  %c10 = arith.constant 10 : index
  scf.parallel (%i) = (%c0) to (%c10) step (%c1) {
    memref.store %i, %m[%i] : memref<10xindex>
    scf.reduce
  }
  return
}
= 0
argument 0: [0, 1, 2, 3, 4, 5, 6, 7, 8, 9]
tasks 3, objects 4

$ run --args=[10:=0]
func.func @main(%m: memref<10xindex>) {
  %c0 = arith.constant 0 : index
  %c1 = arith.constant 1 : index
  %c10 = arith.constant 10 : index
  scf.parallel (%i) = (%c0) to (%c10) step (%c1) {
    memref.store %i, %m[%i] : memref<10xindex>
    scf.reduce
  }
  return
}
= 0
argument 0: [0, 1, 2, 3, 4, 5, 6, 7, 8, 9]
tasks 0, objects 0

$ run
func.func @main() { %z = arith.constant 0 : index %s = arith.constant 1 : index scf.parallel (%i) = (%z) to (%z) step (%s) { scf.reduce } return }
= 0
tasks 0, objects 0

$ run
func.func @main() { %z = arith.constant 0 : index %s = arith.constant 0 : index scf.parallel (%i) = (%z) to (%z) step (%s) { scf.reduce } return }
= 1
failed at operation 4: parallel loop failed
tasks 0, objects 0

$ run --num-workers=1 --min-task=1 --args=[2x2:1,2,3,4],[2x2:5,6,7,8],[2x2:=0]
// C = A * B
module attributes {my.tag = "x"} {
  func.func @main(%A: memref<2x2xi64>, %B: memref<2x2xi64>, %C: memref<2x2xi64>) {
    %c0 = arith.constant 0 : index
    %c1 = arith.constant 1 : index
    %d = memref.dim %A, %c0 : memref<2x2xi64>
    scf.parallel (%i, %j) = (%c0, %c0) to (%d, %d) step (%c1, %c1) {
      %z = arith.constant 0 : i64
      %s = scf.for %k = %c0 to %d step %c1 iter_args(%acc = %z) -> (i64) {
        %a = memref.load %A[%i, %k] : memref<2x2xi64>
        %b = memref.load %B[%k, %j] : memref<2x2xi64>
        %p = arith.muli %a, %b : i64
        %n = arith.addi %acc, %p : i64
        scf.yield %n : i64
      }
      memref.store %s, %C[%i, %j] : memref<2x2xi64>
      scf.reduce
    }
    return
  }
}
= 0
argument 0: [1, 2, 3, 4]
argument 1: [5, 6, 7, 8]
argument 2: [19, 22, 43, 50]
tasks 3, objects 4

$ run --num-workers=1 --min-task=1
func.func @main() { %z = arith.constant 0 : index %s = arith.constant 1 : index %n = arith.constant 4 : index scf.parallel (%i) = (%z) to (%n) step (%s) { %f = arith.cmpi ne, %i, %s : index cf.assert %f, "no" scf.reduce } return }
= 1
failed at operation 5: parallel loop failed
tasks 3, objects 4

$ run --num-workers=1 --min-task=1 --objects=3
func.func @main() { %z = arith.constant 0 : index %s = arith.constant 1 : index %n = arith.constant 4 : index scf.parallel (%i) = (%z) to (%n) step (%s) { scf.reduce } return }
= 5
stopped: objects 3

$ replay --print --journal --steps
func.func @main() { return }
-- journal
0 0

= 0
tasks 0, objects 0
steps 1, entries 1
-- journal
0 0
"#;

const TEXTS: &str = r#"
$ compile
func.func @main() { return }
= 0
// async-parallel-for
func.func @main() {
  func.return
}
// async-to-async-runtime
func.func @main() {
^bb0:
  func.return
}
// async-runtime-ref-counting
func.func @main() {
^bb0:
  func.return
}
// async-runtime-ref-counting-opt
func.func @main() {
^bb0:
  func.return
}

$ compile --entry=nosuch --args=1 --steps
func.func @main(%t: !async.token) { async.await %t : !async.token return }
= 0
// async-parallel-for
func.func @main(%0 : !async.token) {
  async.await %0 : !async.token
  func.return
}
// async-to-async-runtime
func.func @main(%0 : !async.token) {
^bb0:
  async.runtime.await %0 : !async.token
  %1 = async.runtime.is_error %0 : !async.token
  cf.cond_br %1, ^bb2, ^bb1
^bb1:
  func.return
^bb2:
  %2 = arith.constant 2 : i64
  aio.fail %2
}
// async-runtime-ref-counting
func.func @main(%0 : !async.token) {
^bb0:
  async.runtime.await %0 : !async.token
  %1 = async.runtime.is_error %0 : !async.token
  async.runtime.drop_ref %0 {count = 1 : i64} : !async.token
  cf.cond_br %1, ^bb2, ^bb1
^bb1:
  func.return
^bb2:
  %2 = arith.constant 2 : i64
  aio.fail %2
}
// async-runtime-ref-counting-opt
func.func @main(%0 : !async.token) {
^bb0:
  async.runtime.await %0 : !async.token
  %1 = async.runtime.is_error %0 : !async.token
  async.runtime.drop_ref %0 {count = 1 : i64} : !async.token
  cf.cond_br %1, ^bb2, ^bb1
^bb1:
  func.return
^bb2:
  %2 = arith.constant 2 : i64
  aio.fail %2
}

$ compile
= 0
// async-parallel-for
// async-to-async-runtime
// async-runtime-ref-counting
// async-runtime-ref-counting-opt

$ compile --num-workers=1
func.func @main() -> i64 { }
= 3
refused: Terminator at operation 1

$ compile
func.func @main() { return
= 3
refused: Syntax at byte 26

$ run --print --steps --journal
func.func @main(
) { return }
= 0
// async-parallel-for
func.func @main() {
  func.return
}
// async-to-async-runtime
func.func @main() {
^bb0:
  func.return
}
// async-runtime-ref-counting
func.func @main() {
^bb0:
  func.return
}
// async-runtime-ref-counting-opt
func.func @main() {
^bb0:
  func.return
}
tasks 0, objects 0
steps 1, entries 1
-- journal
0 0

$ run --print
func.func @main() { %f = arith.constant false cf.assert %f, "no" return }
= 1
// async-parallel-for
func.func @main() {
  %0 = arith.constant false
  cf.assert %0, "no"
  func.return
}
// async-to-async-runtime
func.func @main() {
^bb0:
  %0 = arith.constant false
  cf.cond_br %0, ^bb1, ^bb2
^bb1:
  func.return
^bb2:
  %1 = arith.constant 3 : i64
  aio.fail %1
}
// async-runtime-ref-counting
func.func @main() {
^bb0:
  %0 = arith.constant false
  cf.cond_br %0, ^bb1, ^bb2
^bb1:
  func.return
^bb2:
  %1 = arith.constant 3 : i64
  aio.fail %1
}
// async-runtime-ref-counting-opt
func.func @main() {
^bb0:
  %0 = arith.constant false
  cf.cond_br %0, ^bb1, ^bb2
^bb1:
  func.return
^bb2:
  %1 = arith.constant 3 : i64
  aio.fail %1
}
failed at operation 3: no
tasks 0, objects 0

$ run --print
func.func @main() { func.call @main() : () -> () return }
= 5
stopped: frames 1024

$ run --print
func.func @main(%a: i64) { return }
= 3
refused: argument 0

$ check --print
func.func @main() { return }
= 0
ok: 1 functions, 2 operations
"#;

const WORDS: &str = r#"
$ run --num-workers=64 --min-task=2147483648
func.func @main() { return }
= 0
tasks 0, objects 0

$ run --num-workers=65
func.func @main() { return }
= 2
refused: words

$ run --num-workers=0
func.func @main() { return }
= 2
refused: words

$ compile --min-task=2147483649
func.func @main() { return }
= 2
refused: words

$ check --min-task=0
func.func @main() { return }
= 2
refused: words

$ run --min-task=42949672961
func.func @main() { return }
= 2
refused: words

$ run --print --print
func.func @main() { return }
= 2
refused: words

$ run --print=1
func.func @main() { return }
= 2
refused: words

$ compile --num-workers=1 --num-workers=1
func.func @main() { return }
= 2
refused: words
"#;

#[test]
fn runs_parallel_loops_and_prints_texts(rt: HostRuntime) -> Result<(), Fail> {
    for cases in [LOOPS, TEXTS, WORDS] {
        assert_cases(&rt, rt.alloc(), cases)?;
    }
    Ok(())
}
