//! Texts, and the texts of their code.

/// A text without parallel loops, and its code, before references are counted.
pub const TEXTS: [(&str, &str); 11] = [
    // a task that gives a value
    (
        "func.func @main() -> i64 {
  %t, %v = async.execute -> !async.value<i64> {
    %c = arith.constant 7 : i64
    async.yield %c : i64
  }
  %r = async.await %v : !async.value<i64>
  return %r : i64
}
",
        "func.func @main() -> i64 {
^bb0:
  %0, %1 = func.call @aio.task.0() : () -> (!async.token, !async.value<i64>)
  async.runtime.await %1 : !async.value<i64>
  %2 = async.runtime.is_error %1 : !async.value<i64>
  cf.cond_br %2, ^bb2, ^bb1
^bb1:
  %3 = async.runtime.load %1 : !async.value<i64>
  func.return %3 : i64
^bb2:
  %4 = arith.constant 5 : i64
  aio.fail %4
}
func.func private @aio.task.0() -> (!async.token, !async.value<i64>) attributes {aio.coroutine} {
^bb0:
  %0 = async.runtime.create : !async.token
  %1 = async.runtime.create : !async.value<i64>
  %2 = async.coro.id
  %3 = async.coro.begin %2
  %4 = async.coro.save %3
  async.runtime.resume %3
  async.coro.suspend %4, ^bb3, ^bb1, ^bb2
^bb1:
  %5 = arith.constant 7 : i64
  async.runtime.store %5, %1 : !async.value<i64>
  async.runtime.set_available %1 : !async.value<i64>
  async.runtime.set_available %0 : !async.token
  cf.br ^bb2
^bb2:
  async.coro.free %2, %3
  async.coro.end %3
  aio.finish
^bb3:
  async.coro.end %3
  func.return %0, %1 : !async.token, !async.value<i64>
}
",
    ),
    // conditionals
    (
        "func.func @main(%a: i64, %b: i64) -> i64 {
  %c = arith.cmpi slt, %a, %b : i64
  %m = scf.if %c -> i64 {
    scf.yield %b : i64
  } else {
    scf.yield %a : i64
  }
  scf.if %c {
    cf.assert %c, \"no\"
  }
  return %m : i64
}
",
        "func.func @main(%0 : i64, %1 : i64) -> i64 {
^bb0:
  %2 = arith.cmpi slt, %0, %1 : i64
  cf.cond_br %2, ^bb1, ^bb2
^bb1:
  cf.br ^bb3(%1 : i64)
^bb2:
  cf.br ^bb3(%0 : i64)
^bb3(%3: i64):
  cf.cond_br %2, ^bb4, ^bb6
^bb4:
  cf.cond_br %2, ^bb5, ^bb8
^bb5:
  cf.br ^bb7
^bb6:
  cf.br ^bb7
^bb7:
  func.return %3 : i64
^bb8:
  %4 = arith.constant 7 : i64
  aio.fail %4
}
",
    ),
    // a loop
    (
        "func.func @main(%n: i64) -> i64 {
  %one = arith.constant 1 : i64
  %r = scf.while (%a = %n) : (i64) -> i64 {
    %c = arith.cmpi sgt, %a, %one : i64
    scf.condition(%c) %a : i64
  } do {
    ^body(%b : i64) :
    %d = arith.subi %b, %one : i64
    scf.yield %d : i64
  }
  return %r : i64
}
",
        "func.func @main(%0 : i64) -> i64 {
^bb0:
  %1 = arith.constant 1 : i64
  cf.br ^bb1(%0 : i64)
^bb1(%2: i64):
  %3 = arith.cmpi sgt, %2, %1 : i64
  cf.cond_br %3, ^bb2(%2 : i64), ^bb3(%2 : i64)
^bb2(%4: i64):
  %5 = arith.subi %4, %1 : i64
  cf.br ^bb1(%5 : i64)
^bb3(%6: i64):
  func.return %6 : i64
}
",
    ),
    // a call with two results
    (
        "func.func @q(%a: i64) -> (i64, i64) {
  return %a, %a : i64, i64
}
func.func @main(%a: i64) -> i64 {
  %x, %y = call @q(%a) : (i64) -> (i64, i64)
  return %y : i64
}
",
        "func.func @q(%0 : i64) -> (i64, i64) {
^bb0:
  func.return %0, %0 : i64, i64
}
func.func @main(%0 : i64) -> i64 {
^bb0:
  aio.call @q(%0) : (i64) -> (i64, i64), ^bb1, ^bb2
^bb1(%1: i64, %2: i64):
  func.return %2 : i64
^bb2(%3: i64):
  aio.fail %3
}
",
    ),
    // a task with a dependency, a value operand and an assertion
    (
        "func.func @main() -> i64 {
  %c0 = arith.constant 0 : i64
  %t, %v = async.execute -> !async.value<i64> {
    %x = arith.constant 7 : i64
    async.yield %x : i64
  }
  %u, %w = async.execute [%t] (%v as %y : !async.value<i64>) -> !async.value<i64> {
    %p = arith.cmpi sgt, %y, %c0 : i64
    cf.assert %p, \"not positive\"
    async.yield %y : i64
  }
  %r = async.await %w : !async.value<i64>
  return %r : i64
}
",
        "func.func @main() -> i64 {
^bb0:
  %0 = arith.constant 0 : i64
  %1, %2 = func.call @aio.task.0() : () -> (!async.token, !async.value<i64>)
  %3, %4 = func.call @aio.task.1(%1, %2, %0) : (!async.token, !async.value<i64>, i64) -> (!async.token, !async.value<i64>)
  async.runtime.await %4 : !async.value<i64>
  %5 = async.runtime.is_error %4 : !async.value<i64>
  cf.cond_br %5, ^bb2, ^bb1
^bb1:
  %6 = async.runtime.load %4 : !async.value<i64>
  func.return %6 : i64
^bb2:
  %7 = arith.constant 10 : i64
  aio.fail %7
}
func.func private @aio.task.0() -> (!async.token, !async.value<i64>) attributes {aio.coroutine} {
^bb0:
  %0 = async.runtime.create : !async.token
  %1 = async.runtime.create : !async.value<i64>
  %2 = async.coro.id
  %3 = async.coro.begin %2
  %4 = async.coro.save %3
  async.runtime.resume %3
  async.coro.suspend %4, ^bb3, ^bb1, ^bb2
^bb1:
  %5 = arith.constant 7 : i64
  async.runtime.store %5, %1 : !async.value<i64>
  async.runtime.set_available %1 : !async.value<i64>
  async.runtime.set_available %0 : !async.token
  cf.br ^bb2
^bb2:
  async.coro.free %2, %3
  async.coro.end %3
  aio.finish
^bb3:
  async.coro.end %3
  func.return %0, %1 : !async.token, !async.value<i64>
}
func.func private @aio.task.1(%0 : !async.token, %1 : !async.value<i64>, %2 : i64) -> (!async.token, !async.value<i64>) attributes {aio.coroutine} {
^bb0:
  %3 = async.runtime.create : !async.token
  %4 = async.runtime.create : !async.value<i64>
  %5 = async.coro.id
  %6 = async.coro.begin %5
  %7 = async.coro.save %6
  async.runtime.resume %6
  async.coro.suspend %7, ^bb9, ^bb1, ^bb8
^bb1:
  %8 = async.coro.save %6
  async.runtime.await_and_resume %0, %6 : !async.token
  async.coro.suspend %8, ^bb9, ^bb2, ^bb8
^bb2:
  %9 = async.runtime.is_error %0 : !async.token
  cf.cond_br %9, ^bb10, ^bb3
^bb3:
  %10 = async.coro.save %6
  async.runtime.await_and_resume %1, %6 : !async.value<i64>
  async.coro.suspend %10, ^bb9, ^bb4, ^bb8
^bb4:
  %11 = async.runtime.is_error %1 : !async.value<i64>
  cf.cond_br %11, ^bb11, ^bb5
^bb5:
  %12 = async.runtime.load %1 : !async.value<i64>
  %13 = arith.cmpi sgt, %12, %2 : i64
  cf.cond_br %13, ^bb6, ^bb12
^bb6:
  async.runtime.store %12, %4 : !async.value<i64>
  async.runtime.set_available %4 : !async.value<i64>
  async.runtime.set_available %3 : !async.token
  cf.br ^bb8
^bb7:
  async.runtime.set_error %4 : !async.value<i64>
  async.runtime.set_error %3 : !async.token
  cf.br ^bb8
^bb8:
  async.coro.free %5, %6
  async.coro.end %6
  aio.finish
^bb9:
  async.coro.end %6
  func.return %3, %4 : !async.token, !async.value<i64>
^bb10:
  cf.br ^bb7
^bb11:
  cf.br ^bb7
^bb12:
  cf.br ^bb7
}
",
    ),
    // a group
    (
        "func.func @main() {
  %n = arith.constant 2 : index
  %g = async.create_group %n : !async.group
  %t = async.execute { async.yield }
  %r = async.add_to_group %t, %g : !async.token
  %s = async.add_to_group %t, %g : !async.token
  async.await_all %g
  return
}
",
        "func.func @main() {
^bb0:
  %0 = arith.constant 2 : index
  %1 = arith.constant 2147483648 : index
  %2 = arith.cmpi ule, %0, %1 : index
  cf.cond_br %2, ^bb1, ^bb3
^bb1:
  %3 = async.runtime.create_group %0 : !async.group
  %4 = func.call @aio.task.0() : () -> !async.token
  %5 = async.runtime.add_to_group %4, %3 : !async.token
  %6 = async.runtime.add_to_group %4, %3 : !async.token
  async.runtime.await %3 : !async.group
  %7 = async.runtime.is_error %3 : !async.group
  cf.cond_br %7, ^bb4, ^bb2
^bb2:
  func.return
^bb3:
  %8 = arith.constant 3 : i64
  aio.fail %8
^bb4:
  %9 = arith.constant 8 : i64
  aio.fail %9
}
func.func private @aio.task.0() -> !async.token attributes {aio.coroutine} {
^bb0:
  %0 = async.runtime.create : !async.token
  %1 = async.coro.id
  %2 = async.coro.begin %1
  %3 = async.coro.save %2
  async.runtime.resume %2
  async.coro.suspend %3, ^bb3, ^bb1, ^bb2
^bb1:
  async.runtime.set_available %0 : !async.token
  cf.br ^bb2
^bb2:
  async.coro.free %1, %2
  async.coro.end %2
  aio.finish
^bb3:
  async.coro.end %2
  func.return %0 : !async.token
}
",
    ),
    // a token that a call takes
    (
        "func.func @g(%a: !async.token) { return }
func.func @main() {
  %t = async.execute { async.yield }
  func.call @g(%t) : (!async.token) -> ()
  return
}
",
        "func.func @g(%0 : !async.token) {
^bb0:
  func.return
}
func.func @main() {
^bb0:
  %0 = func.call @aio.task.0() : () -> !async.token
  aio.call @g(%0) : (!async.token) -> (), ^bb1, ^bb2
^bb1:
  func.return
^bb2(%1: i64):
  aio.fail %1
}
func.func private @aio.task.0() -> !async.token attributes {aio.coroutine} {
^bb0:
  %0 = async.runtime.create : !async.token
  %1 = async.coro.id
  %2 = async.coro.begin %1
  %3 = async.coro.save %2
  async.runtime.resume %2
  async.coro.suspend %3, ^bb3, ^bb1, ^bb2
^bb1:
  async.runtime.set_available %0 : !async.token
  cf.br ^bb2
^bb2:
  async.coro.free %1, %2
  async.coro.end %2
  aio.finish
^bb3:
  async.coro.end %2
  func.return %0 : !async.token
}
",
    ),
    // a load
    (
        "func.func @get(%m: memref<?x8xi64>, %i: index, %j: index) -> i64 {
  %x = memref.load %m[%i, %j] : memref<?x8xi64>
  return %x : i64
}
",
        "func.func @get(%0 : memref<?x8xi64>, %1 : index, %2 : index) -> i64 {
^bb0:
  %3 = arith.constant 0 : index
  %4 = memref.dim %0, %3 : memref<?x8xi64>
  %5 = arith.cmpi ult, %1, %4 : index
  cf.cond_br %5, ^bb1, ^bb3
^bb1:
  %6 = arith.constant 1 : index
  %7 = memref.dim %0, %6 : memref<?x8xi64>
  %8 = arith.cmpi ult, %2, %7 : index
  cf.cond_br %8, ^bb2, ^bb4
^bb2:
  %9 = memref.load %0[%1, %2] : memref<?x8xi64>
  func.return %9 : i64
^bb3:
  %10 = arith.constant 2 : i64
  aio.fail %10
^bb4:
  %11 = arith.constant 2 : i64
  aio.fail %11
}
",
    ),
    // a store
    (
        "func.func @put(%m: memref<8xi64>, %d: index, %x: i64) {
  memref.store %x, %m[%d] : memref<8xi64>
  %n = memref.dim %m, %d : memref<8xi64>
  return
}
",
        "func.func @put(%0 : memref<8xi64>, %1 : index, %2 : i64) {
^bb0:
  %3 = arith.constant 0 : index
  %4 = memref.dim %0, %3 : memref<8xi64>
  %5 = arith.cmpi ult, %1, %4 : index
  cf.cond_br %5, ^bb1, ^bb3
^bb1:
  memref.store %2, %0[%1] : memref<8xi64>
  %6 = arith.constant 1 : index
  %7 = arith.cmpi ult, %1, %6 : index
  cf.cond_br %7, ^bb2, ^bb4
^bb2:
  %8 = memref.dim %0, %1 : memref<8xi64>
  func.return
^bb3:
  %9 = arith.constant 2 : i64
  aio.fail %9
^bb4:
  %10 = arith.constant 3 : i64
  aio.fail %10
}
",
    ),
    // an allocation
    (
        "func.func @main(%n: index) {
  %m = memref.alloc(%n) : memref<?xi64>
  return
}
",
        "func.func @main(%0 : index) {
^bb0:
  %1 = arith.constant 16777216 : index
  %2 = arith.cmpi ule, %0, %1 : index
  cf.cond_br %2, ^bb1, ^bb3
^bb1:
  %3 = arith.cmpi ule, %0, %1 : index
  cf.cond_br %3, ^bb2, ^bb4
^bb2:
  %4 = memref.alloc(%0) : memref<?xi64>
  func.return
^bb3:
  %5 = arith.constant 2 : i64
  aio.fail %5
^bb4:
  %6 = arith.constant 2 : i64
  aio.fail %6
}
",
    ),
    // casts, a choice and a name in quotes
    (
        "func.func @\"a b\"(%b: i1, %s: i8, %m: memref<i64>) -> index {
  %w = arith.extsi %s : i8 to i64
  %k = arith.constant -3 : i64
  %y = arith.select %b, %w, %k : i64
  %z = arith.index_cast %y : i64 to index
  %f = arith.constant false
  memref.dealloc %m : memref<i64>
  return %z : index
}
",
        "func.func @\"a b\"(%0 : i1, %1 : i8, %2 : memref<i64>) -> index {
^bb0:
  %3 = arith.extsi %1 : i8 to i64
  %4 = arith.constant -3 : i64
  %5 = arith.select %0, %3, %4 : i64
  %6 = arith.index_cast %5 : i64 to index
  %7 = arith.constant false
  memref.dealloc %2 : memref<i64>
  func.return %6 : index
}
",
    ),
];
