//! Lowered texts, and texts that are none.

/// Texts as they are printed.
pub const TEXTS: [&str; 5] = [
    "func.func @main() -> i64 {
^bb0:
  %0 = arith.constant 40 : i64
  %1 = arith.constant 2 : i64
  %2 = arith.addi %0, %1 : i64
  func.return %2 : i64
}
",
    "func.func @main() -> i64 {
^bb0:
  %0, %1 = func.call @aio.task.0() : () -> (!async.token, !async.value<i64>)
  async.runtime.await %1 : !async.value<i64>
  %2 = async.runtime.is_error %1 : !async.value<i64>
  cf.cond_br %2, ^bb2, ^bb1
^bb1:
  %3 = async.runtime.load %1 : !async.value<i64>
  func.return %3 : i64
^bb2:
  %4 = arith.constant 5 : i64
  aio.fail %4
}
func.func private @aio.task.0() -> (!async.token, !async.value<i64>) attributes {aio.coroutine} {
^bb0:
  %0 = async.runtime.create : !async.token
  %1 = async.runtime.create : !async.value<i64>
  %2 = async.coro.id
  %3 = async.coro.begin %2
  %4 = async.coro.save %3
  async.runtime.resume %3
  async.coro.suspend %4, ^bb3, ^bb1, ^bb2
^bb1:
  %5 = arith.constant 7 : i64
  async.runtime.store %5, %1 : !async.value<i64>
  async.runtime.set_available %1 : !async.value<i64>
  async.runtime.set_available %0 : !async.token
  cf.br ^bb2
^bb2:
  async.coro.free %2, %3
  async.coro.end %3
  aio.finish
^bb3:
  async.coro.end %3
  func.return %0, %1 : !async.token, !async.value<i64>
}
",
    "func.func @main() -> i64 {
^bb0:
  %0 = arith.constant 0 : i64
  %1, %2 = func.call @aio.task.0() : () -> (!async.token, !async.value<i64>)
  %3, %4 = func.call @aio.task.1(%1, %2, %0) : (!async.token, !async.value<i64>, i64) -> (!async.token, !async.value<i64>)
  async.runtime.await %4 : !async.value<i64>
  %5 = async.runtime.is_error %4 : !async.value<i64>
  cf.cond_br %5, ^bb2, ^bb1
^bb1:
  %6 = async.runtime.load %4 : !async.value<i64>
  func.return %6 : i64
^bb2:
  %7 = arith.constant 10 : i64
  aio.fail %7
}
func.func private @aio.task.0() -> (!async.token, !async.value<i64>) attributes {aio.coroutine} {
^bb0:
  %0 = async.runtime.create : !async.token
  %1 = async.runtime.create : !async.value<i64>
  %2 = async.coro.id
  %3 = async.coro.begin %2
  %4 = async.coro.save %3
  async.runtime.resume %3
  async.coro.suspend %4, ^bb3, ^bb1, ^bb2
^bb1:
  %5 = arith.constant 7 : i64
  async.runtime.store %5, %1 : !async.value<i64>
  async.runtime.set_available %1 : !async.value<i64>
  async.runtime.set_available %0 : !async.token
  cf.br ^bb2
^bb2:
  async.coro.free %2, %3
  async.coro.end %3
  aio.finish
^bb3:
  async.coro.end %3
  func.return %0, %1 : !async.token, !async.value<i64>
}
func.func private @aio.task.1(%0 : !async.token, %1 : !async.value<i64>, %2 : i64) -> (!async.token, !async.value<i64>) attributes {aio.coroutine} {
^bb0:
  %3 = async.runtime.create : !async.token
  %4 = async.runtime.create : !async.value<i64>
  %5 = async.coro.id
  %6 = async.coro.begin %5
  %7 = async.coro.save %6
  async.runtime.resume %6
  async.coro.suspend %7, ^bb9, ^bb1, ^bb8
^bb1:
  %8 = async.coro.save %6
  async.runtime.await_and_resume %0, %6 : !async.token
  async.coro.suspend %8, ^bb9, ^bb2, ^bb8
^bb2:
  %9 = async.runtime.is_error %0 : !async.token
  cf.cond_br %9, ^bb10, ^bb3
^bb3:
  %10 = async.coro.save %6
  async.runtime.await_and_resume %1, %6 : !async.value<i64>
  async.coro.suspend %10, ^bb9, ^bb4, ^bb8
^bb4:
  %11 = async.runtime.is_error %1 : !async.value<i64>
  cf.cond_br %11, ^bb11, ^bb5
^bb5:
  %12 = async.runtime.load %1 : !async.value<i64>
  %13 = arith.cmpi sgt, %12, %2 : i64
  cf.cond_br %13, ^bb6, ^bb12
^bb6:
  async.runtime.store %12, %4 : !async.value<i64>
  async.runtime.set_available %4 : !async.value<i64>
  async.runtime.set_available %3 : !async.token
  cf.br ^bb8
^bb7:
  async.runtime.set_error %4 : !async.value<i64>
  async.runtime.set_error %3 : !async.token
  cf.br ^bb8
^bb8:
  async.coro.free %5, %6
  async.coro.end %6
  aio.finish
^bb9:
  async.coro.end %6
  func.return %3, %4 : !async.token, !async.value<i64>
^bb10:
  cf.br ^bb7
^bb11:
  cf.br ^bb7
^bb12:
  cf.br ^bb7
}
",
    "func.func @main() {
^bb0:
  %0 = arith.constant 2 : index
  %1 = arith.constant 2147483648 : index
  %2 = arith.cmpi ule, %0, %1 : index
  cf.cond_br %2, ^bb1, ^bb3
^bb1:
  %3 = async.runtime.create_group %0 : !async.group
  %4 = func.call @aio.task.0() : () -> !async.token
  %5 = async.runtime.add_to_group %4, %3 : !async.token
  %6 = async.runtime.add_to_group %4, %3 : !async.token
  async.runtime.await %3 : !async.group
  %7 = async.runtime.is_error %3 : !async.group
  cf.cond_br %7, ^bb4, ^bb2
^bb2:
  func.return
^bb3:
  %8 = arith.constant 3 : i64
  aio.fail %8
^bb4:
  %9 = arith.constant 8 : i64
  aio.fail %9
}
func.func private @aio.task.0() -> !async.token attributes {aio.coroutine} {
^bb0:
  %0 = async.runtime.create : !async.token
  %1 = async.coro.id
  %2 = async.coro.begin %1
  %3 = async.coro.save %2
  async.runtime.resume %2
  async.coro.suspend %3, ^bb3, ^bb1, ^bb2
^bb1:
  async.runtime.set_available %0 : !async.token
  cf.br ^bb2
^bb2:
  async.coro.free %1, %2
  async.coro.end %2
  aio.finish
^bb3:
  async.coro.end %2
  func.return %0 : !async.token
}
",
    "func.func @\"a b\"(%0 : i1, %1 : i8, %2 : memref<i64>) -> index {
^bb0:
  %3 = arith.extsi %1 : i8 to i64
  %4 = arith.constant -3 : i64
  %5 = arith.select %0, %3, %4 : i64
  %6 = arith.index_cast %5 : i64 to index
  %7 = arith.constant false
  memref.dealloc %2 : memref<i64>
  func.return %6 : index
}
",
];

/// Texts that are written otherwise, and as they are printed.
pub const OTHERS: [(&str, &str); 1] = [(
    "module @code attributes {a = [1]} {
  // the sum of two numbers
  func.func public @main(%a: i64 {b}, %b: i64) -> (i64) attributes {x, aio.coroutine} {
  ^start:
    cf.br ^other(%sum : i64)
  ^other(%given: i64):
    %sum = arith.addi %a, %b : i64
    return %given : i64
  }
}
",
    "func.func @main(%0 : i64, %1 : i64) -> i64 attributes {aio.coroutine} {
^bb0:
  cf.br ^bb1(%3 : i64)
^bb1(%2: i64):
  %3 = arith.addi %0, %1 : i64
  func.return %2 : i64
}
",
)];

/// Texts, and the bytes at which their faults stand.
pub const FAULTS: [(&str, u32); 4] = [
    // the text ends too early
    ("func.func @f() {", 16),
    // an operation of other levels
    ("func.func @f() {\n^bb0:\n  scf.yield\n}\n", 25),
    // a second definition
    (
        "func.func @f(%a: i64, %a: i64) {\n^bb0:\n  func.return\n}\n",
        22,
    ),
    // a register that isn't defined
    ("func.func @f() {\n^bb0:\n  aio.fail %a\n}\n", 37),
];
