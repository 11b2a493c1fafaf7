//! Texts of level Split, and the blocks of their functions.

/// A text, and what is shown of its functions. A task of the last one still gives its values themselves, so its launch
/// doesn't fit it yet.
pub const TEXTS: [(&str, &str); 7] = [
    // a choice with results, and one without an else, whose block is made all the same
    (
        "func.func @main(%0 : i64, %1 : i64) -> i64 {
  %2 = arith.cmpi slt, %0, %1 : i64
  %3 = scf.if %2 -> i64 {
    scf.yield %1 : i64
  } else {
    scf.yield %0 : i64
  }
  scf.if %2 {
    cf.assert %2, \"no\"
    scf.yield
  }
  func.return %3 : i64
}
",
        "func 0 1 of 5
^0
  2 = arith.cmpi Slt 0 1
  cf.cond_br 2, ^1, ^2
^1
  cf.br, ^3 1
^2
  cf.br, ^3 0
^3 3
  cf.cond_br 2, ^4, ^6
^4
  cf.cond_br 2, ^5, ^8
^5
  cf.br, ^7
^6
  cf.br, ^7
^7
  func.return 3
^8
  4 = arith.constant #7
  aio.fail 4
well formed
",
    ),
    // a counted loop, whose result is a parameter of its head
    (
        "func.func @main(%n: index, %z: i64) -> i64 {
  %c0 = arith.constant 0 : index
  %c1 = arith.constant -1 : index
  %r = scf.for %i = %c0 to %n step %c1 iter_args(%p = %z) -> (i64) {
    %y = arith.addi %p, %p : i64
    scf.yield %y : i64
  }
  return %r : i64
}
",
        "func 0 1 of 9
^0
  2 = arith.constant #0
  3 = arith.constant - #1
  cf.br, ^1 2 1
^1 4 5
  6 = arith.cmpi Slt 4 0
  cf.cond_br 6, ^2, ^3
^2
  7 = arith.addi 5 5
  8 = arith.addi 4 3
  cf.br, ^1 8 7
^3
  func.return 5
well formed
",
    ),
    // blocks stand where their region stands, failure blocks at the end
    (
        "func.func @main(%m: memref<8xi64>, %c: i1) {
  %c0 = arith.constant 0 : index
  %c8 = arith.constant 8 : index
  %c1 = arith.constant 1 : index
  scf.for %i = %c0 to %c8 step %c1 {
    scf.if %c {
      cf.assert %c, \"first\"
    }
    cf.assert %c, \"second\"
  }
  cf.assert %c, \"third\"
  return
}
",
        "func 0 1 of 11
^0
  2 = arith.constant #0
  3 = arith.constant #8
  4 = arith.constant #1
  cf.br, ^1 2
^1 5
  6 = arith.cmpi Slt 5 3
  cf.cond_br 6, ^2, ^8
^2
  cf.cond_br 1, ^3, ^5
^3
  cf.cond_br 1, ^4, ^10
^4
  cf.br, ^6
^5
  cf.br, ^6
^6
  cf.cond_br 1, ^7, ^11
^7
  7 = arith.addi 5 4
  cf.br, ^1 7
^8
  cf.cond_br 1, ^9, ^12
^9
  func.return
^10
  8 = arith.constant #7
  aio.fail 8
^11
  9 = arith.constant #9
  aio.fail 9
^12
  10 = arith.constant #11
  aio.fail 10
well formed
",
    ),
    (
        "func.func @main(%n: i64) -> i64 {
  %one = arith.constant 1 : i64
  %r = scf.while (%a = %n) : (i64) -> i64 {
    %c = arith.cmpi sgt, %a, %one : i64
    scf.condition(%c) %a : i64
  } do {
    ^body(%b : i64) :
    %d = arith.subi %b, %one : i64
    scf.yield %d : i64
  }
  return %r : i64
}
",
        "func 0 of 7
^0
  1 = arith.constant #1
  cf.br, ^1 0
^1 2
  3 = arith.cmpi Sgt 2 1
  cf.cond_br 3, ^2 2, ^3 2
^2 4
  5 = arith.subi 4 1
  cf.br, ^1 5
^3 6
  func.return 6
well formed
",
    ),
    (
        "func.func @q(%a: i64) -> (i64, i64) {
  return %a, %a : i64, i64
}
func.func @main(%a: i64) -> i64 {
  %x, %y = call @q(%a) : (i64) -> (i64, i64)
  return %y : i64
}
",
        "func 0 of 1
^0
  func.return 0 0
func 0 of 4
^0
  aio.call @0 0, ^1, ^2
^1 1 2
  func.return 2
^2 3
  aio.fail 3
well formed
",
    ),
    (
        "func.func @main(%a: i64) -> i1 {
  %r = aio.try_call @g(%a) : (i64) -> i1
  return %r : i1
}
func.func @g(%a: i64) {
  return
}
func.func @g(%a: i64) {
  return
}
",
        "func 0 of 5
^0
  aio.call @1 0, ^1, ^2
^1
  1 = arith.constant #true
  cf.br, ^3 1
^2 2
  3 = arith.constant #false
  cf.br, ^3 3
^3 4
  func.return 4
func 0 of 1
^0
  func.return
func 0 of 1
^0
  func.return
well formed
",
    ),
    // a launch, awaits and a group
    (
        "func.func @main() -> i64 {
  %n = arith.constant 1 : index
  %g = async.create_group %n : !async.group
  %t, %v = async.execute -> !async.value<i64> {
    %x = arith.constant 7 : i64
    async.yield %x : i64
  }
  %k = async.add_to_group %t, %g : !async.token
  async.await_all %g
  %r = async.await %v : !async.value<i64>
  async.await %t : !async.token
  return %r : i64
}
func.func @t() -> i64 {
  %x = arith.constant 7 : i64
  async.yield %x : i64
}
",
        "func of 9
^0
  0 = arith.constant #1
  1 = async.runtime.create_group 0
  2 3 = launch @1
  4 = async.runtime.add_to_group 2 1
  await 1, ^1, ^4
^1
  await 3, ^2, ^5
^2 5
  await 2, ^3, ^6
^3
  func.return 5
^4
  6 = arith.constant #8
  aio.fail 6
^5
  7 = arith.constant #9
  aio.fail 7
^6
  8 = arith.constant #10
  aio.fail 8
task of 1
^0
  0 = arith.constant #7
  func.return 0
well formed
",
    ),
];
