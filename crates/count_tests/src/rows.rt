//! Texts, and the code that has the counts, written by hand from the rules.

/// What is counted, in a part of the code of a text: the function, its first block and how many there are.
pub(crate) struct Row {
    pub(crate) text: &'static str,
    pub(crate) func: usize,
    pub(crate) first: usize,
    pub(crate) blocks: usize,
    pub(crate) code: &'static str,
}

pub(crate) const ROWS: [Row; 11] = [
    // a value that is awaited, and the token that nobody awaits
    Row {
        text: "func.func @main() -> i64 {
  %t, %v = async.execute -> !async.value<i64> {
    %c = arith.constant 7 : i64
    async.yield %c : i64
  }
  %r = async.await %v : !async.value<i64>
  return %r : i64
}
",
        func: 0,
        first: 0,
        blocks: 3,
        code: "^
func.call to 0 1
async.runtime.drop_ref 0 by 1
async.runtime.await 1
async.runtime.is_error 1 to 2
cf.cond_br 2 ^2 ^1
^
async.runtime.load 1 to 3
async.runtime.drop_ref 1 by 1
func.return 3
^
async.runtime.drop_ref 1 by 1
arith.constant to 4
aio.fail 4
",
    },
    // a task without captured tokens has no counts
    Row {
        text: "func.func @main() -> i64 {
  %t, %v = async.execute -> !async.value<i64> {
    %c = arith.constant 7 : i64
    async.yield %c : i64
  }
  %r = async.await %v : !async.value<i64>
  return %r : i64
}
",
        func: 1,
        first: 0,
        blocks: 4,
        code: "^
async.runtime.create to 0
async.runtime.create to 1
async.coro.id to 2
async.coro.begin 2 to 3
async.coro.save 3 to 4
async.runtime.resume 3
async.coro.suspend 4 ^3 ^1 ^2
^
arith.constant to 5
async.runtime.store 5 1
async.runtime.set_available 1
async.runtime.set_available 0
cf.br ^2
^
async.coro.free 2 3
async.coro.end 3
aio.finish
^
async.coro.end 3
func.return 0 1
",
    },
    // a task takes a token and a value, which end with the call
    Row {
        text: "func.func @main() -> i64 {
  %c0 = arith.constant 0 : i64
  %t, %v = async.execute -> !async.value<i64> {
    %x = arith.constant 7 : i64
    async.yield %x : i64
  }
  %u, %w = async.execute [%t] (%v as %y : !async.value<i64>) -> !async.value<i64> {
    %p = arith.cmpi sgt, %y, %c0 : i64
    cf.assert %p, \"not positive\"
    async.yield %y : i64
  }
  %r = async.await %w : !async.value<i64>
  return %r : i64
}
",
        func: 0,
        first: 0,
        blocks: 3,
        code: "^
arith.constant to 0
func.call to 1 2
async.runtime.add_ref 1 by 1
async.runtime.add_ref 2 by 1
func.call 1 2 0 to 3 4
async.runtime.drop_ref 1 by 1
async.runtime.drop_ref 2 by 1
async.runtime.drop_ref 3 by 1
async.runtime.await 4
async.runtime.is_error 4 to 5
cf.cond_br 5 ^2 ^1
^
async.runtime.load 4 to 6
async.runtime.drop_ref 4 by 1
func.return 6
^
async.runtime.drop_ref 4 by 1
arith.constant to 7
aio.fail 7
",
    },
    // a task drops each object that it was given, on every path
    Row {
        text: "func.func @main() -> i64 {
  %c0 = arith.constant 0 : i64
  %t, %v = async.execute -> !async.value<i64> {
    %x = arith.constant 7 : i64
    async.yield %x : i64
  }
  %u, %w = async.execute [%t] (%v as %y : !async.value<i64>) -> !async.value<i64> {
    %p = arith.cmpi sgt, %y, %c0 : i64
    cf.assert %p, \"not positive\"
    async.yield %y : i64
  }
  %r = async.await %w : !async.value<i64>
  return %r : i64
}
",
        func: 2,
        first: 0,
        blocks: 13,
        code: "^
async.runtime.create to 3
async.runtime.create to 4
async.coro.id to 5
async.coro.begin 5 to 6
async.coro.save 6 to 7
async.runtime.resume 6
async.coro.suspend 7 ^9 ^1 ^8
^
async.coro.save 6 to 8
async.runtime.await_and_resume 0 6
async.coro.suspend 8 ^9 ^2 ^8
^
async.runtime.is_error 0 to 9
async.runtime.drop_ref 0 by 1
cf.cond_br 9 ^10 ^3
^
async.coro.save 6 to 10
async.runtime.await_and_resume 1 6
async.coro.suspend 10 ^9 ^4 ^8
^
async.runtime.is_error 1 to 11
cf.cond_br 11 ^11 ^5
^
async.runtime.load 1 to 12
async.runtime.drop_ref 1 by 1
arith.cmpi 12 2 to 13
cf.cond_br 13 ^6 ^12
^
async.runtime.store 12 4
async.runtime.set_available 4
async.runtime.set_available 3
cf.br ^8
^
async.runtime.set_error 4
async.runtime.set_error 3
cf.br ^8
^
async.coro.free 5 6
async.coro.end 6
aio.finish
^
async.coro.end 6
func.return 3 4
^
async.runtime.drop_ref 1 by 1
cf.br ^7
^
async.runtime.drop_ref 1 by 1
cf.br ^7
^
cf.br ^7
",
    },
    // a token that is taken twice
    Row {
        text: "func.func @main() {
  %n = arith.constant 1 : index
  %g = async.create_group %n : !async.group
  %t = async.execute { async.yield }
  %u = async.execute [%t] {
    %r = async.add_to_group %t, %g : !async.token
    async.yield
  }
  async.await_all %g
  return
}
",
        func: 0,
        first: 1,
        blocks: 1,
        code: "^
async.runtime.create_group 0 to 3
func.call to 4
async.runtime.add_ref 3 by 1
async.runtime.add_ref 4 by 2
func.call 4 3 4 to 5
async.runtime.drop_ref 4 by 1
async.runtime.drop_ref 5 by 1
async.runtime.await 3
async.runtime.is_error 3 to 6
async.runtime.drop_ref 3 by 1
cf.cond_br 6 ^4 ^2
",
    },
    // its task
    Row {
        text: "func.func @main() {
  %n = arith.constant 1 : index
  %g = async.create_group %n : !async.group
  %t = async.execute { async.yield }
  %u = async.execute [%t] {
    %r = async.add_to_group %t, %g : !async.token
    async.yield
  }
  async.await_all %g
  return
}
",
        func: 2,
        first: 0,
        blocks: 8,
        code: "^
async.runtime.create to 3
async.coro.id to 4
async.coro.begin 4 to 5
async.coro.save 5 to 6
async.runtime.resume 5
async.coro.suspend 6 ^6 ^1 ^5
^
async.coro.save 5 to 7
async.runtime.await_and_resume 0 5
async.coro.suspend 7 ^6 ^2 ^5
^
async.runtime.is_error 0 to 8
async.runtime.drop_ref 0 by 1
cf.cond_br 8 ^7 ^3
^
async.runtime.add_to_group 2 1 to 9
async.runtime.drop_ref 1 by 1
async.runtime.drop_ref 2 by 1
async.runtime.set_available 3
cf.br ^5
^
async.runtime.set_error 3
cf.br ^5
^
async.coro.free 4 5
async.coro.end 5
aio.finish
^
async.coro.end 5
func.return 3
^
async.runtime.drop_ref 1 by 1
async.runtime.drop_ref 2 by 1
cf.br ^4
",
    },
    // a token that a loop carries
    Row {
        text: "func.func @main() {
  %c0 = arith.constant 0 : index
  %c1 = arith.constant 1 : index
  %c3 = arith.constant 3 : index
  %t = async.execute { async.yield }
  %l = scf.for %i = %c0 to %c3 step %c1 iter_args(%p = %t) -> (!async.token) {
    %q = async.execute [%p] { async.yield }
    scf.yield %q : !async.token
  }
  async.await %l : !async.token
  return
}
",
        func: 0,
        first: 6,
        blocks: 6,
        code: "^
async.runtime.add_ref 3 by 1
async.runtime.drop_ref 3 by 1
cf.br ^7 0 3
^ 13 14
arith.cmpi 13 2 to 15
cf.cond_br 15 ^8 ^9
^
async.runtime.add_ref 14 by 1
func.call 14 to 16
async.runtime.drop_ref 14 by 1
arith.addi 13 1 to 17
async.runtime.add_ref 16 by 1
async.runtime.drop_ref 16 by 1
cf.br ^7 17 16
^
async.runtime.await 14
async.runtime.is_error 14 to 18
async.runtime.drop_ref 14 by 1
cf.cond_br 18 ^17 ^10
^
func.return
^
async.runtime.drop_ref 3 by 1
arith.constant to 19
aio.fail 19
",
    },
    // a group
    Row {
        text: "func.func @main() {
  %n = arith.constant 2 : index
  %g = async.create_group %n : !async.group
  %t = async.execute { async.yield }
  %r = async.add_to_group %t, %g : !async.token
  %s = async.add_to_group %t, %g : !async.token
  async.await_all %g
  return
}
",
        func: 0,
        first: 0,
        blocks: 5,
        code: "^
arith.constant to 0
arith.constant to 1
arith.cmpi 0 1 to 2
cf.cond_br 2 ^1 ^3
^
async.runtime.create_group 0 to 3
func.call to 4
async.runtime.add_to_group 4 3 to 5
async.runtime.add_to_group 4 3 to 6
async.runtime.drop_ref 4 by 1
async.runtime.await 3
async.runtime.is_error 3 to 7
async.runtime.drop_ref 3 by 1
cf.cond_br 7 ^4 ^2
^
func.return
^
arith.constant to 8
aio.fail 8
^
arith.constant to 9
aio.fail 9
",
    },
    // a parameter that is not used
    Row {
        text: "func.func @g(%a: !async.token) { return }
func.func @main() {
  %t = async.execute { async.yield }
  func.call @g(%t) : (!async.token) -> ()
  return
}
",
        func: 0,
        first: 0,
        blocks: 1,
        code: "^
async.runtime.drop_ref 0 by 1
func.return
",
    },
    // a call that takes a token last
    Row {
        text: "func.func @g(%a: !async.token) { return }
func.func @main() {
  %t = async.execute { async.yield }
  func.call @g(%t) : (!async.token) -> ()
  return
}
",
        func: 1,
        first: 0,
        blocks: 3,
        code: "^
func.call to 0
async.runtime.add_ref 0 by 1
async.runtime.drop_ref 0 by 1
aio.call 0 ^1 ^2
^
func.return
^ 1
aio.fail 1
",
    },
    // a return takes one reference of each, and more where it names one twice
    Row {
        text: "func.func @twice(%t: !async.token, %u: !async.token) -> (!async.token, !async.token, !async.token) {
  return %t, %u, %t : !async.token, !async.token, !async.token
}
",
        func: 0,
        first: 0,
        blocks: 1,
        code: "^
async.runtime.add_ref 0 by 1
func.return 0 1 0
",
    },
];
