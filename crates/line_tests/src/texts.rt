//! Texts without parallel loops, and texts with some.

/// A text, and how many functions its code has: its own, those of its tasks, and those of its loops.
pub const TEXTS: [(&str, usize); 27] = [
    // a sum
    (
        "func.func @main() -> i64 {
  %a = arith.constant 40 : i64
  %b = arith.constant 2 : i64
  %c = arith.addi %a, %b : i64
  return %c : i64
}
",
        1,
    ),
    // a task that gives a value
    (
        "func.func @main() -> i64 {
  %t, %v = async.execute -> !async.value<i64> {
    %c = arith.constant 7 : i64
    async.yield %c : i64
  }
  %r = async.await %v : !async.value<i64>
  return %r : i64
}
",
        2,
    ),
    // a task that fails and is awaited
    (
        "func.func @main() {
  %t = async.execute {
    %f = arith.constant false
    cf.assert %f, \"no\"
    async.yield
  }
  async.await %t : !async.token
  return
}
",
        2,
    ),
    // tasks behind tasks, one of which fails
    (
        "func.func @main(%m: memref<1xi64>) {
  %c0 = arith.constant 0 : index
  %c5 = arith.constant 5 : i64
  %t = async.execute { %f = arith.constant false cf.assert %f, \"no\" async.yield }
  %u = async.execute { async.yield }
  %w = async.execute [%t, %u] { memref.store %c5, %m[%c0] : memref<1xi64> async.yield }
  async.await %u : !async.token
  return
}
",
        4,
    ),
    // an empty group
    (
        "func.func @main() { %z = arith.constant 0 : index %g = async.create_group %z : !async.group async.await_all %g return }",
        1,
    ),
    // a group with one element
    (
        "func.func @main() {
  %n = arith.constant 2 : index
  %g = async.create_group %n : !async.group
  %t = async.execute { async.yield }
  %r = async.add_to_group %t, %g : !async.token
  async.await_all %g
  return
}
",
        2,
    ),
    // a group that is too full
    (
        "func.func @main() {
  %n = arith.constant 2 : index
  %g = async.create_group %n : !async.group
  %t = async.execute { async.yield }
  %r = async.add_to_group %t, %g : !async.token
  %s = async.add_to_group %t, %g : !async.token
  %q = async.add_to_group %t, %g : !async.token
  async.await_all %g
  return
}
",
        2,
    ),
    // two tasks on one buffer
    (
        "func.func @main(%m: memref<1xi64>) {
  %c0 = arith.constant 0 : index
  %c1 = arith.constant 1 : i64
  %c2 = arith.constant 2 : i64
  %t = async.execute { memref.store %c1, %m[%c0] : memref<1xi64> async.yield }
  %u = async.execute { memref.store %c2, %m[%c0] : memref<1xi64> async.yield }
  async.await %t : !async.token
  async.await %u : !async.token
  return
}
",
        3,
    ),
    // one behind the other
    (
        "func.func @main(%m: memref<1xi64>) {
  %c0 = arith.constant 0 : index
  %c1 = arith.constant 1 : i64
  %c2 = arith.constant 2 : i64
  %t = async.execute { memref.store %c1, %m[%c0] : memref<1xi64> async.yield }
  %u = async.execute [%t] { memref.store %c2, %m[%c0] : memref<1xi64> async.yield }
  async.await %t : !async.token
  async.await %u : !async.token
  return
}
",
        3,
    ),
    // a task that calls a function that may fail
    (
        "func.func @q(%a: i64, %b: i64) -> i64 {
  %r = arith.divsi %a, %b : i64
  return %r : i64
}
func.func @main(%a: i64, %b: i64) {
  %t = async.execute {
    %r = func.call @q(%a, %b) : (i64, i64) -> i64
    async.yield
  }
  async.await %t : !async.token
  return
}
",
        3,
    ),
    // a token twice in a call, and through a loop
    (
        "func.func @f(%a: !async.token, %b: !async.token) {
  async.await %a : !async.token
  return
}
func.func @main() {
  %c0 = arith.constant 0 : index
  %c1 = arith.constant 1 : index
  %c3 = arith.constant 3 : index
  %t = async.execute { async.yield }
  func.call @f(%t, %t) : (!async.token, !async.token) -> ()
  %l = scf.for %i = %c0 to %c3 step %c1 iter_args(%p = %t) -> (!async.token) {
    scf.yield %p : !async.token
  }
  async.await %l : !async.token
  return
}
",
        3,
    ),
    // large buffers
    (
        "func.func @main() { %n = arith.constant 16777216 : index %a = memref.alloc(%n) : memref<?xi64> %b = memref.alloc(%n) : memref<?xi64> return }",
        1,
    ),
    // a call of itself
    (
        "func.func @main() { func.call @main() : () -> () return }",
        1,
    ),
    // a task that nothing awaits
    (
        "func.func @main() { %t = async.execute { async.yield } return }",
        2,
    ),
    // a token that nothing uses
    (
        "func.func @g(%a: !async.token) { return }
func.func @main() {
  %t = async.execute { async.yield }
  func.call @g(%t) : (!async.token) -> ()
  return
}
",
        3,
    ),
    // no function
    ("", 0),
    // a while loop with a choice and divisions
    (
        "func.func @collatz(%n: i64) -> (i64, i64) {
  %zero = arith.constant 0 : i64
  %one = arith.constant 1 : i64
  %two = arith.constant 2 : i64
  %three = arith.constant 3 : i64
  %r:2 = scf.while (%x = %n, %turns = %zero) : (i64, i64) -> (i64, i64) {
    %more = arith.cmpi ne, %x, %one : i64
    scf.condition(%more) %x, %turns : i64, i64
  } do {
  ^bb0(%y: i64, %t: i64):
    %odd = arith.remui %y, %two : i64
    %is_odd = arith.cmpi eq, %odd, %one : i64
    %next = scf.if %is_odd -> (i64) {
      %p = arith.muli %y, %three : i64
      %q = arith.addi %p, %one : i64
      scf.yield %q : i64
    } else {
      %h = arith.divui %y, %two : i64
      scf.yield %h : i64
    }
    %t1 = arith.addi %t, %one : i64
    scf.yield %next, %t1 : i64, i64
  }
  return %r#0, %r#1 : i64, i64
}
",
        1,
    ),
    // a chain of tasks in a group, made in a loop
    (
        "func.func @main(%n: index, %m: memref<?xi64>) -> i64 {
  %c0 = arith.constant 0 : index
  %c1 = arith.constant 1 : index
  %z = arith.constant 0 : i64
  %g = async.create_group %n : !async.group
  %last = async.execute {
    async.yield
  }
  %chain = scf.for %i = %c0 to %n step %c1 iter_args(%before = %last) -> (!async.token) {
    %t, %v = async.execute [%before] -> !async.value<i64> {
      %x = memref.load %m[%i] : memref<?xi64>
      %y = arith.muli %x, %x : i64
      memref.store %y, %m[%i] : memref<?xi64>
      async.yield %y : i64
    }
    %rank = async.add_to_group %t, %g : !async.token
    scf.yield %t : !async.token
  }
  async.await_all %g
  %sum = scf.for %i = %c0 to %n step %c1 iter_args(%acc = %z) -> (i64) {
    %x = memref.load %m[%i] : memref<?xi64>
    %s = arith.addi %acc, %x : i64
    scf.yield %s : i64
  }
  return %sum : i64
}
",
        3,
    ),
    // a task in a task, and one on the values of another
    (
        "func.func @main(%a: i64, %b: i64, %c: i1) -> i64 {
  %t, %v, %w = async.execute -> (!async.value<i64>, !async.value<index>) {
    %u, %x = async.execute -> !async.value<i64> {
      %s = arith.addi %a, %b : i64
      async.yield %s : i64
    }
    %y = async.await %x : !async.value<i64>
    %z = scf.if %c -> (i64) {
      %q = arith.divsi %y, %b : i64
      scf.yield %q : i64
    } else {
      cf.assert %c, \"not so\"
      scf.yield %a : i64
    }
    %i = arith.index_cast %z : i64 to index
    async.yield %z, %i : i64, index
  }
  %p, %r = async.execute [%t] (%v as %k: !async.value<i64>, %w as %l: !async.value<index>) -> !async.value<i64> {
    %m = arith.index_cast %l : index to i64
    %n = arith.addi %k, %m : i64
    async.yield %n : i64
  }
  %d = async.await %r : !async.value<i64>
  return %d : i64
}
",
        4,
    ),
    // buffers in loops, tasks and calls
    (
        "func.func @part(%m: memref<?x4xi32>, %i: index) -> (memref<?x4xi32>, i32) {
  %c3 = arith.constant 3 : index
  %x = memref.load %m[%i, %c3] : memref<?x4xi32>
  return %m, %x : memref<?x4xi32>, i32
}
func.func @main(%n: index) -> i32 {
  %m = memref.alloc(%n) : memref<?x4xi32>
  %c0 = arith.constant 0 : index
  %c1 = arith.constant 1 : index
  %k = arith.constant -7 : i32
  scf.for %i = %c0 to %n step %c1 {
    scf.for %j = %c0 to %n step %c1 {
      memref.store %k, %m[%i, %j] : memref<?x4xi32>
    }
  }
  %t, %v = async.execute -> !async.value<memref<?x4xi32>> {
    %r:2 = func.call @part(%m, %c0) : (memref<?x4xi32>, index) -> (memref<?x4xi32>, i32)
    %o = arith.shli %r#1, %k : i32
    memref.store %o, %m[%c0, %c1] : memref<?x4xi32>
    async.yield %r#0 : memref<?x4xi32>
  }
  %b = async.await %v : !async.value<memref<?x4xi32>>
  %d = memref.dim %b, %c0 : memref<?x4xi32>
  %e = arith.subi %d, %c1 : index
  %s:2 = func.call @part(%b, %e) : (memref<?x4xi32>, index) -> (memref<?x4xi32>, i32)
  %l = arith.extsi %s#1 : i32 to i64
  %w = arith.trunci %l : i64 to i32
  memref.dealloc %m : memref<?x4xi32>
  return %w : i32
}
",
        3,
    ),
    // an endless loop that launches, and a function that waits
    (
        "func.func @wait(%t: !async.token, %v: !async.value<i8>) -> i8 {
  async.await %t : !async.token
  %x = async.await %v : !async.value<i8>
  return %x : i8
}
func.func @main(%c: i1) -> i8 {
  %t, %v = async.execute -> !async.value<i8> {
    %x = arith.constant 5 : i8
    async.yield %x : i8
  }
  scf.while : () -> () {
    scf.condition(%c)
  } do {
    %u = async.execute [%t] (%v as %w: !async.value<i8>) {
      %y = arith.divui %w, %w : i8
      async.yield
    }
    %failed = arith.constant false
    scf.if %failed {
      async.await %u : !async.token
    }
    scf.yield
  }
  %r = func.call @wait(%t, %v) : (!async.token, !async.value<i8>) -> i8
  return %r : i8
}
",
        4,
    ),
    // a function with the name of a task
    (
        "func.func @aio.task.0(%a: i64) -> i64 {
  return %a : i64
}
func.func @main() -> i64 {
  %seven = arith.constant 7 : i64
  %t, %v = async.execute -> !async.value<i64> {
    %x = func.call @aio.task.0(%seven) : (i64) -> i64
    async.yield %x : i64
  }
  %r = async.await %v : !async.value<i64>
  return %r : i64
}
",
        3,
    ),
    // parallel loops: beside each that is split stand four functions, beside a serial one its body
    (
        "func.func @main(%m: memref<10xindex>) {
  %c0 = arith.constant 0 : index
  %c1 = arith.constant 1 : index
  %c10 = arith.constant 10 : index
  scf.parallel (%i) = (%c0) to (%c10) step (%c1) {
    memref.store %i, %m[%i] : memref<10xindex>
    scf.reduce
  }
  return
}
",
        5,
    ),
    (
        "func.func @main() { %z = arith.constant 0 : index %s = arith.constant 1 : index scf.parallel (%i) = (%z) to (%z) step (%s) { scf.reduce } return }",
        5,
    ),
    (
        "// C = A * B
module attributes {my.tag = \"x\"} {
  func.func @main(%A: memref<2x2xi64>, %B: memref<2x2xi64>, %C: memref<2x2xi64>) {
    %c0 = arith.constant 0 : index
    %c1 = arith.constant 1 : index
    %d = memref.dim %A, %c0 : memref<2x2xi64>
    scf.parallel (%i, %j) = (%c0, %c0) to (%d, %d) step (%c1, %c1) {
      %z = arith.constant 0 : i64
      %s = scf.for %k = %c0 to %d step %c1 iter_args(%acc = %z) -> (i64) {
        %a = memref.load %A[%i, %k] : memref<2x2xi64>
        %b = memref.load %B[%k, %j] : memref<2x2xi64>
        %p = arith.muli %a, %b : i64
        %n = arith.addi %acc, %p : i64
        scf.yield %n : i64
      }
      memref.store %s, %C[%i, %j] : memref<2x2xi64>
      scf.reduce
    }
    return
  }
}
",
        5,
    ),
    (
        "func.func @first(%c: i1) {
  scf.if %c {
    %t = async.execute {
      %z = arith.constant 0 : index
      %s = arith.constant 1 : index
      scf.for %i = %z to %z step %s {
        scf.parallel (%j) = (%z) to (%i) step (%s) {
          scf.parallel (%k) = (%z) to (%j) step (%s) {
            scf.reduce
          }
          scf.reduce
        }
      }
      async.yield
    }
  }
  return
}
func.func @second(%n: index) {
  scf.parallel (%i) = (%n) to (%n) step (%n) {
    scf.reduce
  }
  return
}
",
        12,
    ),
    (
        "func.func @first() {
  return
}
func.func @second(%n: index) {
  scf.parallel (%i) = (%n) to (%n) step (%n) {
    scf.reduce
  }
  return
}
",
        6,
    ),
];
