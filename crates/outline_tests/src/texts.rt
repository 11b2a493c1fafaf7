//! Texts, and what is made of their modules.

/// A text, what is printed of its module once its tasks are functions, and the launches of that module with their
/// arguments: a launch is printed without the function that it names, and without the values that its task captures.
pub const TEXTS: [(&str, &str, &str); 3] = [
    (
        "func.func @main() -> i64 {
  %c0 = arith.constant 0 : i64
  %t, %v = async.execute -> !async.value<i64> {
    %x = arith.constant 7 : i64
    async.yield %x : i64
  }
  %u, %w = async.execute [%t] (%v as %y : !async.value<i64>) -> !async.value<i64> {
    %p = arith.cmpi sgt, %y, %c0 : i64
    cf.assert %p, \"not positive\"
    async.yield %y : i64
  }
  %r = async.await %w : !async.value<i64>
  return %r : i64
}
",
        "func.func @main() -> i64 {
  %0 = arith.constant 0 : i64
  %1, %2 = async.execute -> !async.value<i64>
  %4, %5 = async.execute [%1] -> !async.value<i64> {aio.at = 6 : i64}
  %8 = async.await %5 : !async.value<i64> {aio.at = 10 : i64}
  func.return %8 : i64 {aio.at = 11 : i64}
}
func.func @aio.task.0() -> i64 attributes {aio.at = 3 : i64} {
  %3 = arith.constant 7 : i64 {aio.at = 4 : i64}
  async.yield %3 : i64 {aio.at = 5 : i64}
}
func.func @aio.task.1(%9 : !async.token, %10 : !async.value<i64>, %0 : i64) -> i64 attributes {aio.at = 6 : i64} {
  async.await %9 : !async.token {aio.at = 6 : i64}
  %6 = async.await %10 : !async.value<i64> {aio.at = 6 : i64}
  %7 = arith.cmpi sgt, %6, %0 : i64 {aio.at = 7 : i64}
  cf.assert %7, \"not positive\" {aio.at = 8 : i64}
  async.yield %6 : i64 {aio.at = 9 : i64}
}
",
        "aio.task.0
aio.task.1 1 2 0
",
    ),
    (
        "func.func @main() {
  %n = arith.constant 1 : index
  %g = async.create_group %n : !async.group
  %t = async.execute { async.yield }
  %u = async.execute [%t] {
    %r = async.add_to_group %t, %g : !async.token
    async.yield
  }
  async.await_all %g
  return
}
",
        "func.func @main() {
  %0 = arith.constant 1 : index
  %1 = async.create_group %0 : !async.group
  %2 = async.execute
  %3 = async.execute [%2] {aio.at = 6 : i64}
  async.await_all %1 {aio.at = 9 : i64}
  func.return {aio.at = 10 : i64}
}
func.func @aio.task.0() attributes {aio.at = 4 : i64} {
  async.yield {aio.at = 5 : i64}
}
func.func @aio.task.1(%5 : !async.token, %1 : !async.group, %2 : !async.token) attributes {aio.at = 6 : i64} {
  async.await %5 : !async.token {aio.at = 6 : i64}
  %4 = async.add_to_group %2, %1 : !async.token {aio.at = 7 : i64}
  async.yield {aio.at = 8 : i64}
}
",
        "aio.task.0
aio.task.1 2 1 2
",
    ),
    (
        "func.func @main(%n: index) {
  %c0 = arith.constant 0 : index
  %c1 = arith.constant 1 : index
  scf.for %i = %c0 to %n step %c1 {
    %t = async.execute {
      %u = async.execute {
        %a = arith.addi %i, %c1 : index
        async.yield
      }
      %w = async.execute [%u, %u] {
        async.yield
      }
      async.yield
    }
  }
  return
}
func.func @aio.task.0() {
  %t = async.execute { async.yield }
  return
}
",
        "func.func @main(%0 : index) {
  %1 = arith.constant 0 : index
  %2 = arith.constant 1 : index
  scf.for %3 = %1 to %0 step %2 {
    %4 = async.execute
    scf.yield {aio.at = 12 : i64}
  }
  func.return {aio.at = 13 : i64}
}
func.func @aio.task.0() attributes {aio.at = 14 : i64} {
  %0 = async.execute {aio.at = 15 : i64}
  func.return {aio.at = 17 : i64}
}
func.func @aio.task.0_(%2 : index, %3 : index) attributes {aio.at = 5 : i64} {
  %5 = async.execute {aio.at = 6 : i64}
  %7 = async.execute [%5, %5] {aio.at = 9 : i64}
  async.yield {aio.at = 11 : i64}
}
func.func @aio.task.1(%2 : index, %3 : index) attributes {aio.at = 6 : i64} {
  %6 = arith.addi %3, %2 : index {aio.at = 7 : i64}
  async.yield {aio.at = 8 : i64}
}
func.func @aio.task.2(%8 : !async.token, %9 : !async.token) attributes {aio.at = 9 : i64} {
  async.await %8 : !async.token {aio.at = 9 : i64}
  async.await %9 : !async.token {aio.at = 9 : i64}
  async.yield {aio.at = 10 : i64}
}
func.func @aio.task.3() attributes {aio.at = 15 : i64} {
  async.yield {aio.at = 16 : i64}
}
",
        "aio.task.0_ 2 3
aio.task.3
aio.task.1 2 3
aio.task.2 5 5
",
    ),
];
