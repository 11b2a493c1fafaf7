//! Texts, and the texts of their modules with checks.

/// A text, and what is printed of its module with its checks.
pub const TEXTS: [(&str, &str); 14] = [
    (
        "func.func @q(%a: i8, %b: i8) -> i8 {
  %r = arith.divsi %a, %b : i8
  return %r : i8
}
",
        "func.func @q(%0 : i8, %1 : i8) -> i8 {
  %2 = arith.constant 0 : i8
  %3 = arith.cmpi ne, %1, %2 : i8 {aio.at = 2 : i64}
  %4 = arith.constant -128 : i8 {aio.at = 2 : i64}
  %5 = arith.cmpi ne, %0, %4 : i8 {aio.at = 2 : i64}
  %6 = arith.constant -1 : i8 {aio.at = 2 : i64}
  %7 = arith.cmpi ne, %1, %6 : i8 {aio.at = 2 : i64}
  %8 = arith.ori %5, %7 : i1 {aio.at = 2 : i64}
  %9 = arith.andi %3, %8 : i1 {aio.at = 2 : i64}
  cf.assert %9, \"division has no result\" {aio.at = 2 : i64}
  %10 = arith.divsi %0, %1 : i8 {aio.at = 2 : i64}
  func.return %10 : i8 {aio.at = 3 : i64}
}
",
    ),
    (
        "func.func @q(%a: i1, %b: i1) -> i1 {
  %r = arith.divsi %a, %b : i1
  return %r : i1
}
",
        "func.func @q(%0 : i1, %1 : i1) -> i1 {
  %2 = arith.constant false
  %3 = arith.cmpi ne, %1, %2 : i1 {aio.at = 2 : i64}
  %4 = arith.constant true {aio.at = 2 : i64}
  %5 = arith.cmpi ne, %0, %4 : i1 {aio.at = 2 : i64}
  %6 = arith.cmpi ne, %1, %4 : i1 {aio.at = 2 : i64}
  %7 = arith.ori %5, %6 : i1 {aio.at = 2 : i64}
  %8 = arith.andi %3, %7 : i1 {aio.at = 2 : i64}
  cf.assert %8, \"division has no result\" {aio.at = 2 : i64}
  %9 = arith.divsi %0, %1 : i1 {aio.at = 2 : i64}
  func.return %9 : i1 {aio.at = 3 : i64}
}
",
    ),
    (
        "func.func @s(%a: i8, %b: i8) -> i8 {
  %r = arith.shli %a, %b : i8
  %q = arith.remui %r, %b : i8
  return %q : i8
}
",
        "func.func @s(%0 : i8, %1 : i8) -> i8 {
  %2 = arith.constant 8 : i8
  %3 = arith.cmpi ult, %1, %2 : i8 {aio.at = 2 : i64}
  cf.assert %3, \"shift out of range\" {aio.at = 2 : i64}
  %4 = arith.shli %0, %1 : i8 {aio.at = 2 : i64}
  %5 = arith.constant 0 : i8 {aio.at = 3 : i64}
  %6 = arith.cmpi ne, %1, %5 : i8 {aio.at = 3 : i64}
  cf.assert %6, \"division has no result\" {aio.at = 3 : i64}
  %7 = arith.remui %4, %1 : i8 {aio.at = 3 : i64}
  func.return %7 : i8 {aio.at = 4 : i64}
}
",
    ),
    (
        "func.func @get(%m: memref<?x8xi64>, %i: index, %j: index) -> i64 {
  %x = memref.load %m[%i, %j] : memref<?x8xi64>
  return %x : i64
}
",
        "func.func @get(%0 : memref<?x8xi64>, %1 : index, %2 : index) -> i64 {
  %3 = arith.constant 0 : index
  %4 = memref.dim %0, %3 : memref<?x8xi64> {aio.at = 2 : i64}
  %5 = arith.cmpi ult, %1, %4 : index {aio.at = 2 : i64}
  cf.assert %5, \"index out of range\" {aio.at = 2 : i64}
  %6 = arith.constant 1 : index {aio.at = 2 : i64}
  %7 = memref.dim %0, %6 : memref<?x8xi64> {aio.at = 2 : i64}
  %8 = arith.cmpi ult, %2, %7 : index {aio.at = 2 : i64}
  cf.assert %8, \"index out of range\" {aio.at = 2 : i64}
  %9 = memref.load %0[%1, %2] : memref<?x8xi64> {aio.at = 2 : i64}
  func.return %9 : i64 {aio.at = 3 : i64}
}
",
    ),
    (
        "func.func @put(%m: memref<8xi64>, %d: index, %x: i64) {
  memref.store %x, %m[%d] : memref<8xi64>
  %n = memref.dim %m, %d : memref<8xi64>
  return
}
",
        "func.func @put(%0 : memref<8xi64>, %1 : index, %2 : i64) {
  %3 = arith.constant 0 : index
  %4 = memref.dim %0, %3 : memref<8xi64> {aio.at = 2 : i64}
  %5 = arith.cmpi ult, %1, %4 : index {aio.at = 2 : i64}
  cf.assert %5, \"index out of range\" {aio.at = 2 : i64}
  memref.store %2, %0[%1] : memref<8xi64> {aio.at = 2 : i64}
  %6 = arith.constant 1 : index {aio.at = 3 : i64}
  %7 = arith.cmpi ult, %1, %6 : index {aio.at = 3 : i64}
  cf.assert %7, \"index out of range\" {aio.at = 3 : i64}
  %8 = memref.dim %0, %1 : memref<8xi64> {aio.at = 3 : i64}
  func.return {aio.at = 4 : i64}
}
",
    ),
    (
        "func.func @main(%n: index) {
  %m = memref.alloc(%n) : memref<?xi64>
  return
}
",
        "func.func @main(%0 : index) {
  %1 = arith.constant 16777216 : index
  %2 = arith.cmpi ule, %0, %1 : index {aio.at = 2 : i64}
  cf.assert %2, \"allocation out of range\" {aio.at = 2 : i64}
  %3 = arith.cmpi ule, %0, %1 : index {aio.at = 2 : i64}
  cf.assert %3, \"allocation out of range\" {aio.at = 2 : i64}
  %4 = memref.alloc(%0) : memref<?xi64> {aio.at = 2 : i64}
  func.return {aio.at = 3 : i64}
}
",
    ),
    (
        "func.func @main(%n: index) {
  %m = memref.alloc(%n) : memref<4x?xi64>
  return
}
",
        "func.func @main(%0 : index) {
  %1 = arith.constant 16777216 : index
  %2 = arith.cmpi ule, %0, %1 : index {aio.at = 2 : i64}
  cf.assert %2, \"allocation out of range\" {aio.at = 2 : i64}
  %3 = arith.constant 4 : index {aio.at = 2 : i64}
  %4 = arith.cmpi ule, %3, %1 : index {aio.at = 2 : i64}
  cf.assert %4, \"allocation out of range\" {aio.at = 2 : i64}
  %5 = arith.muli %3, %0 : index {aio.at = 2 : i64}
  %6 = arith.cmpi ule, %5, %1 : index {aio.at = 2 : i64}
  cf.assert %6, \"allocation out of range\" {aio.at = 2 : i64}
  %7 = memref.alloc(%0) : memref<4x?xi64> {aio.at = 2 : i64}
  func.return {aio.at = 3 : i64}
}
",
    ),
    (
        "func.func @main(%l: index, %u: index, %s: index) -> i64 {
  %z = arith.constant 0 : i64
  %r = scf.for %i = %l to %u step %s iter_args(%p = %z) -> (i64) {
    %x = arith.index_cast %i : index to i64
    %y = arith.addi %p, %x : i64
    scf.yield %y : i64
  }
  return %r : i64
}
",
        "func.func @main(%0 : index, %1 : index, %2 : index) -> i64 {
  %3 = arith.constant 0 : i64
  %4 = arith.constant -4611686018427387904 : index
  %5 = arith.cmpi sge, %0, %4 : index {aio.at = 3 : i64}
  cf.assert %5, \"loop bounds out of range\" {aio.at = 3 : i64}
  %6 = arith.constant 4611686018427387904 : index {aio.at = 3 : i64}
  %7 = arith.cmpi sle, %0, %6 : index {aio.at = 3 : i64}
  cf.assert %7, \"loop bounds out of range\" {aio.at = 3 : i64}
  %8 = arith.cmpi sge, %1, %4 : index {aio.at = 3 : i64}
  cf.assert %8, \"loop bounds out of range\" {aio.at = 3 : i64}
  %9 = arith.cmpi sle, %1, %6 : index {aio.at = 3 : i64}
  cf.assert %9, \"loop bounds out of range\" {aio.at = 3 : i64}
  %10 = arith.constant 1 : index {aio.at = 3 : i64}
  %11 = arith.cmpi sge, %2, %10 : index {aio.at = 3 : i64}
  cf.assert %11, \"loop bounds out of range\" {aio.at = 3 : i64}
  %12 = arith.cmpi sle, %2, %6 : index {aio.at = 3 : i64}
  cf.assert %12, \"loop bounds out of range\" {aio.at = 3 : i64}
  %13 = scf.for %14 = %0 to %1 step %2 iter_args(%15 = %3) -> (i64) {
    %16 = arith.index_cast %14 : index to i64 {aio.at = 4 : i64}
    %17 = arith.addi %15, %16 : i64 {aio.at = 5 : i64}
    scf.yield %17 : i64 {aio.at = 6 : i64}
  } {aio.at = 3 : i64}
  func.return %13 : i64 {aio.at = 7 : i64}
}
",
    ),
    (
        "func.func @main(%l: index, %u: index, %s: index) {
  scf.parallel (%i) = (%l) to (%u) step (%s) {
  }
  return
}
",
        "func.func @main(%0 : index, %1 : index, %2 : index) {
  %3 = arith.constant -4611686018427387904 : index
  %4 = arith.cmpi sge, %0, %3 : index {aio.at = 2 : i64}
  cf.assert %4, \"parallel loop failed\" {aio.at = 2 : i64}
  %5 = arith.constant 4611686018427387904 : index {aio.at = 2 : i64}
  %6 = arith.cmpi sle, %0, %5 : index {aio.at = 2 : i64}
  cf.assert %6, \"parallel loop failed\" {aio.at = 2 : i64}
  %7 = arith.cmpi sge, %1, %3 : index {aio.at = 2 : i64}
  cf.assert %7, \"parallel loop failed\" {aio.at = 2 : i64}
  %8 = arith.cmpi sle, %1, %5 : index {aio.at = 2 : i64}
  cf.assert %8, \"parallel loop failed\" {aio.at = 2 : i64}
  %9 = arith.constant 1 : index {aio.at = 2 : i64}
  %10 = arith.cmpi sge, %2, %9 : index {aio.at = 2 : i64}
  cf.assert %10, \"parallel loop failed\" {aio.at = 2 : i64}
  %11 = arith.cmpi sle, %2, %5 : index {aio.at = 2 : i64}
  cf.assert %11, \"parallel loop failed\" {aio.at = 2 : i64}
  %12 = arith.cmpi sle, %1, %0 : index {aio.at = 2 : i64}
  %13 = scf.if %12 -> index {
    %14 = arith.constant 0 : index {aio.at = 2 : i64}
    scf.yield %14 : index {aio.at = 2 : i64}
  } else {
    %15 = arith.subi %1, %0 : index {aio.at = 2 : i64}
    %16 = arith.subi %15, %9 : index {aio.at = 2 : i64}
    %17 = arith.divui %16, %2 : index {aio.at = 2 : i64}
    %18 = arith.addi %17, %9 : index {aio.at = 2 : i64}
    scf.yield %18 : index {aio.at = 2 : i64}
  } {aio.at = 2 : i64}
  %19 = arith.constant 2147483648 : index {aio.at = 2 : i64}
  %20 = arith.cmpi ule, %13, %19 : index {aio.at = 2 : i64}
  cf.assert %20, \"parallel loop failed\" {aio.at = 2 : i64}
  %21 = arith.cmpi ule, %13, %19 : index {aio.at = 2 : i64}
  cf.assert %21, \"parallel loop failed\" {aio.at = 2 : i64}
  scf.parallel (%22) = (%0) to (%1) step (%2) {
    scf.reduce {aio.at = 3 : i64}
  } {aio.at = 2 : i64}
  func.return {aio.at = 4 : i64}
}
",
    ),
    (
        "func.func @main(%u: index, %v: index) {
  %c0 = arith.constant 0 : index
  %c1 = arith.constant 1 : index
  scf.parallel (%i, %j) = (%c0, %c0) to (%u, %v) step (%c1, %c1) {
  }
  return
}
",
        "func.func @main(%0 : index, %1 : index) {
  %2 = arith.constant 0 : index
  %3 = arith.constant 1 : index
  %4 = arith.constant -4611686018427387904 : index
  %5 = arith.cmpi sge, %2, %4 : index {aio.at = 4 : i64}
  cf.assert %5, \"parallel loop failed\" {aio.at = 4 : i64}
  %6 = arith.constant 4611686018427387904 : index {aio.at = 4 : i64}
  %7 = arith.cmpi sle, %2, %6 : index {aio.at = 4 : i64}
  cf.assert %7, \"parallel loop failed\" {aio.at = 4 : i64}
  %8 = arith.cmpi sge, %0, %4 : index {aio.at = 4 : i64}
  cf.assert %8, \"parallel loop failed\" {aio.at = 4 : i64}
  %9 = arith.cmpi sle, %0, %6 : index {aio.at = 4 : i64}
  cf.assert %9, \"parallel loop failed\" {aio.at = 4 : i64}
  %10 = arith.constant 1 : index {aio.at = 4 : i64}
  %11 = arith.cmpi sge, %3, %10 : index {aio.at = 4 : i64}
  cf.assert %11, \"parallel loop failed\" {aio.at = 4 : i64}
  %12 = arith.cmpi sle, %3, %6 : index {aio.at = 4 : i64}
  cf.assert %12, \"parallel loop failed\" {aio.at = 4 : i64}
  %13 = arith.cmpi sge, %2, %4 : index {aio.at = 4 : i64}
  cf.assert %13, \"parallel loop failed\" {aio.at = 4 : i64}
  %14 = arith.cmpi sle, %2, %6 : index {aio.at = 4 : i64}
  cf.assert %14, \"parallel loop failed\" {aio.at = 4 : i64}
  %15 = arith.cmpi sge, %1, %4 : index {aio.at = 4 : i64}
  cf.assert %15, \"parallel loop failed\" {aio.at = 4 : i64}
  %16 = arith.cmpi sle, %1, %6 : index {aio.at = 4 : i64}
  cf.assert %16, \"parallel loop failed\" {aio.at = 4 : i64}
  %17 = arith.cmpi sge, %3, %10 : index {aio.at = 4 : i64}
  cf.assert %17, \"parallel loop failed\" {aio.at = 4 : i64}
  %18 = arith.cmpi sle, %3, %6 : index {aio.at = 4 : i64}
  cf.assert %18, \"parallel loop failed\" {aio.at = 4 : i64}
  %19 = arith.cmpi sle, %0, %2 : index {aio.at = 4 : i64}
  %20 = scf.if %19 -> index {
    %21 = arith.constant 0 : index {aio.at = 4 : i64}
    scf.yield %21 : index {aio.at = 4 : i64}
  } else {
    %22 = arith.subi %0, %2 : index {aio.at = 4 : i64}
    %23 = arith.subi %22, %10 : index {aio.at = 4 : i64}
    %24 = arith.divui %23, %3 : index {aio.at = 4 : i64}
    %25 = arith.addi %24, %10 : index {aio.at = 4 : i64}
    scf.yield %25 : index {aio.at = 4 : i64}
  } {aio.at = 4 : i64}
  %26 = arith.constant 2147483648 : index {aio.at = 4 : i64}
  %27 = arith.cmpi ule, %20, %26 : index {aio.at = 4 : i64}
  cf.assert %27, \"parallel loop failed\" {aio.at = 4 : i64}
  %28 = arith.cmpi sle, %1, %2 : index {aio.at = 4 : i64}
  %29 = scf.if %28 -> index {
    %30 = arith.constant 0 : index {aio.at = 4 : i64}
    scf.yield %30 : index {aio.at = 4 : i64}
  } else {
    %31 = arith.subi %1, %2 : index {aio.at = 4 : i64}
    %32 = arith.subi %31, %10 : index {aio.at = 4 : i64}
    %33 = arith.divui %32, %3 : index {aio.at = 4 : i64}
    %34 = arith.addi %33, %10 : index {aio.at = 4 : i64}
    scf.yield %34 : index {aio.at = 4 : i64}
  } {aio.at = 4 : i64}
  %35 = arith.cmpi ule, %29, %26 : index {aio.at = 4 : i64}
  cf.assert %35, \"parallel loop failed\" {aio.at = 4 : i64}
  %36 = arith.cmpi ule, %20, %26 : index {aio.at = 4 : i64}
  cf.assert %36, \"parallel loop failed\" {aio.at = 4 : i64}
  %37 = arith.muli %20, %29 : index {aio.at = 4 : i64}
  %38 = arith.cmpi ule, %37, %26 : index {aio.at = 4 : i64}
  cf.assert %38, \"parallel loop failed\" {aio.at = 4 : i64}
  scf.parallel (%39, %40) = (%2, %2) to (%0, %1) step (%3, %3) {
    scf.reduce {aio.at = 5 : i64}
  } {aio.at = 4 : i64}
  func.return {aio.at = 6 : i64}
}
",
    ),
    (
        "func.func @main(%n: index) {
  %g = async.create_group %n : !async.group
  return
}
",
        "func.func @main(%0 : index) {
  %1 = arith.constant 2147483648 : index
  %2 = arith.cmpi ule, %0, %1 : index {aio.at = 2 : i64}
  cf.assert %2, \"group size out of range\" {aio.at = 2 : i64}
  %3 = async.create_group %0 : !async.group {aio.at = 2 : i64}
  func.return {aio.at = 3 : i64}
}
",
    ),
    (
        "func.func @f(%a: i64, %b: i64, %c: i1) -> i64 {
  %r = scf.if %c -> i64 {
    %x = arith.divui %a, %b : i64
    scf.yield %x : i64
  } else {
    %y = arith.remsi %a, %b : i64
    scf.yield %y : i64
  }
  %s = arith.shrsi %r, %b : i64
  %t = arith.shrui %s, %a : i64
  return %t : i64
}
",
        "func.func @f(%0 : i64, %1 : i64, %2 : i1) -> i64 {
  %3 = scf.if %2 -> i64 {
    %4 = arith.constant 0 : i64
    %5 = arith.cmpi ne, %1, %4 : i64 {aio.at = 3 : i64}
    cf.assert %5, \"division has no result\" {aio.at = 3 : i64}
    %6 = arith.divui %0, %1 : i64 {aio.at = 3 : i64}
    scf.yield %6 : i64 {aio.at = 4 : i64}
  } else {
    %7 = arith.constant 0 : i64 {aio.at = 5 : i64}
    %8 = arith.cmpi ne, %1, %7 : i64 {aio.at = 5 : i64}
    cf.assert %8, \"division has no result\" {aio.at = 5 : i64}
    %9 = arith.remsi %0, %1 : i64 {aio.at = 5 : i64}
    scf.yield %9 : i64 {aio.at = 6 : i64}
  }
  %10 = arith.constant 64 : i64 {aio.at = 7 : i64}
  %11 = arith.cmpi ult, %1, %10 : i64 {aio.at = 7 : i64}
  cf.assert %11, \"shift out of range\" {aio.at = 7 : i64}
  %12 = arith.shrsi %3, %1 : i64 {aio.at = 7 : i64}
  %13 = arith.constant 64 : i64 {aio.at = 8 : i64}
  %14 = arith.cmpi ult, %0, %13 : i64 {aio.at = 8 : i64}
  cf.assert %14, \"shift out of range\" {aio.at = 8 : i64}
  %15 = arith.shrui %12, %0 : i64 {aio.at = 8 : i64}
  func.return %15 : i64 {aio.at = 9 : i64}
}
",
    ),
    (
        "func.func @main() {
  %m = memref.alloc() : memref<2x3xi8>
  %z = memref.alloc() : memref<i8>
  %x = memref.load %z[] : memref<i8>
  return
}
",
        "func.func @main() {
  %0 = arith.constant 2 : index
  %1 = arith.constant 16777216 : index {aio.at = 2 : i64}
  %2 = arith.cmpi ule, %0, %1 : index {aio.at = 2 : i64}
  cf.assert %2, \"allocation out of range\" {aio.at = 2 : i64}
  %3 = arith.constant 3 : index {aio.at = 2 : i64}
  %4 = arith.muli %0, %3 : index {aio.at = 2 : i64}
  %5 = arith.cmpi ule, %4, %1 : index {aio.at = 2 : i64}
  cf.assert %5, \"allocation out of range\" {aio.at = 2 : i64}
  %6 = memref.alloc() : memref<2x3xi8> {aio.at = 2 : i64}
  %7 = memref.alloc() : memref<i8> {aio.at = 3 : i64}
  %8 = memref.load %7[] : memref<i8> {aio.at = 4 : i64}
  func.return {aio.at = 5 : i64}
}
",
    ),
    (
        "func.func @g(%a: i32) -> i32 {
  return %a : i32
}
func.func @main(%a: i16, %b: i16) -> i16 {
  %t, %v = async.execute -> !async.value<i16> {
    %q = arith.divsi %a, %b : i16
    async.yield %q : i16
  }
  %r = async.await %v : !async.value<i16>
  return %r : i16
}
",
        "func.func @g(%0 : i32) -> i32 {
  func.return %0 : i32
}
func.func @main(%0 : i16, %1 : i16) -> i16 {
  %2, %3 = async.execute -> !async.value<i16> {
    %4 = arith.constant 0 : i16
    %5 = arith.cmpi ne, %1, %4 : i16 {aio.at = 5 : i64}
    %6 = arith.constant -32768 : i16 {aio.at = 5 : i64}
    %7 = arith.cmpi ne, %0, %6 : i16 {aio.at = 5 : i64}
    %8 = arith.constant -1 : i16 {aio.at = 5 : i64}
    %9 = arith.cmpi ne, %1, %8 : i16 {aio.at = 5 : i64}
    %10 = arith.ori %7, %9 : i1 {aio.at = 5 : i64}
    %11 = arith.andi %5, %10 : i1 {aio.at = 5 : i64}
    cf.assert %11, \"division has no result\" {aio.at = 5 : i64}
    %12 = arith.divsi %0, %1 : i16 {aio.at = 5 : i64}
    async.yield %12 : i16 {aio.at = 6 : i64}
  }
  %13 = async.await %3 : !async.value<i16> {aio.at = 7 : i64}
  func.return %13 : i16 {aio.at = 8 : i64}
}
",
    ),
];
