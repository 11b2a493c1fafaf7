//! Printed texts: each form of one line, and real modules.

/// Arithmetic, comparisons, choices, casts, constants, buffers without their cells, and an assertion.
pub const FORMS: &str = "func.func @forms(%0 : i64, %1 : i8, %2 : index, %3 : i1) {
  %4 = arith.addi %0, %0 : i64
  %5 = arith.subi %0, %0 : i64
  %6 = arith.muli %0, %0 : i64
  %7 = arith.divsi %0, %0 : i64
  %8 = arith.divui %0, %0 : i64
  %9 = arith.remsi %0, %0 : i64
  %10 = arith.remui %0, %0 : i64
  %11 = arith.andi %0, %0 : i64
  %12 = arith.ori %0, %0 : i64
  %13 = arith.xori %0, %0 : i64
  %14 = arith.shli %0, %0 : i64
  %15 = arith.shrsi %0, %0 : i64
  %16 = arith.shrui %0, %0 : i64
  %17 = arith.maxsi %0, %0 : i64
  %18 = arith.minsi %0, %0 : i64
  %19 = arith.maxui %0, %0 : i64
  %20 = arith.minui %0, %0 : i64
  %21 = arith.cmpi eq, %1, %1 : i8
  %22 = arith.cmpi ne, %1, %1 : i8
  %23 = arith.cmpi slt, %1, %1 : i8
  %24 = arith.cmpi sle, %1, %1 : i8
  %25 = arith.cmpi sgt, %1, %1 : i8
  %26 = arith.cmpi sge, %1, %1 : i8
  %27 = arith.cmpi ult, %1, %1 : i8
  %28 = arith.cmpi ule, %1, %1 : i8
  %29 = arith.cmpi ugt, %1, %1 : i8
  %30 = arith.cmpi uge, %1, %1 : i8
  %31 = arith.select %3, %2, %2 : index
  %32 = arith.extsi %1 : i8 to i64
  %33 = arith.extui %1 : i8 to i16
  %34 = arith.trunci %0 : i64 to i32
  %35 = arith.index_cast %0 : i64 to index
  %36 = arith.index_castui %2 : index to i8
  %37 = arith.constant true
  %38 = arith.constant -0 : i8
  %39 = arith.constant 18446744073709551615 : i64
  %40 = memref.alloc(%2, %2) : memref<?x2x?xi1>
  memref.dealloc %40 : memref<?x2x?xi1>
  %41 = memref.alloc() : memref<index>
  memref.store %2, %41[] : memref<index>
  cf.assert %3, \"a \\\"quote\\\" and a \\0A\"
  func.return
}
";

/// Tasks that await others and give values, groups, and regions that give several values.
pub const TASKS: &str =
    "func.func @tasks(%0 : !async.token, %1 : !async.value<memref<4xi64>>, %2 : index, %3 : i1) -> (i64, !async.group) {
  %4, %5 = async.execute -> !async.value<i64> {
    %6 = arith.constant 7 : i64
    async.yield %6 : i64
  }
  %7, %8, %9 = async.execute [%0, %4] (%5 as %10 : !async.value<i64>, %1 as %11 : !async.value<memref<4xi64>>) -> (!async.value<i64>, !async.value<memref<4xi64>>) {
    async.yield %10, %11 : i64, memref<4xi64>
  }
  %12 = async.await %8 : !async.value<i64>
  async.await %7 : !async.token
  %13, %14 = scf.if %3 -> (i64, index) {
    scf.yield %12, %2 : i64, index
  } else {
    scf.yield %12, %2 : i64, index
  }
  %15, %16 = scf.for %17 = %2 to %14 step %2 iter_args(%18 = %13, %19 = %14) -> (i64, index) {
    scf.yield %18, %17 : i64, index
  }
  %20, %21 = scf.while (%22 = %15, %23 = %16) : (i64, index) -> (i64, index) {
    scf.condition(%3) %22, %23 : i64, index
  } do {
    ^b(%24 : i64, %25 : index) :
    scf.yield %24, %25 : i64, index
  }
  scf.while : () -> () {
    scf.condition(%3)
  } do {
    scf.yield
  }
  scf.parallel (%26, %27) = (%2, %2) to (%16, %21) step (%2, %2) {
    scf.reduce
  }
  %28 = async.create_group %21 : !async.group
  %29 = async.add_to_group %9, %28 : !async.value<memref<4xi64>>
  async.await_all %28
  func.return %20, %28 : i64, !async.group
}
";

/// Loads with the assertions on their indices.
pub const CHECKED_LOADS: &str =
    "func.func @get(%0 : memref<?x8xi64>, %1 : index, %2 : index) -> i64 {
  %3 = arith.constant 0 : index
  %4 = memref.dim %0, %3 : memref<?x8xi64> {aio.at = 2 : i64}
  %5 = arith.cmpi ult, %1, %4 : index {aio.at = 2 : i64}
  cf.assert %5, \"index out of range\" {aio.at = 2 : i64}
  %6 = arith.constant 1 : index {aio.at = 2 : i64}
  %7 = memref.dim %0, %6 : memref<?x8xi64> {aio.at = 2 : i64}
  %8 = arith.cmpi ult, %2, %7 : index {aio.at = 2 : i64}
  cf.assert %8, \"index out of range\" {aio.at = 2 : i64}
  %9 = memref.load %0[%1, %2] : memref<?x8xi64> {aio.at = 2 : i64}
  func.return %9 : i64 {aio.at = 3 : i64}
}
";

/// A loop with the assertions on its bounds.
pub const CHECKED_LOOP: &str = "func.func @main(%0 : index, %1 : index, %2 : index) -> i64 {
  %3 = arith.constant 0 : i64
  %4 = arith.constant -4611686018427387904 : index
  %5 = arith.cmpi sge, %0, %4 : index {aio.at = 3 : i64}
  cf.assert %5, \"loop bounds out of range\" {aio.at = 3 : i64}
  %6 = arith.constant 4611686018427387904 : index {aio.at = 3 : i64}
  %7 = arith.cmpi sle, %0, %6 : index {aio.at = 3 : i64}
  cf.assert %7, \"loop bounds out of range\" {aio.at = 3 : i64}
  %8 = arith.cmpi sge, %1, %4 : index {aio.at = 3 : i64}
  cf.assert %8, \"loop bounds out of range\" {aio.at = 3 : i64}
  %9 = arith.cmpi sle, %1, %6 : index {aio.at = 3 : i64}
  cf.assert %9, \"loop bounds out of range\" {aio.at = 3 : i64}
  %10 = arith.constant 1 : index {aio.at = 3 : i64}
  %11 = arith.cmpi sge, %2, %10 : index {aio.at = 3 : i64}
  cf.assert %11, \"loop bounds out of range\" {aio.at = 3 : i64}
  %12 = arith.cmpi sle, %2, %6 : index {aio.at = 3 : i64}
  cf.assert %12, \"loop bounds out of range\" {aio.at = 3 : i64}
  %13 = scf.for %14 = %0 to %1 step %2 iter_args(%15 = %3) -> (i64) {
    %16 = arith.index_cast %14 : index to i64 {aio.at = 4 : i64}
    %17 = arith.addi %15, %16 : i64 {aio.at = 5 : i64}
    scf.yield %17 : i64 {aio.at = 6 : i64}
  } {aio.at = 3 : i64}
  func.return %13 : i64 {aio.at = 7 : i64}
}
";

/// A parallel loop with the assertions on its bounds and on how often it turns.
pub const CHECKED_PARALLEL: &str = "func.func @main(%0 : index, %1 : index, %2 : index) {
  %3 = arith.constant -4611686018427387904 : index
  %4 = arith.cmpi sge, %0, %3 : index {aio.at = 2 : i64}
  cf.assert %4, \"parallel loop failed\" {aio.at = 2 : i64}
  %5 = arith.constant 4611686018427387904 : index {aio.at = 2 : i64}
  %6 = arith.cmpi sle, %0, %5 : index {aio.at = 2 : i64}
  cf.assert %6, \"parallel loop failed\" {aio.at = 2 : i64}
  %7 = arith.cmpi sge, %1, %3 : index {aio.at = 2 : i64}
  cf.assert %7, \"parallel loop failed\" {aio.at = 2 : i64}
  %8 = arith.cmpi sle, %1, %5 : index {aio.at = 2 : i64}
  cf.assert %8, \"parallel loop failed\" {aio.at = 2 : i64}
  %9 = arith.constant 1 : index {aio.at = 2 : i64}
  %10 = arith.cmpi sge, %2, %9 : index {aio.at = 2 : i64}
  cf.assert %10, \"parallel loop failed\" {aio.at = 2 : i64}
  %11 = arith.cmpi sle, %2, %5 : index {aio.at = 2 : i64}
  cf.assert %11, \"parallel loop failed\" {aio.at = 2 : i64}
  %12 = arith.cmpi sle, %1, %0 : index {aio.at = 2 : i64}
  %13 = scf.if %12 -> index {
    %14 = arith.constant 0 : index {aio.at = 2 : i64}
    scf.yield %14 : index {aio.at = 2 : i64}
  } else {
    %15 = arith.subi %1, %0 : index {aio.at = 2 : i64}
    %16 = arith.subi %15, %9 : index {aio.at = 2 : i64}
    %17 = arith.divui %16, %2 : index {aio.at = 2 : i64}
    %18 = arith.addi %17, %9 : index {aio.at = 2 : i64}
    scf.yield %18 : index {aio.at = 2 : i64}
  } {aio.at = 2 : i64}
  %19 = arith.constant 2147483648 : index {aio.at = 2 : i64}
  %20 = arith.cmpi ule, %13, %19 : index {aio.at = 2 : i64}
  cf.assert %20, \"parallel loop failed\" {aio.at = 2 : i64}
  %21 = arith.cmpi ule, %13, %19 : index {aio.at = 2 : i64}
  cf.assert %21, \"parallel loop failed\" {aio.at = 2 : i64}
  scf.parallel (%22) = (%0) to (%1) step (%2) {
    scf.reduce {aio.at = 3 : i64}
  } {aio.at = 2 : i64}
  func.return {aio.at = 4 : i64}
}
";

/// A parallel loop that is split: its body, its blocks, and the tasks that it is given to.
pub const SPLIT_LOOP: &str = "func.func @main(%0 : memref<10xindex>) {
  %1 = arith.constant 0 : index
  %2 = arith.constant 1 : index
  %3 = arith.constant 10 : index
  %4 = arith.constant -4611686018427387904 : index
  %5 = arith.cmpi sge, %1, %4 : index {aio.at = 5 : i64}
  cf.assert %5, \"parallel loop failed\" {aio.at = 5 : i64}
  %6 = arith.constant 4611686018427387904 : index {aio.at = 5 : i64}
  %7 = arith.cmpi sle, %1, %6 : index {aio.at = 5 : i64}
  cf.assert %7, \"parallel loop failed\" {aio.at = 5 : i64}
  %8 = arith.cmpi sge, %3, %4 : index {aio.at = 5 : i64}
  cf.assert %8, \"parallel loop failed\" {aio.at = 5 : i64}
  %9 = arith.cmpi sle, %3, %6 : index {aio.at = 5 : i64}
  cf.assert %9, \"parallel loop failed\" {aio.at = 5 : i64}
  %10 = arith.constant 1 : index {aio.at = 5 : i64}
  %11 = arith.cmpi sge, %2, %10 : index {aio.at = 5 : i64}
  cf.assert %11, \"parallel loop failed\" {aio.at = 5 : i64}
  %12 = arith.cmpi sle, %2, %6 : index {aio.at = 5 : i64}
  cf.assert %12, \"parallel loop failed\" {aio.at = 5 : i64}
  %13 = arith.cmpi sle, %3, %1 : index {aio.at = 5 : i64}
  %14 = scf.if %13 -> index {
    %15 = arith.constant 0 : index {aio.at = 5 : i64}
    scf.yield %15 : index {aio.at = 5 : i64}
  } else {
    %16 = arith.subi %3, %1 : index {aio.at = 5 : i64}
    %17 = arith.subi %16, %10 : index {aio.at = 5 : i64}
    %18 = arith.divui %17, %2 : index {aio.at = 5 : i64}
    %19 = arith.addi %18, %10 : index {aio.at = 5 : i64}
    scf.yield %19 : index {aio.at = 5 : i64}
  } {aio.at = 5 : i64}
  %20 = arith.constant 2147483648 : index {aio.at = 5 : i64}
  %21 = arith.cmpi ule, %14, %20 : index {aio.at = 5 : i64}
  cf.assert %21, \"parallel loop failed\" {aio.at = 5 : i64}
  %22 = arith.cmpi ule, %14, %20 : index {aio.at = 5 : i64}
  cf.assert %22, \"parallel loop failed\" {aio.at = 5 : i64}
  %23 = arith.cmpi sle, %3, %1 : index {aio.at = 5 : i64}
  %24 = scf.if %23 -> index {
    %25 = arith.constant 0 : index {aio.at = 5 : i64}
    scf.yield %25 : index {aio.at = 5 : i64}
  } else {
    %26 = arith.subi %3, %1 : index {aio.at = 5 : i64}
    %27 = arith.constant 1 : index {aio.at = 5 : i64}
    %28 = arith.subi %26, %27 : index {aio.at = 5 : i64}
    %29 = arith.divui %28, %2 : index {aio.at = 5 : i64}
    %30 = arith.addi %29, %27 : index {aio.at = 5 : i64}
    scf.yield %30 : index {aio.at = 5 : i64}
  } {aio.at = 5 : i64}
  %31 = arith.constant 0 : index {aio.at = 5 : i64}
  %32 = arith.cmpi sgt, %24, %31 : index {aio.at = 5 : i64}
  %33 = scf.if %32 -> i1 {
    %34 = arith.constant 4 : index {aio.at = 5 : i64}
    %35 = arith.addi %24, %34 : index {aio.at = 5 : i64}
    %36 = arith.constant 1 : index {aio.at = 5 : i64}
    %37 = arith.subi %35, %36 : index {aio.at = 5 : i64}
    %38 = arith.divui %37, %34 : index {aio.at = 5 : i64}
    %39 = arith.constant 3 : index {aio.at = 5 : i64}
    %40 = arith.maxui %38, %39 : index {aio.at = 5 : i64}
    %41 = arith.minui %24, %40 : index {aio.at = 5 : i64}
    %42 = arith.addi %24, %41 : index {aio.at = 5 : i64}
    %43 = arith.subi %42, %36 : index {aio.at = 5 : i64}
    %44 = arith.divui %43, %41 : index {aio.at = 5 : i64}
    %45 = arith.cmpi eq, %44, %36 : index {aio.at = 5 : i64}
    %46 = scf.if %45 -> i1 {
      %47 = func.call @aio.block.0(%31, %41, %24, %1, %2, %24, %0) : (index, index, index, index, index, index, memref<10xindex>) -> i1 {aio.at = 5 : i64}
      scf.yield %47 : i1 {aio.at = 5 : i64}
    } else {
      %48 = arith.subi %44, %36 : index {aio.at = 5 : i64}
      %49 = async.create_group %48 : !async.group {aio.at = 5 : i64}
      %50 = func.call @aio.dispatch.0(%49, %31, %44, %41, %24, %1, %2, %24, %0) : (!async.group, index, index, index, index, index, index, index, memref<10xindex>) -> i1 {aio.at = 5 : i64}
      async.await_all %49 {aio.at = 5 : i64}
      scf.yield %50 : i1 {aio.at = 5 : i64}
    } {aio.at = 5 : i64}
    scf.yield %46 : i1 {aio.at = 5 : i64}
  } else {
    %51 = arith.constant true {aio.at = 5 : i64}
    scf.yield %51 : i1 {aio.at = 5 : i64}
  } {aio.at = 5 : i64}
  cf.assert %33, \"parallel loop failed\" {aio.at = 5 : i64}
  func.return {aio.at = 8 : i64}
}
func.func @aio.body.0(%0 : index, %1 : memref<10xindex>) attributes {aio.at = 5 : i64} {
  %2 = arith.constant 0 : index {aio.at = 6 : i64}
  %3 = memref.dim %1, %2 : memref<10xindex> {aio.at = 6 : i64}
  %4 = arith.cmpi ult, %0, %3 : index {aio.at = 6 : i64}
  cf.assert %4, \"index out of range\" {aio.at = 6 : i64}
  memref.store %0, %1[%0] : memref<10xindex> {aio.at = 6 : i64}
  func.return {aio.at = 5 : i64}
}
func.func @aio.block.0(%0 : index, %1 : index, %2 : index, %3 : index, %4 : index, %5 : index, %6 : memref<10xindex>) -> i1 attributes {aio.at = 5 : i64} {
  %7 = arith.muli %0, %1 : index {aio.at = 5 : i64}
  %8 = arith.addi %7, %1 : index {aio.at = 5 : i64}
  %9 = arith.minui %8, %2 : index {aio.at = 5 : i64}
  %10 = arith.constant 1 : index {aio.at = 5 : i64}
  %11 = arith.constant true {aio.at = 5 : i64}
  %12 = scf.for %13 = %7 to %9 step %10 iter_args(%14 = %11) -> (i1) {
    %15 = arith.muli %13, %4 : index {aio.at = 5 : i64}
    %16 = arith.addi %3, %15 : index {aio.at = 5 : i64}
    %17 = aio.try_call @aio.body.0(%16, %6) : (index, memref<10xindex>) -> i1 {aio.at = 5 : i64}
    %18 = arith.andi %14, %17 : i1 {aio.at = 5 : i64}
    scf.yield %18 : i1 {aio.at = 5 : i64}
  } {aio.at = 5 : i64}
  func.return %12 : i1 {aio.at = 5 : i64}
}
func.func @aio.dispatch.0(%0 : !async.group, %1 : index, %2 : index, %3 : index, %4 : index, %5 : index, %6 : index, %7 : index, %8 : memref<10xindex>) -> i1 attributes {aio.at = 5 : i64} {
  %9 = scf.while (%10 = %2) : (index) -> index {
    %11 = arith.subi %10, %1 : index {aio.at = 5 : i64}
    %12 = arith.constant 1 : index {aio.at = 5 : i64}
    %13 = arith.cmpi sgt, %11, %12 : index {aio.at = 5 : i64}
    scf.condition(%13) %10 : index {aio.at = 5 : i64}
  } do {
    ^b(%14 : index) :
    %15 = arith.subi %14, %1 : index {aio.at = 5 : i64}
    %16 = arith.constant 2 : index {aio.at = 5 : i64}
    %17 = arith.divui %15, %16 : index {aio.at = 5 : i64}
    %18 = arith.addi %1, %17 : index {aio.at = 5 : i64}
    %19 = async.execute {
      %20 = func.call @aio.dispatch.0(%0, %18, %14, %3, %4, %5, %6, %7, %8) : (!async.group, index, index, index, index, index, index, index, memref<10xindex>) -> i1 {aio.at = 5 : i64}
      cf.assert %20, \"parallel loop failed\" {aio.at = 5 : i64}
      async.yield {aio.at = 5 : i64}
    } {aio.at = 5 : i64}
    %21 = async.add_to_group %19, %0 : !async.token {aio.at = 5 : i64}
    scf.yield %18 : index {aio.at = 5 : i64}
  } {aio.at = 5 : i64}
  %22 = func.call @aio.block.0(%1, %3, %4, %5, %6, %7, %8) : (index, index, index, index, index, index, memref<10xindex>) -> i1 {aio.at = 5 : i64}
  func.return %22 : i1 {aio.at = 5 : i64}
}
";
