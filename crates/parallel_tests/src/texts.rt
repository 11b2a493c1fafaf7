//! Texts, and what is printed of their modules without parallel loops.

/// A text, for how many workers its loops are split, how many iterations a block has at least, and what is printed.
pub type Splitting = (&'static str, u32, u32, &'static str);

pub const TEXTS: [Splitting; 3] = [
    // one dimension and a store; four blocks for a worker, of three iterations at least
    (
        "func.func @main(%m: memref<10xindex>) {
  %c0 = arith.constant 0 : index
  %c1 = arith.constant 1 : index
  %c10 = arith.constant 10 : index
  scf.parallel (%i) = (%c0) to (%c10) step (%c1) {
    memref.store %i, %m[%i] : memref<10xindex>
    scf.reduce
  }
  return
}
",
        1,
        3,
        "func.func @main(%0 : memref<10xindex>) {
  %1 = arith.constant 0 : index
  %2 = arith.constant 1 : index
  %3 = arith.constant 10 : index
  %4 = arith.constant -4611686018427387904 : index
  %5 = arith.cmpi sge, %1, %4 : index {aio.at = 5 : i64}
  cf.assert %5, \"parallel loop failed\" {aio.at = 5 : i64}
  %6 = arith.constant 4611686018427387904 : index {aio.at = 5 : i64}
  %7 = arith.cmpi sle, %1, %6 : index {aio.at = 5 : i64}
  cf.assert %7, \"parallel loop failed\" {aio.at = 5 : i64}
  %8 = arith.cmpi sge, %3, %4 : index {aio.at = 5 : i64}
  cf.assert %8, \"parallel loop failed\" {aio.at = 5 : i64}
  %9 = arith.cmpi sle, %3, %6 : index {aio.at = 5 : i64}
  cf.assert %9, \"parallel loop failed\" {aio.at = 5 : i64}
  %10 = arith.constant 1 : index {aio.at = 5 : i64}
  %11 = arith.cmpi sge, %2, %10 : index {aio.at = 5 : i64}
  cf.assert %11, \"parallel loop failed\" {aio.at = 5 : i64}
  %12 = arith.cmpi sle, %2, %6 : index {aio.at = 5 : i64}
  cf.assert %12, \"parallel loop failed\" {aio.at = 5 : i64}
  %13 = arith.cmpi sle, %3, %1 : index {aio.at = 5 : i64}
  %14 = scf.if %13 -> index {
    %15 = arith.constant 0 : index {aio.at = 5 : i64}
    scf.yield %15 : index {aio.at = 5 : i64}
  } else {
    %16 = arith.subi %3, %1 : index {aio.at = 5 : i64}
    %17 = arith.subi %16, %10 : index {aio.at = 5 : i64}
    %18 = arith.divui %17, %2 : index {aio.at = 5 : i64}
    %19 = arith.addi %18, %10 : index {aio.at = 5 : i64}
    scf.yield %19 : index {aio.at = 5 : i64}
  } {aio.at = 5 : i64}
  %20 = arith.constant 2147483648 : index {aio.at = 5 : i64}
  %21 = arith.cmpi ule, %14, %20 : index {aio.at = 5 : i64}
  cf.assert %21, \"parallel loop failed\" {aio.at = 5 : i64}
  %22 = arith.cmpi ule, %14, %20 : index {aio.at = 5 : i64}
  cf.assert %22, \"parallel loop failed\" {aio.at = 5 : i64}
  %23 = arith.cmpi sle, %3, %1 : index {aio.at = 5 : i64}
  %24 = scf.if %23 -> index {
    %25 = arith.constant 0 : index {aio.at = 5 : i64}
    scf.yield %25 : index {aio.at = 5 : i64}
  } else {
    %26 = arith.subi %3, %1 : index {aio.at = 5 : i64}
    %27 = arith.constant 1 : index {aio.at = 5 : i64}
    %28 = arith.subi %26, %27 : index {aio.at = 5 : i64}
    %29 = arith.divui %28, %2 : index {aio.at = 5 : i64}
    %30 = arith.addi %29, %27 : index {aio.at = 5 : i64}
    scf.yield %30 : index {aio.at = 5 : i64}
  } {aio.at = 5 : i64}
  %31 = arith.constant 0 : index {aio.at = 5 : i64}
  %32 = arith.cmpi sgt, %24, %31 : index {aio.at = 5 : i64}
  %33 = scf.if %32 -> i1 {
    %34 = arith.constant 4 : index {aio.at = 5 : i64}
    %35 = arith.addi %24, %34 : index {aio.at = 5 : i64}
    %36 = arith.constant 1 : index {aio.at = 5 : i64}
    %37 = arith.subi %35, %36 : index {aio.at = 5 : i64}
    %38 = arith.divui %37, %34 : index {aio.at = 5 : i64}
    %39 = arith.constant 3 : index {aio.at = 5 : i64}
    %40 = arith.maxui %38, %39 : index {aio.at = 5 : i64}
    %41 = arith.minui %24, %40 : index {aio.at = 5 : i64}
    %42 = arith.addi %24, %41 : index {aio.at = 5 : i64}
    %43 = arith.subi %42, %36 : index {aio.at = 5 : i64}
    %44 = arith.divui %43, %41 : index {aio.at = 5 : i64}
    %45 = arith.cmpi eq, %44, %36 : index {aio.at = 5 : i64}
    %46 = scf.if %45 -> i1 {
      %47 = func.call @aio.block.0(%31, %41, %24, %1, %2, %24, %0) : (index, index, index, index, index, index, memref<10xindex>) -> i1 {aio.at = 5 : i64}
      scf.yield %47 : i1 {aio.at = 5 : i64}
    } else {
      %48 = arith.subi %44, %36 : index {aio.at = 5 : i64}
      %49 = async.create_group %48 : !async.group {aio.at = 5 : i64}
      %50 = func.call @aio.dispatch.0(%49, %31, %44, %41, %24, %1, %2, %24, %0) : (!async.group, index, index, index, index, index, index, index, memref<10xindex>) -> i1 {aio.at = 5 : i64}
      async.await_all %49 {aio.at = 5 : i64}
      scf.yield %50 : i1 {aio.at = 5 : i64}
    } {aio.at = 5 : i64}
    scf.yield %46 : i1 {aio.at = 5 : i64}
  } else {
    %51 = arith.constant true {aio.at = 5 : i64}
    scf.yield %51 : i1 {aio.at = 5 : i64}
  } {aio.at = 5 : i64}
  cf.assert %33, \"parallel loop failed\" {aio.at = 5 : i64}
  func.return {aio.at = 8 : i64}
}
func.func @aio.body.0(%0 : index, %1 : memref<10xindex>) attributes {aio.at = 5 : i64} {
  %2 = arith.constant 0 : index {aio.at = 6 : i64}
  %3 = memref.dim %1, %2 : memref<10xindex> {aio.at = 6 : i64}
  %4 = arith.cmpi ult, %0, %3 : index {aio.at = 6 : i64}
  cf.assert %4, \"index out of range\" {aio.at = 6 : i64}
  memref.store %0, %1[%0] : memref<10xindex> {aio.at = 6 : i64}
  func.return {aio.at = 5 : i64}
}
func.func @aio.block.0(%0 : index, %1 : index, %2 : index, %3 : index, %4 : index, %5 : index, %6 : memref<10xindex>) -> i1 attributes {aio.at = 5 : i64} {
  %7 = arith.muli %0, %1 : index {aio.at = 5 : i64}
  %8 = arith.addi %7, %1 : index {aio.at = 5 : i64}
  %9 = arith.minui %8, %2 : index {aio.at = 5 : i64}
  %10 = arith.constant 1 : index {aio.at = 5 : i64}
  %11 = arith.constant true {aio.at = 5 : i64}
  %12 = scf.for %13 = %7 to %9 step %10 iter_args(%14 = %11) -> (i1) {
    %15 = arith.muli %13, %4 : index {aio.at = 5 : i64}
    %16 = arith.addi %3, %15 : index {aio.at = 5 : i64}
    %17 = aio.try_call @aio.body.0(%16, %6) : (index, memref<10xindex>) -> i1 {aio.at = 5 : i64}
    %18 = arith.andi %14, %17 : i1 {aio.at = 5 : i64}
    scf.yield %18 : i1 {aio.at = 5 : i64}
  } {aio.at = 5 : i64}
  func.return %12 : i1 {aio.at = 5 : i64}
}
func.func @aio.dispatch.0(%0 : !async.group, %1 : index, %2 : index, %3 : index, %4 : index, %5 : index, %6 : index, %7 : index, %8 : memref<10xindex>) -> i1 attributes {aio.at = 5 : i64} {
  %9 = scf.while (%10 = %2) : (index) -> index {
    %11 = arith.subi %10, %1 : index {aio.at = 5 : i64}
    %12 = arith.constant 1 : index {aio.at = 5 : i64}
    %13 = arith.cmpi sgt, %11, %12 : index {aio.at = 5 : i64}
    scf.condition(%13) %10 : index {aio.at = 5 : i64}
  } do {
    ^b(%14 : index) :
    %15 = arith.subi %14, %1 : index {aio.at = 5 : i64}
    %16 = arith.constant 2 : index {aio.at = 5 : i64}
    %17 = arith.divui %15, %16 : index {aio.at = 5 : i64}
    %18 = arith.addi %1, %17 : index {aio.at = 5 : i64}
    %19 = async.execute {
      %20 = func.call @aio.dispatch.0(%0, %18, %14, %3, %4, %5, %6, %7, %8) : (!async.group, index, index, index, index, index, index, index, memref<10xindex>) -> i1 {aio.at = 5 : i64}
      cf.assert %20, \"parallel loop failed\" {aio.at = 5 : i64}
      async.yield {aio.at = 5 : i64}
    } {aio.at = 5 : i64}
    %21 = async.add_to_group %19, %0 : !async.token {aio.at = 5 : i64}
    scf.yield %18 : index {aio.at = 5 : i64}
  } {aio.at = 5 : i64}
  %22 = func.call @aio.block.0(%1, %3, %4, %5, %6, %7, %8) : (index, index, index, index, index, index, memref<10xindex>) -> i1 {aio.at = 5 : i64}
  func.return %22 : i1 {aio.at = 5 : i64}
}
",
    ),
    // two dimensions
    (
        "func.func @main(%u: index, %v: index) {
  %c0 = arith.constant 0 : index
  %c1 = arith.constant 1 : index
  scf.parallel (%i, %j) = (%c0, %c0) to (%u, %v) step (%c1, %c1) {
  }
  return
}
",
        2,
        1000,
        "func.func @main(%0 : index, %1 : index) {
  %2 = arith.constant 0 : index
  %3 = arith.constant 1 : index
  %4 = arith.constant -4611686018427387904 : index
  %5 = arith.cmpi sge, %2, %4 : index {aio.at = 4 : i64}
  cf.assert %5, \"parallel loop failed\" {aio.at = 4 : i64}
  %6 = arith.constant 4611686018427387904 : index {aio.at = 4 : i64}
  %7 = arith.cmpi sle, %2, %6 : index {aio.at = 4 : i64}
  cf.assert %7, \"parallel loop failed\" {aio.at = 4 : i64}
  %8 = arith.cmpi sge, %0, %4 : index {aio.at = 4 : i64}
  cf.assert %8, \"parallel loop failed\" {aio.at = 4 : i64}
  %9 = arith.cmpi sle, %0, %6 : index {aio.at = 4 : i64}
  cf.assert %9, \"parallel loop failed\" {aio.at = 4 : i64}
  %10 = arith.constant 1 : index {aio.at = 4 : i64}
  %11 = arith.cmpi sge, %3, %10 : index {aio.at = 4 : i64}
  cf.assert %11, \"parallel loop failed\" {aio.at = 4 : i64}
  %12 = arith.cmpi sle, %3, %6 : index {aio.at = 4 : i64}
  cf.assert %12, \"parallel loop failed\" {aio.at = 4 : i64}
  %13 = arith.cmpi sge, %2, %4 : index {aio.at = 4 : i64}
  cf.assert %13, \"parallel loop failed\" {aio.at = 4 : i64}
  %14 = arith.cmpi sle, %2, %6 : index {aio.at = 4 : i64}
  cf.assert %14, \"parallel loop failed\" {aio.at = 4 : i64}
  %15 = arith.cmpi sge, %1, %4 : index {aio.at = 4 : i64}
  cf.assert %15, \"parallel loop failed\" {aio.at = 4 : i64}
  %16 = arith.cmpi sle, %1, %6 : index {aio.at = 4 : i64}
  cf.assert %16, \"parallel loop failed\" {aio.at = 4 : i64}
  %17 = arith.cmpi sge, %3, %10 : index {aio.at = 4 : i64}
  cf.assert %17, \"parallel loop failed\" {aio.at = 4 : i64}
  %18 = arith.cmpi sle, %3, %6 : index {aio.at = 4 : i64}
  cf.assert %18, \"parallel loop failed\" {aio.at = 4 : i64}
  %19 = arith.cmpi sle, %0, %2 : index {aio.at = 4 : i64}
  %20 = scf.if %19 -> index {
    %21 = arith.constant 0 : index {aio.at = 4 : i64}
    scf.yield %21 : index {aio.at = 4 : i64}
  } else {
    %22 = arith.subi %0, %2 : index {aio.at = 4 : i64}
    %23 = arith.subi %22, %10 : index {aio.at = 4 : i64}
    %24 = arith.divui %23, %3 : index {aio.at = 4 : i64}
    %25 = arith.addi %24, %10 : index {aio.at = 4 : i64}
    scf.yield %25 : index {aio.at = 4 : i64}
  } {aio.at = 4 : i64}
  %26 = arith.constant 2147483648 : index {aio.at = 4 : i64}
  %27 = arith.cmpi ule, %20, %26 : index {aio.at = 4 : i64}
  cf.assert %27, \"parallel loop failed\" {aio.at = 4 : i64}
  %28 = arith.cmpi sle, %1, %2 : index {aio.at = 4 : i64}
  %29 = scf.if %28 -> index {
    %30 = arith.constant 0 : index {aio.at = 4 : i64}
    scf.yield %30 : index {aio.at = 4 : i64}
  } else {
    %31 = arith.subi %1, %2 : index {aio.at = 4 : i64}
    %32 = arith.subi %31, %10 : index {aio.at = 4 : i64}
    %33 = arith.divui %32, %3 : index {aio.at = 4 : i64}
    %34 = arith.addi %33, %10 : index {aio.at = 4 : i64}
    scf.yield %34 : index {aio.at = 4 : i64}
  } {aio.at = 4 : i64}
  %35 = arith.cmpi ule, %29, %26 : index {aio.at = 4 : i64}
  cf.assert %35, \"parallel loop failed\" {aio.at = 4 : i64}
  %36 = arith.cmpi ule, %20, %26 : index {aio.at = 4 : i64}
  cf.assert %36, \"parallel loop failed\" {aio.at = 4 : i64}
  %37 = arith.muli %20, %29 : index {aio.at = 4 : i64}
  %38 = arith.cmpi ule, %37, %26 : index {aio.at = 4 : i64}
  cf.assert %38, \"parallel loop failed\" {aio.at = 4 : i64}
  %39 = arith.cmpi sle, %0, %2 : index {aio.at = 4 : i64}
  %40 = scf.if %39 -> index {
    %41 = arith.constant 0 : index {aio.at = 4 : i64}
    scf.yield %41 : index {aio.at = 4 : i64}
  } else {
    %42 = arith.subi %0, %2 : index {aio.at = 4 : i64}
    %43 = arith.constant 1 : index {aio.at = 4 : i64}
    %44 = arith.subi %42, %43 : index {aio.at = 4 : i64}
    %45 = arith.divui %44, %3 : index {aio.at = 4 : i64}
    %46 = arith.addi %45, %43 : index {aio.at = 4 : i64}
    scf.yield %46 : index {aio.at = 4 : i64}
  } {aio.at = 4 : i64}
  %47 = arith.cmpi sle, %1, %2 : index {aio.at = 4 : i64}
  %48 = scf.if %47 -> index {
    %49 = arith.constant 0 : index {aio.at = 4 : i64}
    scf.yield %49 : index {aio.at = 4 : i64}
  } else {
    %50 = arith.subi %1, %2 : index {aio.at = 4 : i64}
    %51 = arith.constant 1 : index {aio.at = 4 : i64}
    %52 = arith.subi %50, %51 : index {aio.at = 4 : i64}
    %53 = arith.divui %52, %3 : index {aio.at = 4 : i64}
    %54 = arith.addi %53, %51 : index {aio.at = 4 : i64}
    scf.yield %54 : index {aio.at = 4 : i64}
  } {aio.at = 4 : i64}
  %55 = arith.muli %40, %48 : index {aio.at = 4 : i64}
  %56 = arith.constant 0 : index {aio.at = 4 : i64}
  %57 = arith.cmpi sgt, %55, %56 : index {aio.at = 4 : i64}
  %58 = scf.if %57 -> i1 {
    %59 = arith.constant 8 : index {aio.at = 4 : i64}
    %60 = arith.addi %55, %59 : index {aio.at = 4 : i64}
    %61 = arith.constant 1 : index {aio.at = 4 : i64}
    %62 = arith.subi %60, %61 : index {aio.at = 4 : i64}
    %63 = arith.divui %62, %59 : index {aio.at = 4 : i64}
    %64 = arith.constant 1000 : index {aio.at = 4 : i64}
    %65 = arith.maxui %63, %64 : index {aio.at = 4 : i64}
    %66 = arith.minui %55, %65 : index {aio.at = 4 : i64}
    %67 = arith.addi %55, %66 : index {aio.at = 4 : i64}
    %68 = arith.subi %67, %61 : index {aio.at = 4 : i64}
    %69 = arith.divui %68, %66 : index {aio.at = 4 : i64}
    %70 = arith.cmpi eq, %69, %61 : index {aio.at = 4 : i64}
    %71 = scf.if %70 -> i1 {
      %72 = func.call @aio.block.0(%56, %66, %55, %2, %2, %3, %3, %40, %48) : (index, index, index, index, index, index, index, index, index) -> i1 {aio.at = 4 : i64}
      scf.yield %72 : i1 {aio.at = 4 : i64}
    } else {
      %73 = arith.subi %69, %61 : index {aio.at = 4 : i64}
      %74 = async.create_group %73 : !async.group {aio.at = 4 : i64}
      %75 = func.call @aio.dispatch.0(%74, %56, %69, %66, %55, %2, %2, %3, %3, %40, %48) : (!async.group, index, index, index, index, index, index, index, index, index, index) -> i1 {aio.at = 4 : i64}
      async.await_all %74 {aio.at = 4 : i64}
      scf.yield %75 : i1 {aio.at = 4 : i64}
    } {aio.at = 4 : i64}
    scf.yield %71 : i1 {aio.at = 4 : i64}
  } else {
    %76 = arith.constant true {aio.at = 4 : i64}
    scf.yield %76 : i1 {aio.at = 4 : i64}
  } {aio.at = 4 : i64}
  cf.assert %58, \"parallel loop failed\" {aio.at = 4 : i64}
  func.return {aio.at = 6 : i64}
}
func.func @aio.body.0(%0 : index, %1 : index) attributes {aio.at = 4 : i64} {
  func.return {aio.at = 4 : i64}
}
func.func @aio.block.0(%0 : index, %1 : index, %2 : index, %3 : index, %4 : index, %5 : index, %6 : index, %7 : index, %8 : index) -> i1 attributes {aio.at = 4 : i64} {
  %9 = arith.muli %0, %1 : index {aio.at = 4 : i64}
  %10 = arith.addi %9, %1 : index {aio.at = 4 : i64}
  %11 = arith.minui %10, %2 : index {aio.at = 4 : i64}
  %12 = arith.constant 1 : index {aio.at = 4 : i64}
  %13 = arith.constant true {aio.at = 4 : i64}
  %14 = scf.for %15 = %9 to %11 step %12 iter_args(%16 = %13) -> (i1) {
    %17 = arith.remui %15, %8 : index {aio.at = 4 : i64}
    %18 = arith.divui %15, %8 : index {aio.at = 4 : i64}
    %19 = arith.muli %18, %5 : index {aio.at = 4 : i64}
    %20 = arith.addi %3, %19 : index {aio.at = 4 : i64}
    %21 = arith.muli %17, %6 : index {aio.at = 4 : i64}
    %22 = arith.addi %4, %21 : index {aio.at = 4 : i64}
    %23 = aio.try_call @aio.body.0(%20, %22) : (index, index) -> i1 {aio.at = 4 : i64}
    %24 = arith.andi %16, %23 : i1 {aio.at = 4 : i64}
    scf.yield %24 : i1 {aio.at = 4 : i64}
  } {aio.at = 4 : i64}
  func.return %14 : i1 {aio.at = 4 : i64}
}
func.func @aio.dispatch.0(%0 : !async.group, %1 : index, %2 : index, %3 : index, %4 : index, %5 : index, %6 : index, %7 : index, %8 : index, %9 : index, %10 : index) -> i1 attributes {aio.at = 4 : i64} {
  %11 = scf.while (%12 = %2) : (index) -> index {
    %13 = arith.subi %12, %1 : index {aio.at = 4 : i64}
    %14 = arith.constant 1 : index {aio.at = 4 : i64}
    %15 = arith.cmpi sgt, %13, %14 : index {aio.at = 4 : i64}
    scf.condition(%15) %12 : index {aio.at = 4 : i64}
  } do {
    ^b(%16 : index) :
    %17 = arith.subi %16, %1 : index {aio.at = 4 : i64}
    %18 = arith.constant 2 : index {aio.at = 4 : i64}
    %19 = arith.divui %17, %18 : index {aio.at = 4 : i64}
    %20 = arith.addi %1, %19 : index {aio.at = 4 : i64}
    %21 = async.execute {
      %22 = func.call @aio.dispatch.0(%0, %20, %16, %3, %4, %5, %6, %7, %8, %9, %10) : (!async.group, index, index, index, index, index, index, index, index, index, index) -> i1 {aio.at = 4 : i64}
      cf.assert %22, \"parallel loop failed\" {aio.at = 4 : i64}
      async.yield {aio.at = 4 : i64}
    } {aio.at = 4 : i64}
    %23 = async.add_to_group %21, %0 : !async.token {aio.at = 4 : i64}
    scf.yield %20 : index {aio.at = 4 : i64}
  } {aio.at = 4 : i64}
  %24 = func.call @aio.block.0(%1, %3, %4, %5, %6, %7, %8, %9, %10) : (index, index, index, index, index, index, index, index, index) -> i1 {aio.at = 4 : i64}
  func.return %24 : i1 {aio.at = 4 : i64}
}
",
    ),
    // serial loops: a task calls the function
    (
        "func.func @f(%m: memref<8xindex>, %u: index) {
  %c0 = arith.constant 0 : index
  %c1 = arith.constant 1 : index
  scf.parallel (%i, %j) = (%c0, %c0) to (%u, %u) step (%c1, %c1) {
    memref.store %i, %m[%j] : memref<8xindex>
  }
  return
}
func.func @main(%m: memref<8xindex>, %u: index) {
  %t = async.execute {
    func.call @f(%m, %u) : (memref<8xindex>, index) -> ()
  }
  async.await %t : !async.token
  return
}
",
        1,
        1,
        "func.func @f(%0 : memref<8xindex>, %1 : index) {
  %2 = arith.constant 0 : index
  %3 = arith.constant 1 : index
  %4 = arith.constant -4611686018427387904 : index
  %5 = arith.cmpi sge, %2, %4 : index {aio.at = 4 : i64}
  cf.assert %5, \"parallel loop failed\" {aio.at = 4 : i64}
  %6 = arith.constant 4611686018427387904 : index {aio.at = 4 : i64}
  %7 = arith.cmpi sle, %2, %6 : index {aio.at = 4 : i64}
  cf.assert %7, \"parallel loop failed\" {aio.at = 4 : i64}
  %8 = arith.cmpi sge, %1, %4 : index {aio.at = 4 : i64}
  cf.assert %8, \"parallel loop failed\" {aio.at = 4 : i64}
  %9 = arith.cmpi sle, %1, %6 : index {aio.at = 4 : i64}
  cf.assert %9, \"parallel loop failed\" {aio.at = 4 : i64}
  %10 = arith.constant 1 : index {aio.at = 4 : i64}
  %11 = arith.cmpi sge, %3, %10 : index {aio.at = 4 : i64}
  cf.assert %11, \"parallel loop failed\" {aio.at = 4 : i64}
  %12 = arith.cmpi sle, %3, %6 : index {aio.at = 4 : i64}
  cf.assert %12, \"parallel loop failed\" {aio.at = 4 : i64}
  %13 = arith.cmpi sge, %2, %4 : index {aio.at = 4 : i64}
  cf.assert %13, \"parallel loop failed\" {aio.at = 4 : i64}
  %14 = arith.cmpi sle, %2, %6 : index {aio.at = 4 : i64}
  cf.assert %14, \"parallel loop failed\" {aio.at = 4 : i64}
  %15 = arith.cmpi sge, %1, %4 : index {aio.at = 4 : i64}
  cf.assert %15, \"parallel loop failed\" {aio.at = 4 : i64}
  %16 = arith.cmpi sle, %1, %6 : index {aio.at = 4 : i64}
  cf.assert %16, \"parallel loop failed\" {aio.at = 4 : i64}
  %17 = arith.cmpi sge, %3, %10 : index {aio.at = 4 : i64}
  cf.assert %17, \"parallel loop failed\" {aio.at = 4 : i64}
  %18 = arith.cmpi sle, %3, %6 : index {aio.at = 4 : i64}
  cf.assert %18, \"parallel loop failed\" {aio.at = 4 : i64}
  %19 = arith.cmpi sle, %1, %2 : index {aio.at = 4 : i64}
  %20 = scf.if %19 -> index {
    %21 = arith.constant 0 : index {aio.at = 4 : i64}
    scf.yield %21 : index {aio.at = 4 : i64}
  } else {
    %22 = arith.subi %1, %2 : index {aio.at = 4 : i64}
    %23 = arith.subi %22, %10 : index {aio.at = 4 : i64}
    %24 = arith.divui %23, %3 : index {aio.at = 4 : i64}
    %25 = arith.addi %24, %10 : index {aio.at = 4 : i64}
    scf.yield %25 : index {aio.at = 4 : i64}
  } {aio.at = 4 : i64}
  %26 = arith.constant 2147483648 : index {aio.at = 4 : i64}
  %27 = arith.cmpi ule, %20, %26 : index {aio.at = 4 : i64}
  cf.assert %27, \"parallel loop failed\" {aio.at = 4 : i64}
  %28 = arith.cmpi sle, %1, %2 : index {aio.at = 4 : i64}
  %29 = scf.if %28 -> index {
    %30 = arith.constant 0 : index {aio.at = 4 : i64}
    scf.yield %30 : index {aio.at = 4 : i64}
  } else {
    %31 = arith.subi %1, %2 : index {aio.at = 4 : i64}
    %32 = arith.subi %31, %10 : index {aio.at = 4 : i64}
    %33 = arith.divui %32, %3 : index {aio.at = 4 : i64}
    %34 = arith.addi %33, %10 : index {aio.at = 4 : i64}
    scf.yield %34 : index {aio.at = 4 : i64}
  } {aio.at = 4 : i64}
  %35 = arith.cmpi ule, %29, %26 : index {aio.at = 4 : i64}
  cf.assert %35, \"parallel loop failed\" {aio.at = 4 : i64}
  %36 = arith.cmpi ule, %20, %26 : index {aio.at = 4 : i64}
  cf.assert %36, \"parallel loop failed\" {aio.at = 4 : i64}
  %37 = arith.muli %20, %29 : index {aio.at = 4 : i64}
  %38 = arith.cmpi ule, %37, %26 : index {aio.at = 4 : i64}
  cf.assert %38, \"parallel loop failed\" {aio.at = 4 : i64}
  %39 = arith.constant true {aio.at = 4 : i64}
  %40 = scf.for %41 = %2 to %1 step %3 iter_args(%42 = %39) -> (i1) {
    %43 = scf.for %44 = %2 to %1 step %3 iter_args(%45 = %42) -> (i1) {
      %46 = aio.try_call @aio.body.0(%41, %44, %0) : (index, index, memref<8xindex>) -> i1 {aio.at = 4 : i64}
      %47 = arith.andi %45, %46 : i1 {aio.at = 4 : i64}
      scf.yield %47 : i1 {aio.at = 4 : i64}
    } {aio.at = 4 : i64}
    scf.yield %43 : i1 {aio.at = 4 : i64}
  } {aio.at = 4 : i64}
  cf.assert %40, \"parallel loop failed\" {aio.at = 4 : i64}
  func.return {aio.at = 7 : i64}
}
func.func @main(%0 : memref<8xindex>, %1 : index) attributes {aio.at = 8 : i64} {
  %2 = async.execute {
    func.call @f(%0, %1) : (memref<8xindex>, index) -> () {aio.at = 10 : i64}
    async.yield {aio.at = 11 : i64}
  } {aio.at = 9 : i64}
  async.await %2 : !async.token {aio.at = 12 : i64}
  func.return {aio.at = 13 : i64}
}
func.func @aio.body.0(%0 : index, %1 : index, %2 : memref<8xindex>) attributes {aio.at = 4 : i64} {
  %3 = arith.constant 0 : index {aio.at = 5 : i64}
  %4 = memref.dim %2, %3 : memref<8xindex> {aio.at = 5 : i64}
  %5 = arith.cmpi ult, %1, %4 : index {aio.at = 5 : i64}
  cf.assert %5, \"index out of range\" {aio.at = 5 : i64}
  memref.store %0, %2[%1] : memref<8xindex> {aio.at = 5 : i64}
  func.return {aio.at = 4 : i64}
}
",
    ),
];
