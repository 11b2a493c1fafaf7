//! Loops of more dimensions, and loops in loops.
use crate::texts::Splitting;

pub const DEEPER: [Splitting; 2] = [
    // loops in loops and in tasks, names that are taken, equal numbers for the share and the least size
    (
        "func.func @aio.body.0() {
  return
}
func.func @aio.block.0_() {
  return
}
func.func @main(%m: memref<?x?xi64>, %n: index) {
  %c0 = arith.constant 0 : index
  %c1 = arith.constant 1 : index
  %x = arith.constant 7 : i64
  scf.parallel (%i) = (%c0) to (%n) step (%c1) {
    scf.parallel (%j) = (%i) to (%n) step (%c1) {
      memref.store %x, %m[%i, %j] : memref<?x?xi64>
    }
    %t = async.execute {
      scf.parallel (%k) = (%c0) to (%i) step (%c1) {
      }
    }
  }
  %t = async.execute {
    scf.parallel (%i) = (%c0) to (%n) step (%c1) {
      memref.store %x, %m[%i, %i] : memref<?x?xi64>
    }
  }
  async.await %t : !async.token
  return
}
",
        1,
        4,
        "func.func @aio.body.0() {
  func.return
}
func.func @aio.block.0_() {
  func.return
}
func.func @main(%0 : memref<?x?xi64>, %1 : index) {
  %2 = arith.constant 0 : index
  %3 = arith.constant 1 : index
  %4 = arith.constant 7 : i64
  %5 = arith.constant -4611686018427387904 : index
  %6 = arith.cmpi sge, %2, %5 : index {aio.at = 9 : i64}
  cf.assert %6, \"parallel loop failed\" {aio.at = 9 : i64}
  %7 = arith.constant 4611686018427387904 : index {aio.at = 9 : i64}
  %8 = arith.cmpi sle, %2, %7 : index {aio.at = 9 : i64}
  cf.assert %8, \"parallel loop failed\" {aio.at = 9 : i64}
  %9 = arith.cmpi sge, %1, %5 : index {aio.at = 9 : i64}
  cf.assert %9, \"parallel loop failed\" {aio.at = 9 : i64}
  %10 = arith.cmpi sle, %1, %7 : index {aio.at = 9 : i64}
  cf.assert %10, \"parallel loop failed\" {aio.at = 9 : i64}
  %11 = arith.constant 1 : index {aio.at = 9 : i64}
  %12 = arith.cmpi sge, %3, %11 : index {aio.at = 9 : i64}
  cf.assert %12, \"parallel loop failed\" {aio.at = 9 : i64}
  %13 = arith.cmpi sle, %3, %7 : index {aio.at = 9 : i64}
  cf.assert %13, \"parallel loop failed\" {aio.at = 9 : i64}
  %14 = arith.cmpi sle, %1, %2 : index {aio.at = 9 : i64}
  %15 = scf.if %14 -> index {
    %16 = arith.constant 0 : index {aio.at = 9 : i64}
    scf.yield %16 : index {aio.at = 9 : i64}
  } else {
    %17 = arith.subi %1, %2 : index {aio.at = 9 : i64}
    %18 = arith.subi %17, %11 : index {aio.at = 9 : i64}
    %19 = arith.divui %18, %3 : index {aio.at = 9 : i64}
    %20 = arith.addi %19, %11 : index {aio.at = 9 : i64}
    scf.yield %20 : index {aio.at = 9 : i64}
  } {aio.at = 9 : i64}
  %21 = arith.constant 2147483648 : index {aio.at = 9 : i64}
  %22 = arith.cmpi ule, %15, %21 : index {aio.at = 9 : i64}
  cf.assert %22, \"parallel loop failed\" {aio.at = 9 : i64}
  %23 = arith.cmpi ule, %15, %21 : index {aio.at = 9 : i64}
  cf.assert %23, \"parallel loop failed\" {aio.at = 9 : i64}
  %24 = arith.cmpi sle, %1, %2 : index {aio.at = 9 : i64}
  %25 = scf.if %24 -> index {
    %26 = arith.constant 0 : index {aio.at = 9 : i64}
    scf.yield %26 : index {aio.at = 9 : i64}
  } else {
    %27 = arith.subi %1, %2 : index {aio.at = 9 : i64}
    %28 = arith.constant 1 : index {aio.at = 9 : i64}
    %29 = arith.subi %27, %28 : index {aio.at = 9 : i64}
    %30 = arith.divui %29, %3 : index {aio.at = 9 : i64}
    %31 = arith.addi %30, %28 : index {aio.at = 9 : i64}
    scf.yield %31 : index {aio.at = 9 : i64}
  } {aio.at = 9 : i64}
  %32 = arith.constant 0 : index {aio.at = 9 : i64}
  %33 = arith.cmpi sgt, %25, %32 : index {aio.at = 9 : i64}
  %34 = scf.if %33 -> i1 {
    %35 = arith.constant 4 : index {aio.at = 9 : i64}
    %36 = arith.addi %25, %35 : index {aio.at = 9 : i64}
    %37 = arith.constant 1 : index {aio.at = 9 : i64}
    %38 = arith.subi %36, %37 : index {aio.at = 9 : i64}
    %39 = arith.divui %38, %35 : index {aio.at = 9 : i64}
    %40 = arith.maxui %39, %35 : index {aio.at = 9 : i64}
    %41 = arith.minui %25, %40 : index {aio.at = 9 : i64}
    %42 = arith.addi %25, %41 : index {aio.at = 9 : i64}
    %43 = arith.subi %42, %37 : index {aio.at = 9 : i64}
    %44 = arith.divui %43, %41 : index {aio.at = 9 : i64}
    %45 = arith.cmpi eq, %44, %37 : index {aio.at = 9 : i64}
    %46 = scf.if %45 -> i1 {
      %47 = func.call @aio.block.0(%32, %41, %25, %2, %3, %25, %0, %1, %2, %3, %4) : (index, index, index, index, index, index, memref<?x?xi64>, index, index, index, i64) -> i1 {aio.at = 9 : i64}
      scf.yield %47 : i1 {aio.at = 9 : i64}
    } else {
      %48 = arith.subi %44, %37 : index {aio.at = 9 : i64}
      %49 = async.create_group %48 : !async.group {aio.at = 9 : i64}
      %50 = func.call @aio.dispatch.0(%49, %32, %44, %41, %25, %2, %3, %25, %0, %1, %2, %3, %4) : (!async.group, index, index, index, index, index, index, index, memref<?x?xi64>, index, index, index, i64) -> i1 {aio.at = 9 : i64}
      async.await_all %49 {aio.at = 9 : i64}
      scf.yield %50 : i1 {aio.at = 9 : i64}
    } {aio.at = 9 : i64}
    scf.yield %46 : i1 {aio.at = 9 : i64}
  } else {
    %51 = arith.constant true {aio.at = 9 : i64}
    scf.yield %51 : i1 {aio.at = 9 : i64}
  } {aio.at = 9 : i64}
  cf.assert %34, \"parallel loop failed\" {aio.at = 9 : i64}
  %52 = async.execute {
    %53 = arith.constant -4611686018427387904 : index {aio.at = 19 : i64}
    %54 = arith.cmpi sge, %2, %53 : index {aio.at = 19 : i64}
    cf.assert %54, \"parallel loop failed\" {aio.at = 19 : i64}
    %55 = arith.constant 4611686018427387904 : index {aio.at = 19 : i64}
    %56 = arith.cmpi sle, %2, %55 : index {aio.at = 19 : i64}
    cf.assert %56, \"parallel loop failed\" {aio.at = 19 : i64}
    %57 = arith.cmpi sge, %1, %53 : index {aio.at = 19 : i64}
    cf.assert %57, \"parallel loop failed\" {aio.at = 19 : i64}
    %58 = arith.cmpi sle, %1, %55 : index {aio.at = 19 : i64}
    cf.assert %58, \"parallel loop failed\" {aio.at = 19 : i64}
    %59 = arith.constant 1 : index {aio.at = 19 : i64}
    %60 = arith.cmpi sge, %3, %59 : index {aio.at = 19 : i64}
    cf.assert %60, \"parallel loop failed\" {aio.at = 19 : i64}
    %61 = arith.cmpi sle, %3, %55 : index {aio.at = 19 : i64}
    cf.assert %61, \"parallel loop failed\" {aio.at = 19 : i64}
    %62 = arith.cmpi sle, %1, %2 : index {aio.at = 19 : i64}
    %63 = scf.if %62 -> index {
      %64 = arith.constant 0 : index {aio.at = 19 : i64}
      scf.yield %64 : index {aio.at = 19 : i64}
    } else {
      %65 = arith.subi %1, %2 : index {aio.at = 19 : i64}
      %66 = arith.subi %65, %59 : index {aio.at = 19 : i64}
      %67 = arith.divui %66, %3 : index {aio.at = 19 : i64}
      %68 = arith.addi %67, %59 : index {aio.at = 19 : i64}
      scf.yield %68 : index {aio.at = 19 : i64}
    } {aio.at = 19 : i64}
    %69 = arith.constant 2147483648 : index {aio.at = 19 : i64}
    %70 = arith.cmpi ule, %63, %69 : index {aio.at = 19 : i64}
    cf.assert %70, \"parallel loop failed\" {aio.at = 19 : i64}
    %71 = arith.cmpi ule, %63, %69 : index {aio.at = 19 : i64}
    cf.assert %71, \"parallel loop failed\" {aio.at = 19 : i64}
    %72 = arith.cmpi sle, %1, %2 : index {aio.at = 19 : i64}
    %73 = scf.if %72 -> index {
      %74 = arith.constant 0 : index {aio.at = 19 : i64}
      scf.yield %74 : index {aio.at = 19 : i64}
    } else {
      %75 = arith.subi %1, %2 : index {aio.at = 19 : i64}
      %76 = arith.constant 1 : index {aio.at = 19 : i64}
      %77 = arith.subi %75, %76 : index {aio.at = 19 : i64}
      %78 = arith.divui %77, %3 : index {aio.at = 19 : i64}
      %79 = arith.addi %78, %76 : index {aio.at = 19 : i64}
      scf.yield %79 : index {aio.at = 19 : i64}
    } {aio.at = 19 : i64}
    %80 = arith.constant 0 : index {aio.at = 19 : i64}
    %81 = arith.cmpi sgt, %73, %80 : index {aio.at = 19 : i64}
    %82 = scf.if %81 -> i1 {
      %83 = arith.constant 4 : index {aio.at = 19 : i64}
      %84 = arith.addi %73, %83 : index {aio.at = 19 : i64}
      %85 = arith.constant 1 : index {aio.at = 19 : i64}
      %86 = arith.subi %84, %85 : index {aio.at = 19 : i64}
      %87 = arith.divui %86, %83 : index {aio.at = 19 : i64}
      %88 = arith.maxui %87, %83 : index {aio.at = 19 : i64}
      %89 = arith.minui %73, %88 : index {aio.at = 19 : i64}
      %90 = arith.addi %73, %89 : index {aio.at = 19 : i64}
      %91 = arith.subi %90, %85 : index {aio.at = 19 : i64}
      %92 = arith.divui %91, %89 : index {aio.at = 19 : i64}
      %93 = arith.cmpi eq, %92, %85 : index {aio.at = 19 : i64}
      %94 = scf.if %93 -> i1 {
        %95 = func.call @aio.block.3(%80, %89, %73, %2, %3, %73, %0, %4) : (index, index, index, index, index, index, memref<?x?xi64>, i64) -> i1 {aio.at = 19 : i64}
        scf.yield %95 : i1 {aio.at = 19 : i64}
      } else {
        %96 = arith.subi %92, %85 : index {aio.at = 19 : i64}
        %97 = async.create_group %96 : !async.group {aio.at = 19 : i64}
        %98 = func.call @aio.dispatch.3(%97, %80, %92, %89, %73, %2, %3, %73, %0, %4) : (!async.group, index, index, index, index, index, index, index, memref<?x?xi64>, i64) -> i1 {aio.at = 19 : i64}
        async.await_all %97 {aio.at = 19 : i64}
        scf.yield %98 : i1 {aio.at = 19 : i64}
      } {aio.at = 19 : i64}
      scf.yield %94 : i1 {aio.at = 19 : i64}
    } else {
      %99 = arith.constant true {aio.at = 19 : i64}
      scf.yield %99 : i1 {aio.at = 19 : i64}
    } {aio.at = 19 : i64}
    cf.assert %82, \"parallel loop failed\" {aio.at = 19 : i64}
    async.yield {aio.at = 22 : i64}
  } {aio.at = 18 : i64}
  async.await %52 : !async.token {aio.at = 23 : i64}
  func.return {aio.at = 24 : i64}
}
func.func @aio.body.0_(%0 : index, %1 : memref<?x?xi64>, %2 : index, %3 : index, %4 : index, %5 : i64) attributes {aio.at = 9 : i64} {
  %6 = arith.constant -4611686018427387904 : index {aio.at = 10 : i64}
  %7 = arith.cmpi sge, %0, %6 : index {aio.at = 10 : i64}
  cf.assert %7, \"parallel loop failed\" {aio.at = 10 : i64}
  %8 = arith.constant 4611686018427387904 : index {aio.at = 10 : i64}
  %9 = arith.cmpi sle, %0, %8 : index {aio.at = 10 : i64}
  cf.assert %9, \"parallel loop failed\" {aio.at = 10 : i64}
  %10 = arith.cmpi sge, %2, %6 : index {aio.at = 10 : i64}
  cf.assert %10, \"parallel loop failed\" {aio.at = 10 : i64}
  %11 = arith.cmpi sle, %2, %8 : index {aio.at = 10 : i64}
  cf.assert %11, \"parallel loop failed\" {aio.at = 10 : i64}
  %12 = arith.constant 1 : index {aio.at = 10 : i64}
  %13 = arith.cmpi sge, %4, %12 : index {aio.at = 10 : i64}
  cf.assert %13, \"parallel loop failed\" {aio.at = 10 : i64}
  %14 = arith.cmpi sle, %4, %8 : index {aio.at = 10 : i64}
  cf.assert %14, \"parallel loop failed\" {aio.at = 10 : i64}
  %15 = arith.cmpi sle, %2, %0 : index {aio.at = 10 : i64}
  %16 = scf.if %15 -> index {
    %17 = arith.constant 0 : index {aio.at = 10 : i64}
    scf.yield %17 : index {aio.at = 10 : i64}
  } else {
    %18 = arith.subi %2, %0 : index {aio.at = 10 : i64}
    %19 = arith.subi %18, %12 : index {aio.at = 10 : i64}
    %20 = arith.divui %19, %4 : index {aio.at = 10 : i64}
    %21 = arith.addi %20, %12 : index {aio.at = 10 : i64}
    scf.yield %21 : index {aio.at = 10 : i64}
  } {aio.at = 10 : i64}
  %22 = arith.constant 2147483648 : index {aio.at = 10 : i64}
  %23 = arith.cmpi ule, %16, %22 : index {aio.at = 10 : i64}
  cf.assert %23, \"parallel loop failed\" {aio.at = 10 : i64}
  %24 = arith.cmpi ule, %16, %22 : index {aio.at = 10 : i64}
  cf.assert %24, \"parallel loop failed\" {aio.at = 10 : i64}
  %25 = arith.constant true {aio.at = 10 : i64}
  %26 = scf.for %27 = %0 to %2 step %4 iter_args(%28 = %25) -> (i1) {
    %29 = aio.try_call @aio.body.1(%27, %1, %5, %0) : (index, memref<?x?xi64>, i64, index) -> i1 {aio.at = 10 : i64}
    %30 = arith.andi %28, %29 : i1 {aio.at = 10 : i64}
    scf.yield %30 : i1 {aio.at = 10 : i64}
  } {aio.at = 10 : i64}
  cf.assert %26, \"parallel loop failed\" {aio.at = 10 : i64}
  %31 = async.execute {
    %32 = arith.constant -4611686018427387904 : index {aio.at = 14 : i64}
    %33 = arith.cmpi sge, %3, %32 : index {aio.at = 14 : i64}
    cf.assert %33, \"parallel loop failed\" {aio.at = 14 : i64}
    %34 = arith.constant 4611686018427387904 : index {aio.at = 14 : i64}
    %35 = arith.cmpi sle, %3, %34 : index {aio.at = 14 : i64}
    cf.assert %35, \"parallel loop failed\" {aio.at = 14 : i64}
    %36 = arith.cmpi sge, %0, %32 : index {aio.at = 14 : i64}
    cf.assert %36, \"parallel loop failed\" {aio.at = 14 : i64}
    %37 = arith.cmpi sle, %0, %34 : index {aio.at = 14 : i64}
    cf.assert %37, \"parallel loop failed\" {aio.at = 14 : i64}
    %38 = arith.constant 1 : index {aio.at = 14 : i64}
    %39 = arith.cmpi sge, %4, %38 : index {aio.at = 14 : i64}
    cf.assert %39, \"parallel loop failed\" {aio.at = 14 : i64}
    %40 = arith.cmpi sle, %4, %34 : index {aio.at = 14 : i64}
    cf.assert %40, \"parallel loop failed\" {aio.at = 14 : i64}
    %41 = arith.cmpi sle, %0, %3 : index {aio.at = 14 : i64}
    %42 = scf.if %41 -> index {
      %43 = arith.constant 0 : index {aio.at = 14 : i64}
      scf.yield %43 : index {aio.at = 14 : i64}
    } else {
      %44 = arith.subi %0, %3 : index {aio.at = 14 : i64}
      %45 = arith.subi %44, %38 : index {aio.at = 14 : i64}
      %46 = arith.divui %45, %4 : index {aio.at = 14 : i64}
      %47 = arith.addi %46, %38 : index {aio.at = 14 : i64}
      scf.yield %47 : index {aio.at = 14 : i64}
    } {aio.at = 14 : i64}
    %48 = arith.constant 2147483648 : index {aio.at = 14 : i64}
    %49 = arith.cmpi ule, %42, %48 : index {aio.at = 14 : i64}
    cf.assert %49, \"parallel loop failed\" {aio.at = 14 : i64}
    %50 = arith.cmpi ule, %42, %48 : index {aio.at = 14 : i64}
    cf.assert %50, \"parallel loop failed\" {aio.at = 14 : i64}
    %51 = arith.cmpi sle, %0, %3 : index {aio.at = 14 : i64}
    %52 = scf.if %51 -> index {
      %53 = arith.constant 0 : index {aio.at = 14 : i64}
      scf.yield %53 : index {aio.at = 14 : i64}
    } else {
      %54 = arith.subi %0, %3 : index {aio.at = 14 : i64}
      %55 = arith.constant 1 : index {aio.at = 14 : i64}
      %56 = arith.subi %54, %55 : index {aio.at = 14 : i64}
      %57 = arith.divui %56, %4 : index {aio.at = 14 : i64}
      %58 = arith.addi %57, %55 : index {aio.at = 14 : i64}
      scf.yield %58 : index {aio.at = 14 : i64}
    } {aio.at = 14 : i64}
    %59 = arith.constant 0 : index {aio.at = 14 : i64}
    %60 = arith.cmpi sgt, %52, %59 : index {aio.at = 14 : i64}
    %61 = scf.if %60 -> i1 {
      %62 = arith.constant 4 : index {aio.at = 14 : i64}
      %63 = arith.addi %52, %62 : index {aio.at = 14 : i64}
      %64 = arith.constant 1 : index {aio.at = 14 : i64}
      %65 = arith.subi %63, %64 : index {aio.at = 14 : i64}
      %66 = arith.divui %65, %62 : index {aio.at = 14 : i64}
      %67 = arith.maxui %66, %62 : index {aio.at = 14 : i64}
      %68 = arith.minui %52, %67 : index {aio.at = 14 : i64}
      %69 = arith.addi %52, %68 : index {aio.at = 14 : i64}
      %70 = arith.subi %69, %64 : index {aio.at = 14 : i64}
      %71 = arith.divui %70, %68 : index {aio.at = 14 : i64}
      %72 = arith.cmpi eq, %71, %64 : index {aio.at = 14 : i64}
      %73 = scf.if %72 -> i1 {
        %74 = func.call @aio.block.2(%59, %68, %52, %3, %4, %52) : (index, index, index, index, index, index) -> i1 {aio.at = 14 : i64}
        scf.yield %74 : i1 {aio.at = 14 : i64}
      } else {
        %75 = arith.subi %71, %64 : index {aio.at = 14 : i64}
        %76 = async.create_group %75 : !async.group {aio.at = 14 : i64}
        %77 = func.call @aio.dispatch.2(%76, %59, %71, %68, %52, %3, %4, %52) : (!async.group, index, index, index, index, index, index, index) -> i1 {aio.at = 14 : i64}
        async.await_all %76 {aio.at = 14 : i64}
        scf.yield %77 : i1 {aio.at = 14 : i64}
      } {aio.at = 14 : i64}
      scf.yield %73 : i1 {aio.at = 14 : i64}
    } else {
      %78 = arith.constant true {aio.at = 14 : i64}
      scf.yield %78 : i1 {aio.at = 14 : i64}
    } {aio.at = 14 : i64}
    cf.assert %61, \"parallel loop failed\" {aio.at = 14 : i64}
    async.yield {aio.at = 16 : i64}
  } {aio.at = 13 : i64}
  func.return {aio.at = 9 : i64}
}
func.func @aio.block.0(%0 : index, %1 : index, %2 : index, %3 : index, %4 : index, %5 : index, %6 : memref<?x?xi64>, %7 : index, %8 : index, %9 : index, %10 : i64) -> i1 attributes {aio.at = 9 : i64} {
  %11 = arith.muli %0, %1 : index {aio.at = 9 : i64}
  %12 = arith.addi %11, %1 : index {aio.at = 9 : i64}
  %13 = arith.minui %12, %2 : index {aio.at = 9 : i64}
  %14 = arith.constant 1 : index {aio.at = 9 : i64}
  %15 = arith.constant true {aio.at = 9 : i64}
  %16 = scf.for %17 = %11 to %13 step %14 iter_args(%18 = %15) -> (i1) {
    %19 = arith.muli %17, %4 : index {aio.at = 9 : i64}
    %20 = arith.addi %3, %19 : index {aio.at = 9 : i64}
    %21 = aio.try_call @aio.body.0_(%20, %6, %7, %8, %9, %10) : (index, memref<?x?xi64>, index, index, index, i64) -> i1 {aio.at = 9 : i64}
    %22 = arith.andi %18, %21 : i1 {aio.at = 9 : i64}
    scf.yield %22 : i1 {aio.at = 9 : i64}
  } {aio.at = 9 : i64}
  func.return %16 : i1 {aio.at = 9 : i64}
}
func.func @aio.dispatch.0(%0 : !async.group, %1 : index, %2 : index, %3 : index, %4 : index, %5 : index, %6 : index, %7 : index, %8 : memref<?x?xi64>, %9 : index, %10 : index, %11 : index, %12 : i64) -> i1 attributes {aio.at = 9 : i64} {
  %13 = scf.while (%14 = %2) : (index) -> index {
    %15 = arith.subi %14, %1 : index {aio.at = 9 : i64}
    %16 = arith.constant 1 : index {aio.at = 9 : i64}
    %17 = arith.cmpi sgt, %15, %16 : index {aio.at = 9 : i64}
    scf.condition(%17) %14 : index {aio.at = 9 : i64}
  } do {
    ^b(%18 : index) :
    %19 = arith.subi %18, %1 : index {aio.at = 9 : i64}
    %20 = arith.constant 2 : index {aio.at = 9 : i64}
    %21 = arith.divui %19, %20 : index {aio.at = 9 : i64}
    %22 = arith.addi %1, %21 : index {aio.at = 9 : i64}
    %23 = async.execute {
      %24 = func.call @aio.dispatch.0(%0, %22, %18, %3, %4, %5, %6, %7, %8, %9, %10, %11, %12) : (!async.group, index, index, index, index, index, index, index, memref<?x?xi64>, index, index, index, i64) -> i1 {aio.at = 9 : i64}
      cf.assert %24, \"parallel loop failed\" {aio.at = 9 : i64}
      async.yield {aio.at = 9 : i64}
    } {aio.at = 9 : i64}
    %25 = async.add_to_group %23, %0 : !async.token {aio.at = 9 : i64}
    scf.yield %22 : index {aio.at = 9 : i64}
  } {aio.at = 9 : i64}
  %26 = func.call @aio.block.0(%1, %3, %4, %5, %6, %7, %8, %9, %10, %11, %12) : (index, index, index, index, index, index, memref<?x?xi64>, index, index, index, i64) -> i1 {aio.at = 9 : i64}
  func.return %26 : i1 {aio.at = 9 : i64}
}
func.func @aio.body.1(%0 : index, %1 : memref<?x?xi64>, %2 : i64, %3 : index) attributes {aio.at = 10 : i64} {
  %4 = arith.constant 0 : index {aio.at = 11 : i64}
  %5 = memref.dim %1, %4 : memref<?x?xi64> {aio.at = 11 : i64}
  %6 = arith.cmpi ult, %3, %5 : index {aio.at = 11 : i64}
  cf.assert %6, \"index out of range\" {aio.at = 11 : i64}
  %7 = arith.constant 1 : index {aio.at = 11 : i64}
  %8 = memref.dim %1, %7 : memref<?x?xi64> {aio.at = 11 : i64}
  %9 = arith.cmpi ult, %0, %8 : index {aio.at = 11 : i64}
  cf.assert %9, \"index out of range\" {aio.at = 11 : i64}
  memref.store %2, %1[%3, %0] : memref<?x?xi64> {aio.at = 11 : i64}
  func.return {aio.at = 10 : i64}
}
func.func @aio.body.2(%0 : index) attributes {aio.at = 14 : i64} {
  func.return {aio.at = 14 : i64}
}
func.func @aio.block.2(%0 : index, %1 : index, %2 : index, %3 : index, %4 : index, %5 : index) -> i1 attributes {aio.at = 14 : i64} {
  %6 = arith.muli %0, %1 : index {aio.at = 14 : i64}
  %7 = arith.addi %6, %1 : index {aio.at = 14 : i64}
  %8 = arith.minui %7, %2 : index {aio.at = 14 : i64}
  %9 = arith.constant 1 : index {aio.at = 14 : i64}
  %10 = arith.constant true {aio.at = 14 : i64}
  %11 = scf.for %12 = %6 to %8 step %9 iter_args(%13 = %10) -> (i1) {
    %14 = arith.muli %12, %4 : index {aio.at = 14 : i64}
    %15 = arith.addi %3, %14 : index {aio.at = 14 : i64}
    %16 = aio.try_call @aio.body.2(%15) : (index) -> i1 {aio.at = 14 : i64}
    %17 = arith.andi %13, %16 : i1 {aio.at = 14 : i64}
    scf.yield %17 : i1 {aio.at = 14 : i64}
  } {aio.at = 14 : i64}
  func.return %11 : i1 {aio.at = 14 : i64}
}
func.func @aio.dispatch.2(%0 : !async.group, %1 : index, %2 : index, %3 : index, %4 : index, %5 : index, %6 : index, %7 : index) -> i1 attributes {aio.at = 14 : i64} {
  %8 = scf.while (%9 = %2) : (index) -> index {
    %10 = arith.subi %9, %1 : index {aio.at = 14 : i64}
    %11 = arith.constant 1 : index {aio.at = 14 : i64}
    %12 = arith.cmpi sgt, %10, %11 : index {aio.at = 14 : i64}
    scf.condition(%12) %9 : index {aio.at = 14 : i64}
  } do {
    ^b(%13 : index) :
    %14 = arith.subi %13, %1 : index {aio.at = 14 : i64}
    %15 = arith.constant 2 : index {aio.at = 14 : i64}
    %16 = arith.divui %14, %15 : index {aio.at = 14 : i64}
    %17 = arith.addi %1, %16 : index {aio.at = 14 : i64}
    %18 = async.execute {
      %19 = func.call @aio.dispatch.2(%0, %17, %13, %3, %4, %5, %6, %7) : (!async.group, index, index, index, index, index, index, index) -> i1 {aio.at = 14 : i64}
      cf.assert %19, \"parallel loop failed\" {aio.at = 14 : i64}
      async.yield {aio.at = 14 : i64}
    } {aio.at = 14 : i64}
    %20 = async.add_to_group %18, %0 : !async.token {aio.at = 14 : i64}
    scf.yield %17 : index {aio.at = 14 : i64}
  } {aio.at = 14 : i64}
  %21 = func.call @aio.block.2(%1, %3, %4, %5, %6, %7) : (index, index, index, index, index, index) -> i1 {aio.at = 14 : i64}
  func.return %21 : i1 {aio.at = 14 : i64}
}
func.func @aio.body.3(%0 : index, %1 : memref<?x?xi64>, %2 : i64) attributes {aio.at = 19 : i64} {
  %3 = arith.constant 0 : index {aio.at = 20 : i64}
  %4 = memref.dim %1, %3 : memref<?x?xi64> {aio.at = 20 : i64}
  %5 = arith.cmpi ult, %0, %4 : index {aio.at = 20 : i64}
  cf.assert %5, \"index out of range\" {aio.at = 20 : i64}
  %6 = arith.constant 1 : index {aio.at = 20 : i64}
  %7 = memref.dim %1, %6 : memref<?x?xi64> {aio.at = 20 : i64}
  %8 = arith.cmpi ult, %0, %7 : index {aio.at = 20 : i64}
  cf.assert %8, \"index out of range\" {aio.at = 20 : i64}
  memref.store %2, %1[%0, %0] : memref<?x?xi64> {aio.at = 20 : i64}
  func.return {aio.at = 19 : i64}
}
func.func @aio.block.3(%0 : index, %1 : index, %2 : index, %3 : index, %4 : index, %5 : index, %6 : memref<?x?xi64>, %7 : i64) -> i1 attributes {aio.at = 19 : i64} {
  %8 = arith.muli %0, %1 : index {aio.at = 19 : i64}
  %9 = arith.addi %8, %1 : index {aio.at = 19 : i64}
  %10 = arith.minui %9, %2 : index {aio.at = 19 : i64}
  %11 = arith.constant 1 : index {aio.at = 19 : i64}
  %12 = arith.constant true {aio.at = 19 : i64}
  %13 = scf.for %14 = %8 to %10 step %11 iter_args(%15 = %12) -> (i1) {
    %16 = arith.muli %14, %4 : index {aio.at = 19 : i64}
    %17 = arith.addi %3, %16 : index {aio.at = 19 : i64}
    %18 = aio.try_call @aio.body.3(%17, %6, %7) : (index, memref<?x?xi64>, i64) -> i1 {aio.at = 19 : i64}
    %19 = arith.andi %15, %18 : i1 {aio.at = 19 : i64}
    scf.yield %19 : i1 {aio.at = 19 : i64}
  } {aio.at = 19 : i64}
  func.return %13 : i1 {aio.at = 19 : i64}
}
func.func @aio.dispatch.3(%0 : !async.group, %1 : index, %2 : index, %3 : index, %4 : index, %5 : index, %6 : index, %7 : index, %8 : memref<?x?xi64>, %9 : i64) -> i1 attributes {aio.at = 19 : i64} {
  %10 = scf.while (%11 = %2) : (index) -> index {
    %12 = arith.subi %11, %1 : index {aio.at = 19 : i64}
    %13 = arith.constant 1 : index {aio.at = 19 : i64}
    %14 = arith.cmpi sgt, %12, %13 : index {aio.at = 19 : i64}
    scf.condition(%14) %11 : index {aio.at = 19 : i64}
  } do {
    ^b(%15 : index) :
    %16 = arith.subi %15, %1 : index {aio.at = 19 : i64}
    %17 = arith.constant 2 : index {aio.at = 19 : i64}
    %18 = arith.divui %16, %17 : index {aio.at = 19 : i64}
    %19 = arith.addi %1, %18 : index {aio.at = 19 : i64}
    %20 = async.execute {
      %21 = func.call @aio.dispatch.3(%0, %19, %15, %3, %4, %5, %6, %7, %8, %9) : (!async.group, index, index, index, index, index, index, index, memref<?x?xi64>, i64) -> i1 {aio.at = 19 : i64}
      cf.assert %21, \"parallel loop failed\" {aio.at = 19 : i64}
      async.yield {aio.at = 19 : i64}
    } {aio.at = 19 : i64}
    %22 = async.add_to_group %20, %0 : !async.token {aio.at = 19 : i64}
    scf.yield %19 : index {aio.at = 19 : i64}
  } {aio.at = 19 : i64}
  %23 = func.call @aio.block.3(%1, %3, %4, %5, %6, %7, %8, %9) : (index, index, index, index, index, index, memref<?x?xi64>, i64) -> i1 {aio.at = 19 : i64}
  func.return %23 : i1 {aio.at = 19 : i64}
}
",
    ),
    // four dimensions
    (
        "func.func @main(%l: index, %u: index, %s: index, %m: memref<1xindex>) {
  scf.parallel (%a, %b, %c, %d) = (%l, %l, %l, %l) to (%u, %u, %u, %u) step (%s, %s, %s, %s) {
    %z = arith.constant 0 : index
    memref.store %c, %m[%z] : memref<1xindex>
  }
  return
}
",
        64,
        1,
        "func.func @main(%0 : index, %1 : index, %2 : index, %3 : memref<1xindex>) {
  %4 = arith.constant -4611686018427387904 : index
  %5 = arith.cmpi sge, %0, %4 : index {aio.at = 2 : i64}
  cf.assert %5, \"parallel loop failed\" {aio.at = 2 : i64}
  %6 = arith.constant 4611686018427387904 : index {aio.at = 2 : i64}
  %7 = arith.cmpi sle, %0, %6 : index {aio.at = 2 : i64}
  cf.assert %7, \"parallel loop failed\" {aio.at = 2 : i64}
  %8 = arith.cmpi sge, %1, %4 : index {aio.at = 2 : i64}
  cf.assert %8, \"parallel loop failed\" {aio.at = 2 : i64}
  %9 = arith.cmpi sle, %1, %6 : index {aio.at = 2 : i64}
  cf.assert %9, \"parallel loop failed\" {aio.at = 2 : i64}
  %10 = arith.constant 1 : index {aio.at = 2 : i64}
  %11 = arith.cmpi sge, %2, %10 : index {aio.at = 2 : i64}
  cf.assert %11, \"parallel loop failed\" {aio.at = 2 : i64}
  %12 = arith.cmpi sle, %2, %6 : index {aio.at = 2 : i64}
  cf.assert %12, \"parallel loop failed\" {aio.at = 2 : i64}
  %13 = arith.cmpi sge, %0, %4 : index {aio.at = 2 : i64}
  cf.assert %13, \"parallel loop failed\" {aio.at = 2 : i64}
  %14 = arith.cmpi sle, %0, %6 : index {aio.at = 2 : i64}
  cf.assert %14, \"parallel loop failed\" {aio.at = 2 : i64}
  %15 = arith.cmpi sge, %1, %4 : index {aio.at = 2 : i64}
  cf.assert %15, \"parallel loop failed\" {aio.at = 2 : i64}
  %16 = arith.cmpi sle, %1, %6 : index {aio.at = 2 : i64}
  cf.assert %16, \"parallel loop failed\" {aio.at = 2 : i64}
  %17 = arith.cmpi sge, %2, %10 : index {aio.at = 2 : i64}
  cf.assert %17, \"parallel loop failed\" {aio.at = 2 : i64}
  %18 = arith.cmpi sle, %2, %6 : index {aio.at = 2 : i64}
  cf.assert %18, \"parallel loop failed\" {aio.at = 2 : i64}
  %19 = arith.cmpi sge, %0, %4 : index {aio.at = 2 : i64}
  cf.assert %19, \"parallel loop failed\" {aio.at = 2 : i64}
  %20 = arith.cmpi sle, %0, %6 : index {aio.at = 2 : i64}
  cf.assert %20, \"parallel loop failed\" {aio.at = 2 : i64}
  %21 = arith.cmpi sge, %1, %4 : index {aio.at = 2 : i64}
  cf.assert %21, \"parallel loop failed\" {aio.at = 2 : i64}
  %22 = arith.cmpi sle, %1, %6 : index {aio.at = 2 : i64}
  cf.assert %22, \"parallel loop failed\" {aio.at = 2 : i64}
  %23 = arith.cmpi sge, %2, %10 : index {aio.at = 2 : i64}
  cf.assert %23, \"parallel loop failed\" {aio.at = 2 : i64}
  %24 = arith.cmpi sle, %2, %6 : index {aio.at = 2 : i64}
  cf.assert %24, \"parallel loop failed\" {aio.at = 2 : i64}
  %25 = arith.cmpi sge, %0, %4 : index {aio.at = 2 : i64}
  cf.assert %25, \"parallel loop failed\" {aio.at = 2 : i64}
  %26 = arith.cmpi sle, %0, %6 : index {aio.at = 2 : i64}
  cf.assert %26, \"parallel loop failed\" {aio.at = 2 : i64}
  %27 = arith.cmpi sge, %1, %4 : index {aio.at = 2 : i64}
  cf.assert %27, \"parallel loop failed\" {aio.at = 2 : i64}
  %28 = arith.cmpi sle, %1, %6 : index {aio.at = 2 : i64}
  cf.assert %28, \"parallel loop failed\" {aio.at = 2 : i64}
  %29 = arith.cmpi sge, %2, %10 : index {aio.at = 2 : i64}
  cf.assert %29, \"parallel loop failed\" {aio.at = 2 : i64}
  %30 = arith.cmpi sle, %2, %6 : index {aio.at = 2 : i64}
  cf.assert %30, \"parallel loop failed\" {aio.at = 2 : i64}
  %31 = arith.cmpi sle, %1, %0 : index {aio.at = 2 : i64}
  %32 = scf.if %31 -> index {
    %33 = arith.constant 0 : index {aio.at = 2 : i64}
    scf.yield %33 : index {aio.at = 2 : i64}
  } else {
    %34 = arith.subi %1, %0 : index {aio.at = 2 : i64}
    %35 = arith.subi %34, %10 : index {aio.at = 2 : i64}
    %36 = arith.divui %35, %2 : index {aio.at = 2 : i64}
    %37 = arith.addi %36, %10 : index {aio.at = 2 : i64}
    scf.yield %37 : index {aio.at = 2 : i64}
  } {aio.at = 2 : i64}
  %38 = arith.constant 2147483648 : index {aio.at = 2 : i64}
  %39 = arith.cmpi ule, %32, %38 : index {aio.at = 2 : i64}
  cf.assert %39, \"parallel loop failed\" {aio.at = 2 : i64}
  %40 = arith.cmpi sle, %1, %0 : index {aio.at = 2 : i64}
  %41 = scf.if %40 -> index {
    %42 = arith.constant 0 : index {aio.at = 2 : i64}
    scf.yield %42 : index {aio.at = 2 : i64}
  } else {
    %43 = arith.subi %1, %0 : index {aio.at = 2 : i64}
    %44 = arith.subi %43, %10 : index {aio.at = 2 : i64}
    %45 = arith.divui %44, %2 : index {aio.at = 2 : i64}
    %46 = arith.addi %45, %10 : index {aio.at = 2 : i64}
    scf.yield %46 : index {aio.at = 2 : i64}
  } {aio.at = 2 : i64}
  %47 = arith.cmpi ule, %41, %38 : index {aio.at = 2 : i64}
  cf.assert %47, \"parallel loop failed\" {aio.at = 2 : i64}
  %48 = arith.cmpi sle, %1, %0 : index {aio.at = 2 : i64}
  %49 = scf.if %48 -> index {
    %50 = arith.constant 0 : index {aio.at = 2 : i64}
    scf.yield %50 : index {aio.at = 2 : i64}
  } else {
    %51 = arith.subi %1, %0 : index {aio.at = 2 : i64}
    %52 = arith.subi %51, %10 : index {aio.at = 2 : i64}
    %53 = arith.divui %52, %2 : index {aio.at = 2 : i64}
    %54 = arith.addi %53, %10 : index {aio.at = 2 : i64}
    scf.yield %54 : index {aio.at = 2 : i64}
  } {aio.at = 2 : i64}
  %55 = arith.cmpi ule, %49, %38 : index {aio.at = 2 : i64}
  cf.assert %55, \"parallel loop failed\" {aio.at = 2 : i64}
  %56 = arith.cmpi sle, %1, %0 : index {aio.at = 2 : i64}
  %57 = scf.if %56 -> index {
    %58 = arith.constant 0 : index {aio.at = 2 : i64}
    scf.yield %58 : index {aio.at = 2 : i64}
  } else {
    %59 = arith.subi %1, %0 : index {aio.at = 2 : i64}
    %60 = arith.subi %59, %10 : index {aio.at = 2 : i64}
    %61 = arith.divui %60, %2 : index {aio.at = 2 : i64}
    %62 = arith.addi %61, %10 : index {aio.at = 2 : i64}
    scf.yield %62 : index {aio.at = 2 : i64}
  } {aio.at = 2 : i64}
  %63 = arith.cmpi ule, %57, %38 : index {aio.at = 2 : i64}
  cf.assert %63, \"parallel loop failed\" {aio.at = 2 : i64}
  %64 = arith.cmpi ule, %32, %38 : index {aio.at = 2 : i64}
  cf.assert %64, \"parallel loop failed\" {aio.at = 2 : i64}
  %65 = arith.muli %32, %41 : index {aio.at = 2 : i64}
  %66 = arith.cmpi ule, %65, %38 : index {aio.at = 2 : i64}
  cf.assert %66, \"parallel loop failed\" {aio.at = 2 : i64}
  %67 = arith.muli %65, %49 : index {aio.at = 2 : i64}
  %68 = arith.cmpi ule, %67, %38 : index {aio.at = 2 : i64}
  cf.assert %68, \"parallel loop failed\" {aio.at = 2 : i64}
  %69 = arith.muli %67, %57 : index {aio.at = 2 : i64}
  %70 = arith.cmpi ule, %69, %38 : index {aio.at = 2 : i64}
  cf.assert %70, \"parallel loop failed\" {aio.at = 2 : i64}
  %71 = arith.cmpi sle, %1, %0 : index {aio.at = 2 : i64}
  %72 = scf.if %71 -> index {
    %73 = arith.constant 0 : index {aio.at = 2 : i64}
    scf.yield %73 : index {aio.at = 2 : i64}
  } else {
    %74 = arith.subi %1, %0 : index {aio.at = 2 : i64}
    %75 = arith.constant 1 : index {aio.at = 2 : i64}
    %76 = arith.subi %74, %75 : index {aio.at = 2 : i64}
    %77 = arith.divui %76, %2 : index {aio.at = 2 : i64}
    %78 = arith.addi %77, %75 : index {aio.at = 2 : i64}
    scf.yield %78 : index {aio.at = 2 : i64}
  } {aio.at = 2 : i64}
  %79 = arith.cmpi sle, %1, %0 : index {aio.at = 2 : i64}
  %80 = scf.if %79 -> index {
    %81 = arith.constant 0 : index {aio.at = 2 : i64}
    scf.yield %81 : index {aio.at = 2 : i64}
  } else {
    %82 = arith.subi %1, %0 : index {aio.at = 2 : i64}
    %83 = arith.constant 1 : index {aio.at = 2 : i64}
    %84 = arith.subi %82, %83 : index {aio.at = 2 : i64}
    %85 = arith.divui %84, %2 : index {aio.at = 2 : i64}
    %86 = arith.addi %85, %83 : index {aio.at = 2 : i64}
    scf.yield %86 : index {aio.at = 2 : i64}
  } {aio.at = 2 : i64}
  %87 = arith.cmpi sle, %1, %0 : index {aio.at = 2 : i64}
  %88 = scf.if %87 -> index {
    %89 = arith.constant 0 : index {aio.at = 2 : i64}
    scf.yield %89 : index {aio.at = 2 : i64}
  } else {
    %90 = arith.subi %1, %0 : index {aio.at = 2 : i64}
    %91 = arith.constant 1 : index {aio.at = 2 : i64}
    %92 = arith.subi %90, %91 : index {aio.at = 2 : i64}
    %93 = arith.divui %92, %2 : index {aio.at = 2 : i64}
    %94 = arith.addi %93, %91 : index {aio.at = 2 : i64}
    scf.yield %94 : index {aio.at = 2 : i64}
  } {aio.at = 2 : i64}
  %95 = arith.cmpi sle, %1, %0 : index {aio.at = 2 : i64}
  %96 = scf.if %95 -> index {
    %97 = arith.constant 0 : index {aio.at = 2 : i64}
    scf.yield %97 : index {aio.at = 2 : i64}
  } else {
    %98 = arith.subi %1, %0 : index {aio.at = 2 : i64}
    %99 = arith.constant 1 : index {aio.at = 2 : i64}
    %100 = arith.subi %98, %99 : index {aio.at = 2 : i64}
    %101 = arith.divui %100, %2 : index {aio.at = 2 : i64}
    %102 = arith.addi %101, %99 : index {aio.at = 2 : i64}
    scf.yield %102 : index {aio.at = 2 : i64}
  } {aio.at = 2 : i64}
  %103 = arith.muli %72, %80 : index {aio.at = 2 : i64}
  %104 = arith.muli %103, %88 : index {aio.at = 2 : i64}
  %105 = arith.muli %104, %96 : index {aio.at = 2 : i64}
  %106 = arith.constant 0 : index {aio.at = 2 : i64}
  %107 = arith.cmpi sgt, %105, %106 : index {aio.at = 2 : i64}
  %108 = scf.if %107 -> i1 {
    %109 = arith.constant 256 : index {aio.at = 2 : i64}
    %110 = arith.addi %105, %109 : index {aio.at = 2 : i64}
    %111 = arith.constant 1 : index {aio.at = 2 : i64}
    %112 = arith.subi %110, %111 : index {aio.at = 2 : i64}
    %113 = arith.divui %112, %109 : index {aio.at = 2 : i64}
    %114 = arith.maxui %113, %111 : index {aio.at = 2 : i64}
    %115 = arith.minui %105, %114 : index {aio.at = 2 : i64}
    %116 = arith.addi %105, %115 : index {aio.at = 2 : i64}
    %117 = arith.subi %116, %111 : index {aio.at = 2 : i64}
    %118 = arith.divui %117, %115 : index {aio.at = 2 : i64}
    %119 = arith.cmpi eq, %118, %111 : index {aio.at = 2 : i64}
    %120 = scf.if %119 -> i1 {
      %121 = func.call @aio.block.0(%106, %115, %105, %0, %0, %0, %0, %2, %2, %2, %2, %72, %80, %88, %96, %3) : (index, index, index, index, index, index, index, index, index, index, index, index, index, index, index, memref<1xindex>) -> i1 {aio.at = 2 : i64}
      scf.yield %121 : i1 {aio.at = 2 : i64}
    } else {
      %122 = arith.subi %118, %111 : index {aio.at = 2 : i64}
      %123 = async.create_group %122 : !async.group {aio.at = 2 : i64}
      %124 = func.call @aio.dispatch.0(%123, %106, %118, %115, %105, %0, %0, %0, %0, %2, %2, %2, %2, %72, %80, %88, %96, %3) : (!async.group, index, index, index, index, index, index, index, index, index, index, index, index, index, index, index, index, memref<1xindex>) -> i1 {aio.at = 2 : i64}
      async.await_all %123 {aio.at = 2 : i64}
      scf.yield %124 : i1 {aio.at = 2 : i64}
    } {aio.at = 2 : i64}
    scf.yield %120 : i1 {aio.at = 2 : i64}
  } else {
    %125 = arith.constant true {aio.at = 2 : i64}
    scf.yield %125 : i1 {aio.at = 2 : i64}
  } {aio.at = 2 : i64}
  cf.assert %108, \"parallel loop failed\" {aio.at = 2 : i64}
  func.return {aio.at = 6 : i64}
}
func.func @aio.body.0(%0 : index, %1 : index, %2 : index, %3 : index, %4 : memref<1xindex>) attributes {aio.at = 2 : i64} {
  %5 = arith.constant 0 : index {aio.at = 3 : i64}
  %6 = arith.constant 0 : index {aio.at = 4 : i64}
  %7 = memref.dim %4, %6 : memref<1xindex> {aio.at = 4 : i64}
  %8 = arith.cmpi ult, %5, %7 : index {aio.at = 4 : i64}
  cf.assert %8, \"index out of range\" {aio.at = 4 : i64}
  memref.store %2, %4[%5] : memref<1xindex> {aio.at = 4 : i64}
  func.return {aio.at = 2 : i64}
}
func.func @aio.block.0(%0 : index, %1 : index, %2 : index, %3 : index, %4 : index, %5 : index, %6 : index, %7 : index, %8 : index, %9 : index, %10 : index, %11 : index, %12 : index, %13 : index, %14 : index, %15 : memref<1xindex>) -> i1 attributes {aio.at = 2 : i64} {
  %16 = arith.muli %0, %1 : index {aio.at = 2 : i64}
  %17 = arith.addi %16, %1 : index {aio.at = 2 : i64}
  %18 = arith.minui %17, %2 : index {aio.at = 2 : i64}
  %19 = arith.constant 1 : index {aio.at = 2 : i64}
  %20 = arith.constant true {aio.at = 2 : i64}
  %21 = scf.for %22 = %16 to %18 step %19 iter_args(%23 = %20) -> (i1) {
    %24 = arith.remui %22, %14 : index {aio.at = 2 : i64}
    %25 = arith.divui %22, %14 : index {aio.at = 2 : i64}
    %26 = arith.remui %25, %13 : index {aio.at = 2 : i64}
    %27 = arith.divui %25, %13 : index {aio.at = 2 : i64}
    %28 = arith.remui %27, %12 : index {aio.at = 2 : i64}
    %29 = arith.divui %27, %12 : index {aio.at = 2 : i64}
    %30 = arith.muli %29, %7 : index {aio.at = 2 : i64}
    %31 = arith.addi %3, %30 : index {aio.at = 2 : i64}
    %32 = arith.muli %28, %8 : index {aio.at = 2 : i64}
    %33 = arith.addi %4, %32 : index {aio.at = 2 : i64}
    %34 = arith.muli %26, %9 : index {aio.at = 2 : i64}
    %35 = arith.addi %5, %34 : index {aio.at = 2 : i64}
    %36 = arith.muli %24, %10 : index {aio.at = 2 : i64}
    %37 = arith.addi %6, %36 : index {aio.at = 2 : i64}
    %38 = aio.try_call @aio.body.0(%31, %33, %35, %37, %15) : (index, index, index, index, memref<1xindex>) -> i1 {aio.at = 2 : i64}
    %39 = arith.andi %23, %38 : i1 {aio.at = 2 : i64}
    scf.yield %39 : i1 {aio.at = 2 : i64}
  } {aio.at = 2 : i64}
  func.return %21 : i1 {aio.at = 2 : i64}
}
func.func @aio.dispatch.0(%0 : !async.group, %1 : index, %2 : index, %3 : index, %4 : index, %5 : index, %6 : index, %7 : index, %8 : index, %9 : index, %10 : index, %11 : index, %12 : index, %13 : index, %14 : index, %15 : index, %16 : index, %17 : memref<1xindex>) -> i1 attributes {aio.at = 2 : i64} {
  %18 = scf.while (%19 = %2) : (index) -> index {
    %20 = arith.subi %19, %1 : index {aio.at = 2 : i64}
    %21 = arith.constant 1 : index {aio.at = 2 : i64}
    %22 = arith.cmpi sgt, %20, %21 : index {aio.at = 2 : i64}
    scf.condition(%22) %19 : index {aio.at = 2 : i64}
  } do {
    ^b(%23 : index) :
    %24 = arith.subi %23, %1 : index {aio.at = 2 : i64}
    %25 = arith.constant 2 : index {aio.at = 2 : i64}
    %26 = arith.divui %24, %25 : index {aio.at = 2 : i64}
    %27 = arith.addi %1, %26 : index {aio.at = 2 : i64}
    %28 = async.execute {
      %29 = func.call @aio.dispatch.0(%0, %27, %23, %3, %4, %5, %6, %7, %8, %9, %10, %11, %12, %13, %14, %15, %16, %17) : (!async.group, index, index, index, index, index, index, index, index, index, index, index, index, index, index, index, index, memref<1xindex>) -> i1 {aio.at = 2 : i64}
      cf.assert %29, \"parallel loop failed\" {aio.at = 2 : i64}
      async.yield {aio.at = 2 : i64}
    } {aio.at = 2 : i64}
    %30 = async.add_to_group %28, %0 : !async.token {aio.at = 2 : i64}
    scf.yield %27 : index {aio.at = 2 : i64}
  } {aio.at = 2 : i64}
  %31 = func.call @aio.block.0(%1, %3, %4, %5, %6, %7, %8, %9, %10, %11, %12, %13, %14, %15, %16, %17) : (index, index, index, index, index, index, index, index, index, index, index, index, index, index, index, memref<1xindex>) -> i1 {aio.at = 2 : i64}
  func.return %31 : i1 {aio.at = 2 : i64}
}
",
    ),
];
