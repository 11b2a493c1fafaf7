//! Texts with all that the passes make of them.

/// A text, for how many workers its loops are split, how many iterations a block has at least, and the texts behind the
/// passes: without parallel loops, in blocks, and with its counts.
pub struct Worked {
    pub text: &'static str,
    pub workers: u32,
    pub least: u32,
    pub split: &'static str,
    pub runtime: &'static str,
    pub counted: &'static str,
}

pub const WORKED: [Worked; 2] = [
    // a task whose value is awaited
    Worked {
        text: "func.func @main() -> i64 {
  %t, %v = async.execute -> !async.value<i64> {
    %c = arith.constant 7 : i64
    async.yield %c : i64
  }
  %r = async.await %v : !async.value<i64>
  return %r : i64
}
",
        workers: 8,
        least: 1_000,
        split: "func.func @main() -> i64 {
  %0, %1 = async.execute -> !async.value<i64> {
    %2 = arith.constant 7 : i64
    async.yield %2 : i64
  }
  %3 = async.await %1 : !async.value<i64>
  func.return %3 : i64
}
",
        runtime: "func.func @main() -> i64 {
^bb0:
  %0, %1 = func.call @aio.task.0() : () -> (!async.token, !async.value<i64>)
  async.runtime.await %1 : !async.value<i64>
  %2 = async.runtime.is_error %1 : !async.value<i64>
  cf.cond_br %2, ^bb2, ^bb1
^bb1:
  %3 = async.runtime.load %1 : !async.value<i64>
  func.return %3 : i64
^bb2:
  %4 = arith.constant 5 : i64
  aio.fail %4
}
func.func private @aio.task.0() -> (!async.token, !async.value<i64>) attributes {aio.coroutine} {
^bb0:
  %0 = async.runtime.create : !async.token
  %1 = async.runtime.create : !async.value<i64>
  %2 = async.coro.id
  %3 = async.coro.begin %2
  %4 = async.coro.save %3
  async.runtime.resume %3
  async.coro.suspend %4, ^bb3, ^bb1, ^bb2
^bb1:
  %5 = arith.constant 7 : i64
  async.runtime.store %5, %1 : !async.value<i64>
  async.runtime.set_available %1 : !async.value<i64>
  async.runtime.set_available %0 : !async.token
  cf.br ^bb2
^bb2:
  async.coro.free %2, %3
  async.coro.end %3
  aio.finish
^bb3:
  async.coro.end %3
  func.return %0, %1 : !async.token, !async.value<i64>
}
",
        counted: "func.func @main() -> i64 {
^bb0:
  %0, %1 = func.call @aio.task.0() : () -> (!async.token, !async.value<i64>)
  async.runtime.drop_ref %0 {count = 1 : i64} : !async.token
  async.runtime.await %1 : !async.value<i64>
  %2 = async.runtime.is_error %1 : !async.value<i64>
  cf.cond_br %2, ^bb2, ^bb1
^bb1:
  %3 = async.runtime.load %1 : !async.value<i64>
  async.runtime.drop_ref %1 {count = 1 : i64} : !async.value<i64>
  func.return %3 : i64
^bb2:
  async.runtime.drop_ref %1 {count = 1 : i64} : !async.value<i64>
  %4 = arith.constant 5 : i64
  aio.fail %4
}
func.func private @aio.task.0() -> (!async.token, !async.value<i64>) attributes {aio.coroutine} {
^bb0:
  %0 = async.runtime.create : !async.token
  %1 = async.runtime.create : !async.value<i64>
  %2 = async.coro.id
  %3 = async.coro.begin %2
  %4 = async.coro.save %3
  async.runtime.resume %3
  async.coro.suspend %4, ^bb3, ^bb1, ^bb2
^bb1:
  %5 = arith.constant 7 : i64
  async.runtime.store %5, %1 : !async.value<i64>
  async.runtime.set_available %1 : !async.value<i64>
  async.runtime.set_available %0 : !async.token
  cf.br ^bb2
^bb2:
  async.coro.free %2, %3
  async.coro.end %3
  aio.finish
^bb3:
  async.coro.end %3
  func.return %0, %1 : !async.token, !async.value<i64>
}
",
    },
    // a parallel loop in blocks
    Worked {
        text: "func.func @main(%m: memref<10xindex>) {
  %c0 = arith.constant 0 : index
  %c1 = arith.constant 1 : index
  %c10 = arith.constant 10 : index
  scf.parallel (%i) = (%c0) to (%c10) step (%c1) {
    memref.store %i, %m[%i] : memref<10xindex>
    scf.reduce
  }
  return
}
",
        workers: 1,
        least: 3,
        split: "func.func @main(%0 : memref<10xindex>) {
  %1 = arith.constant 0 : index
  %2 = arith.constant 1 : index
  %3 = arith.constant 10 : index
  %4 = arith.constant -4611686018427387904 : index
  %5 = arith.cmpi sge, %1, %4 : index {aio.at = 5 : i64}
  cf.assert %5, \"parallel loop failed\" {aio.at = 5 : i64}
  %6 = arith.constant 4611686018427387904 : index {aio.at = 5 : i64}
  %7 = arith.cmpi sle, %1, %6 : index {aio.at = 5 : i64}
  cf.assert %7, \"parallel loop failed\" {aio.at = 5 : i64}
  %8 = arith.cmpi sge, %3, %4 : index {aio.at = 5 : i64}
  cf.assert %8, \"parallel loop failed\" {aio.at = 5 : i64}
  %9 = arith.cmpi sle, %3, %6 : index {aio.at = 5 : i64}
  cf.assert %9, \"parallel loop failed\" {aio.at = 5 : i64}
  %10 = arith.constant 1 : index {aio.at = 5 : i64}
  %11 = arith.cmpi sge, %2, %10 : index {aio.at = 5 : i64}
  cf.assert %11, \"parallel loop failed\" {aio.at = 5 : i64}
  %12 = arith.cmpi sle, %2, %6 : index {aio.at = 5 : i64}
  cf.assert %12, \"parallel loop failed\" {aio.at = 5 : i64}
  %13 = arith.cmpi sle, %3, %1 : index {aio.at = 5 : i64}
  %14 = scf.if %13 -> index {
    %15 = arith.constant 0 : index {aio.at = 5 : i64}
    scf.yield %15 : index {aio.at = 5 : i64}
  } else {
    %16 = arith.subi %3, %1 : index {aio.at = 5 : i64}
    %17 = arith.subi %16, %10 : index {aio.at = 5 : i64}
    %18 = arith.divui %17, %2 : index {aio.at = 5 : i64}
    %19 = arith.addi %18, %10 : index {aio.at = 5 : i64}
    scf.yield %19 : index {aio.at = 5 : i64}
  } {aio.at = 5 : i64}
  %20 = arith.constant 2147483648 : index {aio.at = 5 : i64}
  %21 = arith.cmpi ule, %14, %20 : index {aio.at = 5 : i64}
  cf.assert %21, \"parallel loop failed\" {aio.at = 5 : i64}
  %22 = arith.cmpi ule, %14, %20 : index {aio.at = 5 : i64}
  cf.assert %22, \"parallel loop failed\" {aio.at = 5 : i64}
  %23 = arith.cmpi sle, %3, %1 : index {aio.at = 5 : i64}
  %24 = scf.if %23 -> index {
    %25 = arith.constant 0 : index {aio.at = 5 : i64}
    scf.yield %25 : index {aio.at = 5 : i64}
  } else {
    %26 = arith.subi %3, %1 : index {aio.at = 5 : i64}
    %27 = arith.constant 1 : index {aio.at = 5 : i64}
    %28 = arith.subi %26, %27 : index {aio.at = 5 : i64}
    %29 = arith.divui %28, %2 : index {aio.at = 5 : i64}
    %30 = arith.addi %29, %27 : index {aio.at = 5 : i64}
    scf.yield %30 : index {aio.at = 5 : i64}
  } {aio.at = 5 : i64}
  %31 = arith.constant 0 : index {aio.at = 5 : i64}
  %32 = arith.cmpi sgt, %24, %31 : index {aio.at = 5 : i64}
  %33 = scf.if %32 -> i1 {
    %34 = arith.constant 4 : index {aio.at = 5 : i64}
    %35 = arith.addi %24, %34 : index {aio.at = 5 : i64}
    %36 = arith.constant 1 : index {aio.at = 5 : i64}
    %37 = arith.subi %35, %36 : index {aio.at = 5 : i64}
    %38 = arith.divui %37, %34 : index {aio.at = 5 : i64}
    %39 = arith.constant 3 : index {aio.at = 5 : i64}
    %40 = arith.maxui %38, %39 : index {aio.at = 5 : i64}
    %41 = arith.minui %24, %40 : index {aio.at = 5 : i64}
    %42 = arith.addi %24, %41 : index {aio.at = 5 : i64}
    %43 = arith.subi %42, %36 : index {aio.at = 5 : i64}
    %44 = arith.divui %43, %41 : index {aio.at = 5 : i64}
    %45 = arith.cmpi eq, %44, %36 : index {aio.at = 5 : i64}
    %46 = scf.if %45 -> i1 {
      %47 = func.call @aio.block.0(%31, %41, %24, %1, %2, %24, %0) : (index, index, index, index, index, index, memref<10xindex>) -> i1 {aio.at = 5 : i64}
      scf.yield %47 : i1 {aio.at = 5 : i64}
    } else {
      %48 = arith.subi %44, %36 : index {aio.at = 5 : i64}
      %49 = async.create_group %48 : !async.group {aio.at = 5 : i64}
      %50 = func.call @aio.dispatch.0(%49, %31, %44, %41, %24, %1, %2, %24, %0) : (!async.group, index, index, index, index, index, index, index, memref<10xindex>) -> i1 {aio.at = 5 : i64}
      async.await_all %49 {aio.at = 5 : i64}
      scf.yield %50 : i1 {aio.at = 5 : i64}
    } {aio.at = 5 : i64}
    scf.yield %46 : i1 {aio.at = 5 : i64}
  } else {
    %51 = arith.constant true {aio.at = 5 : i64}
    scf.yield %51 : i1 {aio.at = 5 : i64}
  } {aio.at = 5 : i64}
  cf.assert %33, \"parallel loop failed\" {aio.at = 5 : i64}
  func.return {aio.at = 8 : i64}
}
func.func @aio.body.0(%0 : index, %1 : memref<10xindex>) attributes {aio.at = 5 : i64} {
  %2 = arith.constant 0 : index {aio.at = 6 : i64}
  %3 = memref.dim %1, %2 : memref<10xindex> {aio.at = 6 : i64}
  %4 = arith.cmpi ult, %0, %3 : index {aio.at = 6 : i64}
  cf.assert %4, \"index out of range\" {aio.at = 6 : i64}
  memref.store %0, %1[%0] : memref<10xindex> {aio.at = 6 : i64}
  func.return {aio.at = 5 : i64}
}
func.func @aio.block.0(%0 : index, %1 : index, %2 : index, %3 : index, %4 : index, %5 : index, %6 : memref<10xindex>) -> i1 attributes {aio.at = 5 : i64} {
  %7 = arith.muli %0, %1 : index {aio.at = 5 : i64}
  %8 = arith.addi %7, %1 : index {aio.at = 5 : i64}
  %9 = arith.minui %8, %2 : index {aio.at = 5 : i64}
  %10 = arith.constant 1 : index {aio.at = 5 : i64}
  %11 = arith.constant true {aio.at = 5 : i64}
  %12 = scf.for %13 = %7 to %9 step %10 iter_args(%14 = %11) -> (i1) {
    %15 = arith.muli %13, %4 : index {aio.at = 5 : i64}
    %16 = arith.addi %3, %15 : index {aio.at = 5 : i64}
    %17 = aio.try_call @aio.body.0(%16, %6) : (index, memref<10xindex>) -> i1 {aio.at = 5 : i64}
    %18 = arith.andi %14, %17 : i1 {aio.at = 5 : i64}
    scf.yield %18 : i1 {aio.at = 5 : i64}
  } {aio.at = 5 : i64}
  func.return %12 : i1 {aio.at = 5 : i64}
}
func.func @aio.dispatch.0(%0 : !async.group, %1 : index, %2 : index, %3 : index, %4 : index, %5 : index, %6 : index, %7 : index, %8 : memref<10xindex>) -> i1 attributes {aio.at = 5 : i64} {
  %9 = scf.while (%10 = %2) : (index) -> index {
    %11 = arith.subi %10, %1 : index {aio.at = 5 : i64}
    %12 = arith.constant 1 : index {aio.at = 5 : i64}
    %13 = arith.cmpi sgt, %11, %12 : index {aio.at = 5 : i64}
    scf.condition(%13) %10 : index {aio.at = 5 : i64}
  } do {
    ^b(%14 : index) :
    %15 = arith.subi %14, %1 : index {aio.at = 5 : i64}
    %16 = arith.constant 2 : index {aio.at = 5 : i64}
    %17 = arith.divui %15, %16 : index {aio.at = 5 : i64}
    %18 = arith.addi %1, %17 : index {aio.at = 5 : i64}
    %19 = async.execute {
      %20 = func.call @aio.dispatch.0(%0, %18, %14, %3, %4, %5, %6, %7, %8) : (!async.group, index, index, index, index, index, index, index, memref<10xindex>) -> i1 {aio.at = 5 : i64}
      cf.assert %20, \"parallel loop failed\" {aio.at = 5 : i64}
      async.yield {aio.at = 5 : i64}
    } {aio.at = 5 : i64}
    %21 = async.add_to_group %19, %0 : !async.token {aio.at = 5 : i64}
    scf.yield %18 : index {aio.at = 5 : i64}
  } {aio.at = 5 : i64}
  %22 = func.call @aio.block.0(%1, %3, %4, %5, %6, %7, %8) : (index, index, index, index, index, index, memref<10xindex>) -> i1 {aio.at = 5 : i64}
  func.return %22 : i1 {aio.at = 5 : i64}
}
",
        runtime: "func.func @main(%0 : memref<10xindex>) {
^bb0:
  %1 = arith.constant 0 : index
  %2 = arith.constant 1 : index
  %3 = arith.constant 10 : index
  %4 = arith.constant -4611686018427387904 : index
  %5 = arith.cmpi sge, %1, %4 : index
  cf.cond_br %5, ^bb1, ^bb25
^bb1:
  %6 = arith.constant 4611686018427387904 : index
  %7 = arith.cmpi sle, %1, %6 : index
  cf.cond_br %7, ^bb2, ^bb26
^bb2:
  %8 = arith.cmpi sge, %3, %4 : index
  cf.cond_br %8, ^bb3, ^bb27
^bb3:
  %9 = arith.cmpi sle, %3, %6 : index
  cf.cond_br %9, ^bb4, ^bb28
^bb4:
  %10 = arith.constant 1 : index
  %11 = arith.cmpi sge, %2, %10 : index
  cf.cond_br %11, ^bb5, ^bb29
^bb5:
  %12 = arith.cmpi sle, %2, %6 : index
  cf.cond_br %12, ^bb6, ^bb30
^bb6:
  %13 = arith.cmpi sle, %3, %1 : index
  cf.cond_br %13, ^bb7, ^bb8
^bb7:
  %14 = arith.constant 0 : index
  cf.br ^bb9(%14 : index)
^bb8:
  %15 = arith.subi %3, %1 : index
  %16 = arith.subi %15, %10 : index
  %17 = arith.divui %16, %2 : index
  %18 = arith.addi %17, %10 : index
  cf.br ^bb9(%18 : index)
^bb9(%19: index):
  %20 = arith.constant 2147483648 : index
  %21 = arith.cmpi ule, %19, %20 : index
  cf.cond_br %21, ^bb10, ^bb31
^bb10:
  %22 = arith.cmpi ule, %19, %20 : index
  cf.cond_br %22, ^bb11, ^bb32
^bb11:
  %23 = arith.cmpi sle, %3, %1 : index
  cf.cond_br %23, ^bb12, ^bb13
^bb12:
  %24 = arith.constant 0 : index
  cf.br ^bb14(%24 : index)
^bb13:
  %25 = arith.subi %3, %1 : index
  %26 = arith.constant 1 : index
  %27 = arith.subi %25, %26 : index
  %28 = arith.divui %27, %2 : index
  %29 = arith.addi %28, %26 : index
  cf.br ^bb14(%29 : index)
^bb14(%30: index):
  %31 = arith.constant 0 : index
  %32 = arith.cmpi sgt, %30, %31 : index
  cf.cond_br %32, ^bb15, ^bb22
^bb15:
  %33 = arith.constant 4 : index
  %34 = arith.addi %30, %33 : index
  %35 = arith.constant 1 : index
  %36 = arith.subi %34, %35 : index
  %37 = arith.divui %36, %33 : index
  %38 = arith.constant 3 : index
  %39 = arith.maxui %37, %38 : index
  %40 = arith.minui %30, %39 : index
  %41 = arith.addi %30, %40 : index
  %42 = arith.subi %41, %35 : index
  %43 = arith.divui %42, %40 : index
  %44 = arith.cmpi eq, %43, %35 : index
  cf.cond_br %44, ^bb16, ^bb18
^bb16:
  aio.call @aio.block.0(%31, %40, %30, %1, %2, %30, %0) : (index, index, index, index, index, index, memref<10xindex>) -> i1, ^bb17, ^bb33
^bb17(%45: i1):
  cf.br ^bb21(%45 : i1)
^bb18:
  %46 = arith.subi %43, %35 : index
  %47 = async.runtime.create_group %46 : !async.group
  aio.call @aio.dispatch.0(%47, %31, %43, %40, %30, %1, %2, %30, %0) : (!async.group, index, index, index, index, index, index, index, memref<10xindex>) -> i1, ^bb19, ^bb34
^bb19(%48: i1):
  async.runtime.await %47 : !async.group
  %49 = async.runtime.is_error %47 : !async.group
  cf.cond_br %49, ^bb35, ^bb20
^bb20:
  cf.br ^bb21(%48 : i1)
^bb21(%50: i1):
  cf.br ^bb23(%50 : i1)
^bb22:
  %51 = arith.constant true
  cf.br ^bb23(%51 : i1)
^bb23(%52: i1):
  cf.cond_br %52, ^bb24, ^bb36
^bb24:
  func.return
^bb25:
  %53 = arith.constant 5 : i64
  aio.fail %53
^bb26:
  %54 = arith.constant 5 : i64
  aio.fail %54
^bb27:
  %55 = arith.constant 5 : i64
  aio.fail %55
^bb28:
  %56 = arith.constant 5 : i64
  aio.fail %56
^bb29:
  %57 = arith.constant 5 : i64
  aio.fail %57
^bb30:
  %58 = arith.constant 5 : i64
  aio.fail %58
^bb31:
  %59 = arith.constant 5 : i64
  aio.fail %59
^bb32:
  %60 = arith.constant 5 : i64
  aio.fail %60
^bb33(%61: i64):
  aio.fail %61
^bb34(%62: i64):
  aio.fail %62
^bb35:
  %63 = arith.constant 5 : i64
  aio.fail %63
^bb36:
  %64 = arith.constant 5 : i64
  aio.fail %64
}
func.func private @aio.body.0(%0 : index, %1 : memref<10xindex>) {
^bb0:
  %2 = arith.constant 0 : index
  %3 = memref.dim %1, %2 : memref<10xindex>
  %4 = arith.cmpi ult, %0, %3 : index
  cf.cond_br %4, ^bb1, ^bb2
^bb1:
  memref.store %0, %1[%0] : memref<10xindex>
  func.return
^bb2:
  %5 = arith.constant 6 : i64
  aio.fail %5
}
func.func private @aio.block.0(%0 : index, %1 : index, %2 : index, %3 : index, %4 : index, %5 : index, %6 : memref<10xindex>) -> i1 {
^bb0:
  %7 = arith.muli %0, %1 : index
  %8 = arith.addi %7, %1 : index
  %9 = arith.minui %8, %2 : index
  %10 = arith.constant 1 : index
  %11 = arith.constant true
  cf.br ^bb1(%7, %11 : index, i1)
^bb1(%12: index, %13: i1):
  %14 = arith.cmpi slt, %12, %9 : index
  cf.cond_br %14, ^bb2, ^bb6
^bb2:
  %15 = arith.muli %12, %4 : index
  %16 = arith.addi %3, %15 : index
  aio.call @aio.body.0(%16, %6) : (index, memref<10xindex>) -> (), ^bb3, ^bb4
^bb3:
  %17 = arith.constant true
  cf.br ^bb5(%17 : i1)
^bb4(%18: i64):
  %19 = arith.constant false
  cf.br ^bb5(%19 : i1)
^bb5(%20: i1):
  %21 = arith.andi %13, %20 : i1
  %22 = arith.addi %12, %10 : index
  cf.br ^bb1(%22, %21 : index, i1)
^bb6:
  func.return %13 : i1
}
func.func private @aio.dispatch.0(%0 : !async.group, %1 : index, %2 : index, %3 : index, %4 : index, %5 : index, %6 : index, %7 : index, %8 : memref<10xindex>) -> i1 {
^bb0:
  cf.br ^bb1(%2 : index)
^bb1(%9: index):
  %10 = arith.subi %9, %1 : index
  %11 = arith.constant 1 : index
  %12 = arith.cmpi sgt, %10, %11 : index
  cf.cond_br %12, ^bb2(%9 : index), ^bb3(%9 : index)
^bb2(%13: index):
  %14 = arith.subi %13, %1 : index
  %15 = arith.constant 2 : index
  %16 = arith.divui %14, %15 : index
  %17 = arith.addi %1, %16 : index
  %18 = func.call @aio.task.0(%0, %3, %4, %5, %6, %7, %8, %13, %17) : (!async.group, index, index, index, index, index, memref<10xindex>, index, index) -> !async.token
  %19 = async.runtime.add_to_group %18, %0 : !async.token
  cf.br ^bb1(%17 : index)
^bb3(%20: index):
  aio.call @aio.block.0(%1, %3, %4, %5, %6, %7, %8) : (index, index, index, index, index, index, memref<10xindex>) -> i1, ^bb4, ^bb5
^bb4(%21: i1):
  func.return %21 : i1
^bb5(%22: i64):
  aio.fail %22
}
func.func private @aio.task.0(%0 : !async.group, %1 : index, %2 : index, %3 : index, %4 : index, %5 : index, %6 : memref<10xindex>, %7 : index, %8 : index) -> !async.token attributes {aio.coroutine} {
^bb0:
  %9 = async.runtime.create : !async.token
  %10 = async.coro.id
  %11 = async.coro.begin %10
  %12 = async.coro.save %11
  async.runtime.resume %11
  async.coro.suspend %12, ^bb6, ^bb1, ^bb5
^bb1:
  aio.call @aio.dispatch.0(%0, %8, %7, %1, %2, %3, %4, %5, %6) : (!async.group, index, index, index, index, index, index, index, memref<10xindex>) -> i1, ^bb2, ^bb7
^bb2(%13: i1):
  cf.cond_br %13, ^bb3, ^bb8
^bb3:
  async.runtime.set_available %9 : !async.token
  cf.br ^bb5
^bb4:
  async.runtime.set_error %9 : !async.token
  cf.br ^bb5
^bb5:
  async.coro.free %10, %11
  async.coro.end %11
  aio.finish
^bb6:
  async.coro.end %11
  func.return %9 : !async.token
^bb7(%14: i64):
  cf.br ^bb4
^bb8:
  cf.br ^bb4
}
",
        counted: "func.func @main(%0 : memref<10xindex>) {
^bb0:
  %1 = arith.constant 0 : index
  %2 = arith.constant 1 : index
  %3 = arith.constant 10 : index
  %4 = arith.constant -4611686018427387904 : index
  %5 = arith.cmpi sge, %1, %4 : index
  cf.cond_br %5, ^bb1, ^bb25
^bb1:
  %6 = arith.constant 4611686018427387904 : index
  %7 = arith.cmpi sle, %1, %6 : index
  cf.cond_br %7, ^bb2, ^bb26
^bb2:
  %8 = arith.cmpi sge, %3, %4 : index
  cf.cond_br %8, ^bb3, ^bb27
^bb3:
  %9 = arith.cmpi sle, %3, %6 : index
  cf.cond_br %9, ^bb4, ^bb28
^bb4:
  %10 = arith.constant 1 : index
  %11 = arith.cmpi sge, %2, %10 : index
  cf.cond_br %11, ^bb5, ^bb29
^bb5:
  %12 = arith.cmpi sle, %2, %6 : index
  cf.cond_br %12, ^bb6, ^bb30
^bb6:
  %13 = arith.cmpi sle, %3, %1 : index
  cf.cond_br %13, ^bb7, ^bb8
^bb7:
  %14 = arith.constant 0 : index
  cf.br ^bb9(%14 : index)
^bb8:
  %15 = arith.subi %3, %1 : index
  %16 = arith.subi %15, %10 : index
  %17 = arith.divui %16, %2 : index
  %18 = arith.addi %17, %10 : index
  cf.br ^bb9(%18 : index)
^bb9(%19: index):
  %20 = arith.constant 2147483648 : index
  %21 = arith.cmpi ule, %19, %20 : index
  cf.cond_br %21, ^bb10, ^bb31
^bb10:
  %22 = arith.cmpi ule, %19, %20 : index
  cf.cond_br %22, ^bb11, ^bb32
^bb11:
  %23 = arith.cmpi sle, %3, %1 : index
  cf.cond_br %23, ^bb12, ^bb13
^bb12:
  %24 = arith.constant 0 : index
  cf.br ^bb14(%24 : index)
^bb13:
  %25 = arith.subi %3, %1 : index
  %26 = arith.constant 1 : index
  %27 = arith.subi %25, %26 : index
  %28 = arith.divui %27, %2 : index
  %29 = arith.addi %28, %26 : index
  cf.br ^bb14(%29 : index)
^bb14(%30: index):
  %31 = arith.constant 0 : index
  %32 = arith.cmpi sgt, %30, %31 : index
  cf.cond_br %32, ^bb15, ^bb22
^bb15:
  %33 = arith.constant 4 : index
  %34 = arith.addi %30, %33 : index
  %35 = arith.constant 1 : index
  %36 = arith.subi %34, %35 : index
  %37 = arith.divui %36, %33 : index
  %38 = arith.constant 3 : index
  %39 = arith.maxui %37, %38 : index
  %40 = arith.minui %30, %39 : index
  %41 = arith.addi %30, %40 : index
  %42 = arith.subi %41, %35 : index
  %43 = arith.divui %42, %40 : index
  %44 = arith.cmpi eq, %43, %35 : index
  cf.cond_br %44, ^bb16, ^bb18
^bb16:
  aio.call @aio.block.0(%31, %40, %30, %1, %2, %30, %0) : (index, index, index, index, index, index, memref<10xindex>) -> i1, ^bb17, ^bb33
^bb17(%45: i1):
  cf.br ^bb21(%45 : i1)
^bb18:
  %46 = arith.subi %43, %35 : index
  %47 = async.runtime.create_group %46 : !async.group
  async.runtime.add_ref %47 {count = 1 : i64} : !async.group
  aio.call @aio.dispatch.0(%47, %31, %43, %40, %30, %1, %2, %30, %0) : (!async.group, index, index, index, index, index, index, index, memref<10xindex>) -> i1, ^bb19, ^bb34
^bb19(%48: i1):
  async.runtime.await %47 : !async.group
  %49 = async.runtime.is_error %47 : !async.group
  async.runtime.drop_ref %47 {count = 1 : i64} : !async.group
  cf.cond_br %49, ^bb35, ^bb20
^bb20:
  cf.br ^bb21(%48 : i1)
^bb21(%50: i1):
  cf.br ^bb23(%50 : i1)
^bb22:
  %51 = arith.constant true
  cf.br ^bb23(%51 : i1)
^bb23(%52: i1):
  cf.cond_br %52, ^bb24, ^bb36
^bb24:
  func.return
^bb25:
  %53 = arith.constant 5 : i64
  aio.fail %53
^bb26:
  %54 = arith.constant 5 : i64
  aio.fail %54
^bb27:
  %55 = arith.constant 5 : i64
  aio.fail %55
^bb28:
  %56 = arith.constant 5 : i64
  aio.fail %56
^bb29:
  %57 = arith.constant 5 : i64
  aio.fail %57
^bb30:
  %58 = arith.constant 5 : i64
  aio.fail %58
^bb31:
  %59 = arith.constant 5 : i64
  aio.fail %59
^bb32:
  %60 = arith.constant 5 : i64
  aio.fail %60
^bb33(%61: i64):
  aio.fail %61
^bb34(%62: i64):
  async.runtime.drop_ref %47 {count = 1 : i64} : !async.group
  aio.fail %62
^bb35:
  %63 = arith.constant 5 : i64
  aio.fail %63
^bb36:
  %64 = arith.constant 5 : i64
  aio.fail %64
}
func.func private @aio.body.0(%0 : index, %1 : memref<10xindex>) {
^bb0:
  %2 = arith.constant 0 : index
  %3 = memref.dim %1, %2 : memref<10xindex>
  %4 = arith.cmpi ult, %0, %3 : index
  cf.cond_br %4, ^bb1, ^bb2
^bb1:
  memref.store %0, %1[%0] : memref<10xindex>
  func.return
^bb2:
  %5 = arith.constant 6 : i64
  aio.fail %5
}
func.func private @aio.block.0(%0 : index, %1 : index, %2 : index, %3 : index, %4 : index, %5 : index, %6 : memref<10xindex>) -> i1 {
^bb0:
  %7 = arith.muli %0, %1 : index
  %8 = arith.addi %7, %1 : index
  %9 = arith.minui %8, %2 : index
  %10 = arith.constant 1 : index
  %11 = arith.constant true
  cf.br ^bb1(%7, %11 : index, i1)
^bb1(%12: index, %13: i1):
  %14 = arith.cmpi slt, %12, %9 : index
  cf.cond_br %14, ^bb2, ^bb6
^bb2:
  %15 = arith.muli %12, %4 : index
  %16 = arith.addi %3, %15 : index
  aio.call @aio.body.0(%16, %6) : (index, memref<10xindex>) -> (), ^bb3, ^bb4
^bb3:
  %17 = arith.constant true
  cf.br ^bb5(%17 : i1)
^bb4(%18: i64):
  %19 = arith.constant false
  cf.br ^bb5(%19 : i1)
^bb5(%20: i1):
  %21 = arith.andi %13, %20 : i1
  %22 = arith.addi %12, %10 : index
  cf.br ^bb1(%22, %21 : index, i1)
^bb6:
  func.return %13 : i1
}
func.func private @aio.dispatch.0(%0 : !async.group, %1 : index, %2 : index, %3 : index, %4 : index, %5 : index, %6 : index, %7 : index, %8 : memref<10xindex>) -> i1 {
^bb0:
  cf.br ^bb1(%2 : index)
^bb1(%9: index):
  %10 = arith.subi %9, %1 : index
  %11 = arith.constant 1 : index
  %12 = arith.cmpi sgt, %10, %11 : index
  cf.cond_br %12, ^bb2(%9 : index), ^bb3(%9 : index)
^bb2(%13: index):
  %14 = arith.subi %13, %1 : index
  %15 = arith.constant 2 : index
  %16 = arith.divui %14, %15 : index
  %17 = arith.addi %1, %16 : index
  async.runtime.add_ref %0 {count = 1 : i64} : !async.group
  %18 = func.call @aio.task.0(%0, %3, %4, %5, %6, %7, %8, %13, %17) : (!async.group, index, index, index, index, index, memref<10xindex>, index, index) -> !async.token
  %19 = async.runtime.add_to_group %18, %0 : !async.token
  async.runtime.drop_ref %18 {count = 1 : i64} : !async.token
  cf.br ^bb1(%17 : index)
^bb3(%20: index):
  async.runtime.drop_ref %0 {count = 1 : i64} : !async.group
  aio.call @aio.block.0(%1, %3, %4, %5, %6, %7, %8) : (index, index, index, index, index, index, memref<10xindex>) -> i1, ^bb4, ^bb5
^bb4(%21: i1):
  func.return %21 : i1
^bb5(%22: i64):
  aio.fail %22
}
func.func private @aio.task.0(%0 : !async.group, %1 : index, %2 : index, %3 : index, %4 : index, %5 : index, %6 : memref<10xindex>, %7 : index, %8 : index) -> !async.token attributes {aio.coroutine} {
^bb0:
  %9 = async.runtime.create : !async.token
  %10 = async.coro.id
  %11 = async.coro.begin %10
  %12 = async.coro.save %11
  async.runtime.resume %11
  async.coro.suspend %12, ^bb6, ^bb1, ^bb5
^bb1:
  async.runtime.add_ref %0 {count = 1 : i64} : !async.group
  async.runtime.drop_ref %0 {count = 1 : i64} : !async.group
  aio.call @aio.dispatch.0(%0, %8, %7, %1, %2, %3, %4, %5, %6) : (!async.group, index, index, index, index, index, index, index, memref<10xindex>) -> i1, ^bb2, ^bb7
^bb2(%13: i1):
  cf.cond_br %13, ^bb3, ^bb8
^bb3:
  async.runtime.set_available %9 : !async.token
  cf.br ^bb5
^bb4:
  async.runtime.set_error %9 : !async.token
  cf.br ^bb5
^bb5:
  async.coro.free %10, %11
  async.coro.end %11
  aio.finish
^bb6:
  async.coro.end %11
  func.return %9 : !async.token
^bb7(%14: i64):
  cf.br ^bb4
^bb8:
  cf.br ^bb4
}
",
    },
];
