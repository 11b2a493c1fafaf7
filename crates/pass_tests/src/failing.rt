//! Modules that fail by each row of the checks, with arguments, and what their runs tell.

const BY_ZERO: &str = "failed at operation 2: division has no result\nrace: none\n";

const SHIFTED: &str = "failed at operation 2: shift out of range\nrace: none\n";

const INDEX: &str = "failed at operation 2: index out of range\nrace: none\n";

const SIZE: &str = "failed at operation 2: allocation out of range\nrace: none\n";

const BOUNDS: &str = "failed at operation 2: loop bounds out of range\nrace: none\n";

const LOOP: &str = "failed at operation 2: parallel loop failed\nrace: none\n";

/// A module, the arguments of its `main`, and what the run tells, before the pass and after it.
pub const FAILING: [(&str, &str, &str); 26] = [
    (
        "func.func @main(%a: i8, %b: i8) { %r = arith.divsi %a, %b : i8 return }",
        "7,0",
        BY_ZERO,
    ),
    (
        "func.func @main(%a: i8, %b: i8) { %r = arith.divsi %a, %b : i8 return }",
        "-128,-1",
        BY_ZERO,
    ),
    (
        "func.func @main(%a: i1, %b: i1) { %r = arith.divsi %a, %b : i1 return }",
        "true,true",
        BY_ZERO,
    ),
    (
        "func.func @main(%a: i64, %b: i64) { %r = arith.divui %a, %b : i64 return }",
        "7,0",
        BY_ZERO,
    ),
    (
        "func.func @main(%a: index, %b: index) { %r = arith.remsi %a, %b : index return }",
        "7,0",
        BY_ZERO,
    ),
    (
        "func.func @main(%a: i32, %b: i32) { %r = arith.remui %a, %b : i32 return }",
        "7,0",
        BY_ZERO,
    ),
    (
        "func.func @main(%a: i8, %b: i8) { %r = arith.shli %a, %b : i8 return }",
        "1,8",
        SHIFTED,
    ),
    (
        "func.func @main(%a: i16, %b: i16) { %r = arith.shrsi %a, %b : i16 return }",
        "1,16",
        SHIFTED,
    ),
    (
        "func.func @main(%a: i64, %b: i64) { %r = arith.shrui %a, %b : i64 return }",
        "1,-1",
        SHIFTED,
    ),
    (
        "func.func @main(%m: memref<2x3xi64>, %i: index, %j: index) { %r = memref.load %m[%i, %j] : memref<2x3xi64> return }",
        "[2x3:=0],2,0",
        INDEX,
    ),
    (
        "func.func @main(%m: memref<2x3xi64>, %i: index, %j: index) { %r = memref.load %m[%i, %j] : memref<2x3xi64> return }",
        "[2x3:=0],1,3",
        INDEX,
    ),
    (
        "func.func @main(%m: memref<?xi64>, %i: index, %x: i64) { memref.store %x, %m[%i] : memref<?xi64> return }",
        "[4:=0],4,1",
        INDEX,
    ),
    (
        "func.func @main(%m: memref<?xi64>, %i: index, %x: i64) { memref.store %x, %m[%i] : memref<?xi64> return }",
        "[4:=0],-1,1",
        INDEX,
    ),
    (
        "func.func @main(%m: memref<2x3xi64>, %i: index) { %r = memref.dim %m, %i : memref<2x3xi64> return }",
        "[2x3:=0],2",
        INDEX,
    ),
    (
        "func.func @main(%n: index) { %m = memref.alloc(%n) : memref<?xi64> return }",
        "16777217",
        SIZE,
    ),
    (
        "func.func @main(%n: index) { %m = memref.alloc(%n) : memref<?xi64> return }",
        "-1",
        SIZE,
    ),
    (
        "func.func @main(%n: index) { %m = memref.alloc(%n) : memref<4096x?xi64> return }",
        "4097",
        SIZE,
    ),
    (
        "func.func @main(%n: index) { %g = async.create_group %n : !async.group return }",
        "2147483649",
        "failed at operation 2: group size out of range\nrace: none\n",
    ),
    (
        "func.func @main(%l: index, %u: index, %s: index) { scf.for %i = %l to %u step %s { } return }",
        "0,4,0",
        BOUNDS,
    ),
    (
        "func.func @main(%l: index, %u: index, %s: index) { scf.for %i = %l to %u step %s { } return }",
        "-4611686018427387905,4,1",
        BOUNDS,
    ),
    (
        "func.func @main(%l: index, %u: index, %s: index) { scf.for %i = %l to %u step %s { } return }",
        "0,4611686018427387905,1",
        BOUNDS,
    ),
    (
        "func.func @main(%l: index, %u: index, %s: index) { scf.for %i = %l to %u step %s { } return }",
        "0,4,4611686018427387905",
        BOUNDS,
    ),
    (
        "func.func @main(%l: index, %u: index, %s: index) { scf.parallel (%i) = (%l) to (%u) step (%s) { scf.reduce } return }",
        "0,4,-1",
        LOOP,
    ),
    (
        "func.func @main(%l: index, %u: index, %s: index) { scf.parallel (%i) = (%l) to (%u) step (%s) { scf.reduce } return }",
        "0,2147483649,1",
        LOOP,
    ),
    (
        "func.func @main(%l: index, %u: index, %s: index) { scf.parallel (%i, %j) = (%l, %l) to (%u, %u) step (%s, %s) { scf.reduce } return }",
        "0,65536,1",
        LOOP,
    ),
    (
        "func.func @main(%a: i8) { %c = arith.constant true scf.if %c { %z = arith.subi %a, %a : i8 %r = arith.divui %a, %z : i8 } return }",
        "7",
        "failed at operation 5: division has no result\nrace: none\n",
    ),
];
