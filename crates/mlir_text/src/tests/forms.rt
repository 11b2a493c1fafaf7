//! Each form of the grammar, and what it reads as.

use super::assert_shown;
use std::test::Fail;

/// A form in the body of a function of parameters %a, %b, %c, %x, %m, %t, %v and %g, and the body shown.
const FORMS: [(&str, &str); 36] = [
    (
        "%r = arith.constant 5 : i64",
        "arith.constant#2 = 8 : i64 5; func.return#3; ",
    ),
    (
        "%r = arith.constant -0x1F : i8",
        "arith.constant#2 = 8 : i8 -31; func.return#3; ",
    ),
    (
        "%r = arith.constant true",
        "arith.constant#2 = 8 : i1 true; func.return#3; ",
    ),
    (
        "%r = arith.constant false",
        "arith.constant#2 = 8 : i1 false; func.return#3; ",
    ),
    (
        "%r = arith.addi %a, %b : i64",
        "arith.addi#2 0,1 of i64, i64 = 8 : i64; func.return#3; ",
    ),
    (
        "%r = arith.cmpi slt, %a, %b : i64",
        "arith.cmpi#2 0,1 of i64, i64 = 8 : i1 Slt; func.return#3; ",
    ),
    (
        "%r = arith.select %c, %a, %b : i64",
        "arith.select#2 2,0,1 of i64, i64 = 8 : i64; func.return#3; ",
    ),
    (
        "%r = arith.trunci %a : i64 to i8",
        "arith.trunci#2 0 of i64 = 8 : i8; func.return#3; ",
    ),
    (
        "%r = arith.index_cast %x : index to i64",
        "arith.index_cast#2 3 of index = 8 : i64; func.return#3; ",
    ),
    (
        "cf.assert %c, \"a\\\"b\\4F\\n\"",
        "cf.assert#2 2 \"a\"bO<10>\"; func.return#3; ",
    ),
    (
        "%r = func.call @g(%a, %x) : (i64, index) -> i64",
        "func.call#2 0,3 of i64, index = 8 : i64 @g; func.return#3; ",
    ),
    (
        "call @\"g h\"() : () -> ()",
        "func.call#2 @g h; func.return#3; ",
    ),
    (
        "%r:2 = call @g() : () -> (i64, i1) cf.assert %r#1, \"\"",
        "func.call#2 = 8,9 : i64, i1 @g; cf.assert#3 9 \"\"; func.return#4; ",
    ),
    (
        "%r, %s = call @g() : () -> (i64, i1)",
        "func.call#2 = 8,9 : i64, i1 @g; func.return#3; ",
    ),
    (
        "scf.for %i = %x to %x step %x { }",
        "scf.for#2 3,3,3 { 8:index scf.yield#3; }; func.return#4; ",
    ),
    (
        "%r = scf.for %i = %x to %x step %x iter_args(%p = %a) -> (i64) { scf.yield %p : i64 }",
        "scf.for#2 3,3,3,0 = 8 : i64 { 9:index 10:i64 scf.yield#3 10 of i64; }; func.return#4; ",
    ),
    (
        "scf.if %c { }",
        "scf.if#2 2 { scf.yield#3; } { }; func.return#4; ",
    ),
    (
        "scf.if %c { } else { }",
        "scf.if#2 2 { scf.yield#3; } { scf.yield#4; }; func.return#5; ",
    ),
    (
        "%r = scf.if %c -> i64 { scf.yield %a : i64 } else { scf.yield %b : i64 }",
        "scf.if#2 2 = 8 : i64 { scf.yield#3 0 of i64; } { scf.yield#4 1 of i64; }; func.return#5; ",
    ),
    (
        "scf.while : () -> () { scf.condition(%c) } do { scf.yield }",
        "scf.while#2 { scf.condition#3 2; } { scf.yield#4; }; func.return#5; ",
    ),
    (
        "%r = scf.while (%p = %a) : (i64) -> i64 { scf.condition(%c) %p : i64 } do { ^b(%q : i64) : scf.yield %q : i64 }",
        "scf.while#2 0 of i64 = 8 : i64 { 9:i64 scf.condition#3 2,9 of i64; } { 10:i64 scf.yield#4 10 of i64; }; func.return#5; ",
    ),
    (
        "scf.parallel (%i) = (%x) to (%x) step (%x) { }",
        "scf.parallel#2 3,3,3/1/1/1 { 8:index scf.reduce#3; }; func.return#4; ",
    ),
    (
        "scf.parallel (%i, %j) = (%x, %x) to (%x, %x) step (%x, %x) { scf.reduce }",
        "scf.parallel#2 3,3,3,3,3,3/2/2/2 { 8:index 9:index scf.reduce#3; }; func.return#4; ",
    ),
    (
        "scf.parallel (%i) = (%x) to (%x) step (%x) { scf.yield }",
        "scf.parallel#2 3,3,3/1/1/1 { 8:index scf.reduce#3; }; func.return#4; ",
    ),
    (
        "%r = memref.alloc(%x) : memref<?x4xi8>",
        "memref.alloc#2 3 = 8 : [? 4 i8]; func.return#3; ",
    ),
    (
        "memref.dealloc %m : memref<? x i 64>",
        "memref.dealloc#2 4 of [? i64]; func.return#3; ",
    ),
    (
        "%r = memref.load %m[%x] : memref<?xi64>",
        "memref.load#2 4,3 of [? i64] = 8 : i64; func.return#3; ",
    ),
    (
        "memref.store %a, %m[%x] : memref<?xi64>",
        "memref.store#2 0,4,3 of [? i64]; func.return#3; ",
    ),
    (
        "%r = memref.dim %m, %x : memref<?xi64>",
        "memref.dim#2 4,3 of [? i64] = 8 : index; func.return#3; ",
    ),
    (
        "%r = async.execute { }",
        "async.execute#2/0/0 = 8 : token { async.yield#3; }; func.return#4; ",
    ),
    (
        "%r, %s = async.execute [%t, %r] (%v as %u : !async.value<i64>) -> !async.value<i64> { async.yield %u : i64 }",
        "async.execute#2 5,unknown,6/2/1 of value i64 = 8,9 : token, value i64 { 10:i64 async.yield#3 10 of i64; }; func.return#4; ",
    ),
    (
        "%r = async.await %v : !async.value<i64>",
        "async.await#2 6 of value i64 = 8 : i64; func.return#3; ",
    ),
    (
        "async.await %t : !async.token",
        "async.await#2 5 of token; func.return#3; ",
    ),
    (
        "%r = async.create_group %x : !async.group",
        "async.create_group#2 3 = 8 : group; func.return#3; ",
    ),
    (
        "%r = async.add_to_group %t, %g : !async.token",
        "async.add_to_group#2 5,7 of token = 8 : index; func.return#3; ",
    ),
    ("async.await_all %g", "async.await_all#2 7; func.return#3; "),
];

#[test]
fn reads_each_form(rt: HostRuntime) -> Result<(), Fail> {
    let params =
        "%a: i64, %b: i64, %c: i1, %x: index, %m: memref<?xi64>, %t: !async.token, %v: !async.value<i64>, %g: !async.group";
    let shown = "0:i64 1:i64 2:i1 3:index 4:[? i64] 5:token 6:value i64 7:group";
    for (form, body) in FORMS {
        let text = format!(in rt.alloc(); "func.func @f({params}) {{ {form} return }}")?;
        let wanted = format!(in rt.alloc(); "@f#1 {shown}  {{ {body}}}\n")?;
        assert_shown(&rt, rt.alloc(), &text, &wanted)?;
    }
    Ok(())
}

/// Texts, and their modules.
const TEXTS: [(&str, &str); 22] = [
    ("", ""),
    ("// nothing\n module { }", ""),
    (
        "module @m attributes {a} { func.func @main() { return } }",
        "@main#1  { func.return#2; }\n",
    ),
    (
        "func.func private @f() { func.return }",
        "@f#1  { func.return#2; }\n",
    ),
    (
        "func.func public @\"a b\"() attributes {aio.at = 7 : i64, n = 99999999999999999999} { return }",
        "@a b#7  { func.return#2; }\n",
    ),
    (
        "func.func @f(%a: i64 {x = 1}, %1: i64) -> (i64, i64) { return %1, %a : i64, i64 }",
        "@f#1 0:i64 1:i64 -> i64, i64 { func.return#2 1,0 of i64, i64; }\n",
    ),
    (
        "func.func @f() -> () { return {aio.at = 4294967296 : i32} loc(\"x\":1:2) }",
        "@f#1  { func.return#2; }\n",
    ),
    (
        "func.func @f() { return {aio.at = 9 : i64, b = [1.5 : f32], aio.at = 0x8 : i64} }",
        "@f#1  { func.return#8; }\n",
    ),
    (
        "func.func @f() { %a = arith.constant 1 {a} : i64 {b} loc(\"x\") return }",
        "@f#1  { arith.constant#2 = 0 : i64 1; func.return#3; }\n",
    ),
    (
        "func.func @f() { return %a = arith.constant true }",
        "@f#1  { func.return#2; arith.constant#3 = 0 : i1 true; }\n",
    ),
    (
        "func.func @f() { return %a:2 = arith.constant true }",
        "@f#1  { func.return#2; arith.constant#3 = 0,1 : i1 true; }\n",
    ),
    (
        "func.func @f() { return %a, %b : i64, i64 }",
        "@f#1  { func.return#2 unknown,unknown of i64, i64; }\n",
    ),
    (
        "func.func @f(%a: i64) { %b = arith.addi %a#0, %b : i64 return }",
        "@f#1 0:i64  { arith.addi#2 unknown,unknown of i64, i64 = 1 : i64; func.return#3; }\n",
    ),
    (
        "func.func @f() { %a:1 = call @f() : () -> i64 %b = arith.addi %a#01, %a : i64 return }",
        "@f#1  { func.call#2 = 0 : i64 @f; arith.addi#3 unknown,0 of i64, i64 = 1 : i64; func.return#4; }\n",
    ),
    (
        "func.func @f() { %a:0 = arith.constant true return }",
        "@f#1  { arith.constant#2 : i1 true; func.return#3; }\n",
    ),
    (
        "func.func @f() { %a = async.execute { %a = arith.constant true async.yield } return }",
        "@f#1  { async.execute#2/0/0 = 0 : token { arith.constant#3 = 1 : i1 true; async.yield#4; }; func.return#5; }\n",
    ),
    (
        "func.func @f(%c: i1) { scf.if %c { return } return }",
        "@f#1 0:i1  { scf.if#2 0 { func.return#3; scf.yield#4; } { }; func.return#5; }\n",
    ),
    (
        "func.func @f(%x: index) { scf.parallel (%i) = (%x) to (%x) step (%x) { scf.yield %x : index } return }",
        "@f#1 0:index  { scf.parallel#2 0,0,0/1/1/1 { 1:index scf.yield#3 0 of index; scf.reduce#4; }; func.return#5; }\n",
    ),
    (
        "func.func @f(%x: index) { scf.for %i = %x to %x step %x iter_args(%p = %x, %q = %x) -> (index) { scf.yield %p : index } return }",
        "@f#1 0:index  { scf.for#2 0,0,0,0,0 : index { 1:index 2:index 3:untyped scf.yield#3 2 of index; }; func.return#4; }\n",
    ),
    (
        "func.func @f(%a: i64) { %t = async.execute (%a as %b : i64) { } return }",
        "@f#1 0:i64  { async.execute#2 0/0/1 of i64 = 1 : token { 2:untyped async.yield#3; }; func.return#4; }\n",
    ),
    (
        "func.func @f(%m: memref<02x0x!async.value<index>>, %n: !async.value<memref<4xi1>>) { return }",
        "@f#1 0:[2 0 value index] 1:value [4 i1]  { func.return#2; }\n",
    ),
    (
        "func.func @f() { } func.func @f() { return }",
        "@f#1  { }\n@f#2  { func.return#3; }\n",
    ),
];

#[test]
fn reads_each_text(rt: HostRuntime) -> Result<(), Fail> {
    for (text, wanted) in TEXTS {
        assert_shown(&rt, rt.alloc(), text, wanted)?;
    }
    Ok(())
}
