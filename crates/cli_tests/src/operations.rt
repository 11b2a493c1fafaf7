//! `source`: each operation of numbers at its edges, with the values computed by hand.
use crate::harness::{answer, words_of};
use std::alloc::Global;
use std::process::Abort;
use std::sync::Wait;
use std::test::Fail;
use std::thread::Threads;

// An operation, its type, its operands, and the result or the message.
const ARITHMETIC: &str = "addi i8 127 1 = -128
addi i8 -128 -1 = 127
addi i64 9223372036854775807 1 = -9223372036854775808
addi i1 true true = false
addi index -1 1 = 0
subi i8 -128 1 = 127
subi i1 false true = true
subi i64 0 -9223372036854775808 = -9223372036854775808
muli i8 16 16 = 0
muli i8 -128 -1 = -128
muli i16 256 255 = -256
muli i64 4294967296 4294967296 = 0
divsi i8 -7 2 = -3
divsi i8 7 -2 = -3
divsi i8 -128 1 = -128
divsi i8 -128 -1 = division has no result
divsi i64 -9223372036854775808 -1 = division has no result
divsi i1 true true = division has no result
divsi i8 1 0 = division has no result
divui i8 -1 2 = 127
divui i8 -128 -1 = 0
divui i1 true true = true
divui i64 1 0 = division has no result
remsi i8 -7 2 = -1
remsi i8 7 -2 = 1
remsi i8 -128 -1 = 0
remsi i64 -9223372036854775808 -1 = 0
remsi i8 1 0 = division has no result
remui i8 -1 16 = 15
remui i8 -128 -1 = -128
remui index 1 0 = division has no result
andi i8 -16 60 = 48
ori i8 -16 15 = -1
xori i8 -1 85 = -86
xori i1 true true = false
shli i8 1 7 = -128
shli i8 -1 4 = -16
shli i8 1 8 = shift out of range
shli i1 true false = true
shli i1 true true = shift out of range
shli i64 1 63 = -9223372036854775808
shli i64 1 64 = shift out of range
shrsi i8 -128 7 = -1
shrsi i8 127 6 = 1
shrsi i8 1 -1 = shift out of range
shrsi i16 -1 16 = shift out of range
shrui i8 -128 7 = 1
shrui i32 -1 31 = 1
shrui i32 -1 32 = shift out of range
shrui index -1 63 = 1
shrui index -1 64 = shift out of range
maxsi i8 -128 127 = 127
maxui i8 -128 127 = -128
minsi i8 -128 127 = -128
minui i8 -128 127 = 127
maxsi i1 true false = false
maxui i1 true false = true
minsi i1 true false = true
minui i1 true false = false
maxsi index -1 0 = 0
maxui index -1 0 = -1
minsi i64 -9223372036854775808 0 = -9223372036854775808
minui i64 -9223372036854775808 0 = 0
";

// `cmpi`, a type, two numbers, and the predicates that hold of them.
const COMPARISONS: &str = "cmpi i8 5 5 = eq sle sge ule uge
cmpi i8 -1 1 = ne slt sle ugt uge
cmpi i8 1 -1 = ne sgt sge ult ule
cmpi i8 -128 127 = ne slt sle ugt uge
cmpi i8 1 2 = ne slt sle ult ule
cmpi i1 true false = ne slt sle ugt uge
cmpi i64 -9223372036854775808 9223372036854775807 = ne slt sle ugt uge
cmpi index 0 -1 = ne sgt sge ult ule
";

const PREDICATES: [&str; 10] = [
    "eq", "ne", "slt", "sle", "sgt", "sge", "ult", "ule", "ugt", "uge",
];

// A cast, the two types, a number, and the result.
const CASTS: &str = "extsi i1 to i8 true = -1
extui i1 to i8 true = 1
extsi i8 to i64 -128 = -128
extui i8 to i64 -128 = 128
extsi i8 to i16 127 = 127
extui i32 to i64 -1 = 4294967295
trunci i64 to i8 384 = -128
trunci i16 to i8 255 = -1
trunci i64 to i1 2 = false
trunci i64 to i1 -1 = true
index_cast i1 to index true = -1
index_castui i1 to index true = 1
index_cast i8 to index -1 = -1
index_castui i8 to index -1 = 255
index_cast index to i8 511 = -1
index_castui index to i8 511 = -1
index_cast index to i1 2 = false
index_castui index to i1 3 = true
index_cast i64 to index -1 = -1
index_castui i64 to index -1 = -1
";

// Whether an answer is a result, and no message.
fn is_result(owed: &str) -> bool {
    let is_number = |byte: &u8| *byte == b'-' || byte.is_ascii_digit();
    owed == "true" || owed == "false" || owed.as_bytes().iter().all(is_number)
}

// `source` of this text with these arguments gives this result, or fails with this message at operation 2.
fn assert_gives<R: Abort + Threads + Wait + Sync>(
    rt: &R,
    alloc: Global,
    args: &str,
    text: &str,
    owed: &str,
) -> Result<(), Fail> {
    let words = words_of(alloc, format!(in alloc; "source --args={args}")?.as_str())?;
    let told = answer(rt, alloc, words.as_slice(), text.as_bytes())?;
    let wanted = if is_result(owed) {
        format!(in alloc; "0\nresult 0: {owed}\nrace: none\n")?
    } else {
        format!(in alloc; "1\nfailed at operation 2: {owed}\nrace: none\n")?
    };
    assert_eq!(rt; told.as_str(), wanted.as_str(), "{args} {text}");
    Ok(())
}

fn assert_arithmetic<R: Abort + Threads + Wait + Sync>(
    rt: &R,
    alloc: Global,
    op: &str,
    ty: &str,
    args: &str,
    owed: &str,
) -> Result<(), Fail> {
    let text = format!(in alloc;
        "func.func @main(%a: {ty}, %b: {ty}) -> {ty} {{ %r = arith.{op} %a, %b : {ty} return %r : {ty} }}"
    )?;
    assert_gives(rt, alloc, args, text.as_str(), owed)
}

fn assert_cast<R: Abort + Threads + Wait + Sync>(
    rt: &R,
    alloc: Global,
    op: &str,
    from: &str,
    to: &str,
    number: &str,
    owed: &str,
) -> Result<(), Fail> {
    let text = format!(in alloc;
        "func.func @main(%a: {from}) -> {to} {{ %r = arith.{op} %a : {from} to {to} return %r : {to} }}"
    )?;
    assert_gives(rt, alloc, number, text.as_str(), owed)
}

fn assert_comparisons<R: Abort + Threads + Wait + Sync>(
    rt: &R,
    alloc: Global,
    ty: &str,
    args: &str,
    holding: &str,
) -> Result<(), Fail> {
    for predicate in PREDICATES {
        let text = format!(in alloc;
            "func.func @main(%a: {ty}, %b: {ty}) -> i1 {{ %r = arith.cmpi {predicate}, %a, %b : {ty} return %r : i1 }}"
        )?;
        let holds = holding.split_whitespace().any(|word| word == predicate);
        let owed = if holds { "true" } else { "false" };
        assert_gives(rt, alloc, args, text.as_str(), owed)?;
    }
    Ok(())
}

fn assert_row<R: Abort + Threads + Wait + Sync>(
    rt: &R,
    alloc: Global,
    row: &str,
) -> Result<(), Fail> {
    let (given, owed) = row.split_once(" = ").ok_or("a row owes nothing")?;
    let words: Vec<&str> = given.split_whitespace().collect(alloc)?;
    match words.as_slice() {
        ["cmpi", ty, left, right] => {
            let args = format!(in alloc; "{left},{right}")?;
            assert_comparisons(rt, alloc, ty, args.as_str(), owed)
        }
        [op, ty, left, right] => {
            let args = format!(in alloc; "{left},{right}")?;
            assert_arithmetic(rt, alloc, op, ty, args.as_str(), owed)
        }
        [op, from, "to", to, number] => assert_cast(rt, alloc, op, from, to, number, owed),
        _ => Err("a row has other words".into()),
    }
}

#[test]
fn computes_at_the_edges(rt: HostRuntime) -> Result<(), Fail> {
    for table in [ARITHMETIC, COMPARISONS, CASTS] {
        for row in table.lines() {
            assert_row(&rt, rt.alloc(), row)?;
        }
    }
    Ok(())
}
