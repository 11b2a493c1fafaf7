//! Texts of about a mebibyte of several shapes. Each is read, printed, and read back.

use super::{MEBIBYTE, printed};
use std::alloc::{AllocError, Global};
use std::test::Fail;

/// A text that grows.
#[derive(Drop)]
struct Draft {
    bytes: Vec<u8>,
}

impl Draft {
    fn new(alloc: Global, head: &str) -> Result<Draft, AllocError> {
        let mut draft = Draft {
            bytes: Vec::new(alloc),
        };
        draft.add(head)?;
        Ok(draft)
    }

    fn add(&mut self, part: &str) -> Result<(), AllocError> {
        self.bytes.extend_from_slice(part.as_bytes())
    }

    fn add_number(&mut self, number: u32) -> Result<(), AllocError> {
        let mut buffer = itoa::Buffer::new();
        self.bytes
            .extend_from_slice(buffer.format(number).as_bytes())
    }

    fn add_all(&mut self, part: &str, times: u32) -> Result<(), AllocError> {
        for _ in 0..times {
            self.add(part)?;
        }
        Ok(())
    }
}

/// A function of additions, each of the sum before.
fn additions(alloc: Global, count: u32) -> Result<Draft, AllocError> {
    let mut draft = Draft::new(alloc, "func.func @f(%0 : i64) -> i64 {\n")?;
    for number in 0..count {
        draft.add("  %")?;
        draft.add_number(number + 1)?;
        draft.add(" = arith.addi %")?;
        draft.add_number(number)?;
        draft.add(", %0 : i64\n")?;
    }
    draft.add("  func.return %0 : i64\n}\n")?;
    Ok(draft)
}

#[test]
fn prints_many_additions(rt: HostRuntime) -> Result<(), Fail> {
    let draft = additions(rt.alloc(), 28_000)?;
    assert!(rt; draft.bytes.len() > MEBIBYTE - 65_536);
    let printed = printed(&rt, rt.alloc(), &draft.bytes)?;
    assert!(rt; printed.as_bytes() == draft.bytes.as_slice());
    Ok(())
}

/// A return of so many values, each with its type.
fn returned(alloc: Global, count: u32) -> Result<Draft, AllocError> {
    let mut draft = Draft::new(alloc, "func.func @f(%0 : i64) {\n  func.return %0")?;
    draft.add_all(", %0", count)?;
    draft.add(" : i64")?;
    draft.add_all(", i64", count)?;
    draft.add("\n}\n")?;
    Ok(draft)
}

#[test]
fn prints_long_lists(rt: HostRuntime) -> Result<(), Fail> {
    let draft = returned(rt.alloc(), 115_000)?;
    assert!(rt; draft.bytes.len() > MEBIBYTE - 65_536);
    let printed = printed(&rt, rt.alloc(), &draft.bytes)?;
    assert!(rt; printed.as_bytes() == draft.bytes.as_slice());
    Ok(())
}

/// A return behind which so many names are the results of a constant.
fn named(alloc: Global, count: u32) -> Result<Draft, AllocError> {
    let mut draft = Draft::new(alloc, "func.func @f() { return %0")?;
    for number in 1..count {
        draft.add(", %")?;
        draft.add_number(number)?;
    }
    draft.add(" = arith.constant 0 : i64 }")?;
    Ok(draft)
}

#[test]
fn prints_many_names_of_one_operation(rt: HostRuntime) -> Result<(), Fail> {
    let draft = named(rt.alloc(), 120_000)?;
    assert!(rt; draft.bytes.len() > MEBIBYTE - 131_072);
    let printed = printed(&rt, rt.alloc(), &draft.bytes)?;
    assert!(rt; printed.len() > draft.bytes.len());
    Ok(())
}

/// Functions in each of which branches stand in one another, 60 deep.
fn nested(alloc: Global, count: u32) -> Result<Draft, AllocError> {
    let mut draft = Draft::new(alloc, "")?;
    for number in 0..count {
        draft.add("func.func @f")?;
        draft.add_number(number)?;
        draft.add("(%c: i1) { ")?;
        draft.add_all("scf.if %c { ", 60)?;
        draft.add_all("} ", 60)?;
        draft.add("return }\n")?;
    }
    Ok(draft)
}

#[test]
fn prints_deep_regions(rt: HostRuntime) -> Result<(), Fail> {
    let draft = nested(rt.alloc(), 90)?;
    let printed = printed(&rt, rt.alloc(), &draft.bytes)?;
    assert!(rt; printed.len() > MEBIBYTE);
    Ok(())
}

/// Blanks, comments and what a dictionary drops, round one return.
fn padded(alloc: Global, times: u32) -> Result<Draft, AllocError> {
    let mut draft = Draft::new(alloc, "func.func @f() attributes {a = ")?;
    draft.add_all("[", times)?;
    draft.add_all("]", times)?;
    draft.add("} {\n")?;
    draft.add_all("  // a line that says nothing\n", times / 10)?;
    draft.add_all("          ", times / 10)?;
    draft.add("return loc(")?;
    draft.add_all("word ", times)?;
    draft.add(") }")?;
    Ok(draft)
}

#[test]
fn drops_what_says_nothing(rt: HostRuntime) -> Result<(), Fail> {
    let draft = padded(rt.alloc(), 100_000)?;
    assert!(rt; draft.bytes.len() > MEBIBYTE);
    let printed = printed(&rt, rt.alloc(), &draft.bytes)?;
    let wanted = "func.func @f() {\n  func.return\n}\n";
    assert_eq!(rt; printed.as_str(), wanted);
    Ok(())
}

/// One assertion with so many bytes that are written as two digits.
fn escaped(alloc: Global, count: u32) -> Result<Draft, AllocError> {
    let mut draft = Draft::new(alloc, "func.func @f(%0 : i1) {\n  cf.assert %0, \"")?;
    draft.add_all("\\00", count)?;
    draft.add("\"\n  func.return\n}\n")?;
    Ok(draft)
}

#[test]
fn prints_a_long_string(rt: HostRuntime) -> Result<(), Fail> {
    let draft = escaped(rt.alloc(), 350_000)?;
    assert!(rt; draft.bytes.len() > MEBIBYTE);
    let printed = printed(&rt, rt.alloc(), &draft.bytes)?;
    assert!(rt; printed.as_bytes() == draft.bytes.as_slice());
    Ok(())
}
