//! Texts that nest deeply or are long.

use super::{MEBIBYTE, read};
use crate::{Limited, TextFault};
use ir_forms::operation_count;
use std::alloc::{AllocError, Global};
use std::test::Fail;

fn add(text: &mut Vec<u8>, part: &[u8], times: usize) -> Result<(), AllocError> {
    for _ in 0..times {
        text.extend_from_slice(part)?;
    }
    Ok(())
}

/// A function in which so many `scf.if` stand in one another.
fn nested(alloc: Global, times: usize) -> Result<Vec<u8>, AllocError> {
    let mut text = Vec::new(alloc);
    text.extend_from_slice(b"func.func @f(%c: i1) { ")?;
    add(&mut text, b"scf.if %c { ", times)?;
    add(&mut text, b"} ", times)?;
    text.extend_from_slice(b"return }")?;
    Ok(text)
}

/// A function's body is at depth 1.
#[test]
fn reads_regions_to_the_limit(rt: HostRuntime) -> Result<(), Fail> {
    let deep = nested(rt.alloc(), 63)?;
    assert!(rt; read(&rt, rt.alloc(), &deep).is_ok());
    let deeper = nested(rt.alloc(), 64)?;
    let fault = read(&rt, rt.alloc(), &deeper).err();
    let at = 23 + 63 * 12 + 10;
    assert_eq!(rt;
        fault,
        Some(TextFault::Limit {
            which: Limited::Depth,
            at
        })
    );
    Ok(())
}

/// A function with a dictionary of so many brackets in one another.
fn bracketed(alloc: Global, times: usize, closed: usize) -> Result<Vec<u8>, AllocError> {
    let mut text = Vec::new(alloc);
    text.extend_from_slice(b"func.func @f() attributes {a = ")?;
    add(&mut text, b"[", times)?;
    add(&mut text, b"]", closed)?;
    text.extend_from_slice(b"} { return }")?;
    Ok(text)
}

#[test]
fn reads_a_hundred_thousand_brackets(rt: HostRuntime) -> Result<(), Fail> {
    let text = bracketed(rt.alloc(), 100_000, 100_000)?;
    assert!(rt; read(&rt, rt.alloc(), &text).is_ok());
    let text = bracketed(rt.alloc(), 100_000, 99_999)?;
    let fault = read(&rt, rt.alloc(), &text).err();
    assert_eq!(rt; fault, Some(TextFault::Syntax { at: 31 + 199_999 }));
    Ok(())
}
