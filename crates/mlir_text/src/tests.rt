//! Texts with their modules and their faults.

mod faults;
mod forms;
mod shapes;
mod show;
mod whole;

use crate::{PROGRAM_LIMITS, TextFault, TextLimits, parse};
use ir_forms::{Level, Module};
use std::alloc::Global;
use std::process::Abort;
use std::test::Fail;

const MEBIBYTE: usize = 1 << 20;

/// `parse` of a text that is short enough, as each of these is.
fn read_within(
    rt: &impl Abort,
    alloc: Global,
    text: &[u8],
    limits: &TextLimits,
) -> Result<Module, TextFault> {
    assert!(rt; text.len() <= MEBIBYTE && limits.depth <= 512);
    parse(alloc, text, Level::Source, limits)
}

fn read(rt: &impl Abort, alloc: Global, text: &[u8]) -> Result<Module, TextFault> {
    read_within(rt, alloc, text, &PROGRAM_LIMITS)
}

/// The text reads as the module that is shown so.
fn assert_shown(rt: &impl Abort, alloc: Global, text: &str, wanted: &str) -> Result<(), Fail> {
    match read(rt, alloc, text.as_bytes()) {
        Ok(module) => {
            let shown = show::module(alloc, &module)?;
            assert_eq!(rt; shown.as_str(), wanted, "{text}");
        }
        Err(fault) => assert!(rt; false, "{fault}: {text}"),
    }
    Ok(())
}
