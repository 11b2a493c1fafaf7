//! The code of a text, and how much there is of it.
ghost use Rattle.std.specs.Prelude.{length, ◌<◌, ◌^◌};

use ir_forms::{Level, operation_count, renumber};
use ir_verify::{VerifyFault, verify};
use low_forms::LowModule;
use mlir_text::{PROGRAM_LIMITS, TextFault, parse};
use pass_line::{Options, lower};
use std::alloc::Global;
use thiserror::Error;

/// For how many workers parallel loops are split, and how many iterations a block has at least.
const OPTIONS: Options = Options {
    workers: 8,
    least: 1_000,
};

/// Why a text has no code.
#[derive(Debug, Drop, Error)]
pub enum Fault {
    #[error("{0}")]
    Text(TextFault),
    #[error("{0}")]
    Verify(VerifyFault),
    #[error("its level is too late")]
    Level,
    #[error("out of memory")]
    OutOfMemory,
}

/// How much code there is.
#[derive(Clone, Copy)]
pub struct Size {
    pub funcs: usize,
    pub blocks: u64,
    pub instrs: u64,
}

/// Counts what stands in code.
fn size_of(code: &LowModule) -> Size {
    let mut blocks: u64 = 0;
    let mut instrs: u64 = 0;
    for func in code.funcs.as_slice() {
        blocks = blocks.wrapping_add(func.blocks.len() as u64);
        for block in func.blocks.as_slice() {
            instrs = instrs.wrapping_add(block.instrs.len() as u64);
        }
    }
    Size {
        funcs: code.funcs.len(),
        blocks,
        instrs,
    }
}

/// Makes the code of a text, and tells how much there is.
pub fn code_of(alloc: Global, text: &[u8]) -> Result<Size, Fault>
    requires { length text.now < 2 ^ 32 }
{
    let program = match parse(alloc, text, Level::Source, &PROGRAM_LIMITS) {
        Ok(program) => program,
        Err(fault) => return Err(Fault::Text(fault)),
    };
    if operation_count(&program).is_none() {
        return Err(Fault::OutOfMemory);
    }
    let verified = match verify(alloc, renumber(program)) {
        Ok(verified) => verified,
        Err(fault) => return Err(Fault::Verify(fault)),
    };
    if verified.level() <= Level::Checked {
        match lower(alloc, verified, OPTIONS) {
            Ok(code) => Ok(size_of(&code)),
            Err(_) => Err(Fault::OutOfMemory),
        }
    } else {
        Err(Fault::Level)
    }
}
