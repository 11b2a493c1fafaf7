//! The code of a text.
ghost use Rattle.std.specs.Prelude.{length, ◌<◌, ◌^◌};

use ir_forms::{Level, operation_count, renumber};
use ir_verify::{VerifyFault, verify};
use low_forms::LowModule;
use mlir_text::{PROGRAM_LIMITS, TextFault, parse};
use pass_line::{Options, lower};
use std::alloc::Global;
use thiserror::Error;

/// For how many workers parallel loops are split, and how many iterations a block has at least.
const OPTIONS: Options = Options {
    workers: 8,
    least: 1_000,
};

/// Why a text has no code.
#[derive(Debug, Drop, Error)]
pub enum Fault {
    #[error("{0}")]
    Text(TextFault),
    #[error("{0}")]
    Verify(VerifyFault),
    #[error("its level is too late")]
    Level,
    #[error("out of memory")]
    OutOfMemory,
}

/// Makes the code of a text.
pub fn code_of(alloc: Global, text: &[u8]) -> Result<LowModule, Fault>
    requires { length text.now < 2 ^ 32 }
{
    let program = match parse(alloc, text, Level::Source, &PROGRAM_LIMITS) {
        Ok(program) => program,
        Err(fault) => return Err(Fault::Text(fault)),
    };
    if operation_count(&program).is_none() {
        return Err(Fault::OutOfMemory);
    }
    let verified = match verify(alloc, renumber(program)) {
        Ok(verified) => verified,
        Err(fault) => return Err(Fault::Verify(fault)),
    };
    if verified.level() <= Level::Checked {
        match lower(alloc, verified, OPTIONS) {
            Ok(code) => Ok(code),
            Err(_) => Err(Fault::OutOfMemory),
        }
    } else {
        Err(Fault::Level)
    }
}
