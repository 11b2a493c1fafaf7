//! From a verified module to what the run of its `main` tells.
use arguments::read_args;
use ir_verify::{Verified, entry_of};
use run_report::source_text;
use source_eval::evaluate;
use std::alloc::{AllocError, Global};
use std::test::Fail;

const FUEL: u32 = 1_000;

/// What the run of `main` with these arguments tells, races aside.
pub fn told(alloc: Global, module: &Verified, args: &str) -> Result<String, Fail> {
    if u32::try_from(module.module().funcs.len()).is_err() {
        return Err(AllocError.into());
    }
    let number = entry_of(module, b"main")?;
    let args = read_args(alloc, args)?;
    let run = evaluate(alloc, module, number, args.as_slice(), FUEL)?;
    let text = source_text(alloc, module.module(), &run, None)?;
    Ok(String::from_utf8(text)?)
}
