//! `check` and `compile`: one module, from bytes to what is told of it.

ghost use Rattle.std.specs.Prelude.{◌≡◌, ◌++◌, OnOk, MatchResult};
ghost use Rattle.aio_base.specs.Whole.{Told};
ghost use Rattle.async_cli.specs.declared.stops.Stop.TheVariants.{OutOfMemory};
ghost use Rattle.async_cli.specs.declared.tool_stops.ToolStop.TheVariants.{Shared};
ghost use Rattle.async_cli.specs.Calls.{IsListing};
ghost use Rattle.async_cli.specs.Checks.{CheckCauses, CheckEnds, CompileEnds, accepted_line, size_line};

use crate::calls::list;
use crate::input::{TEXT_LIMIT, read_input, read_module};
use crate::stops::Stop;
use crate::tool_stops::ToolStop;
use aio_base::Source;
use ir_forms::{Module, operation_count};
use ir_verify::Verified;
use pass_line::Options;
use run_report::push_two_numbered;
use std::alloc::{AllocError, Global};

/// Reads a module, and makes the line that tells how large it is.
pub fn tell_check<S: Source>(alloc: Global, source: &mut S) -> Result<Vec<u8>, ToolStop>
    ensures { let told : Told = record {
      left = S.left source.old;
      left_after = S.left source.new;
      faults = S.faults source.old;
      faults_after = S.faults source.new;
    } in
        MatchResult result (λ text. CheckEnds told text.items) (λ stop. CheckCauses told stop) }
{
    let bytes = match read_input(alloc, source, TEXT_LIMIT) {
        Ok(bytes) => bytes,
        Err(stop) => return Err(ToolStop::Shared(stop)),
    };
    match read_module(alloc, &bytes) {
        Ok(verified) => accepted_text(alloc, verified.module()),
        Err(stop) => Err(ToolStop::Shared(stop)),
    }
}

/// Reads a module, and makes the texts of the passes over it.
pub fn tell_compile<S: Source>(
    alloc: Global,
    options: Options,
    source: &mut S,
) -> Result<Vec<u8>, ToolStop>
    ensures { let told : Told = record {
      left = S.left source.old;
      left_after = S.left source.new;
      faults = S.faults source.old;
      faults_after = S.faults source.new;
    } in
        MatchResult result (λ text. CompileEnds options told text.items) (λ stop. CheckCauses told stop) }
{
    let bytes = match read_input(alloc, source, TEXT_LIMIT) {
        Ok(bytes) => bytes,
        Err(stop) => return Err(ToolStop::Shared(stop)),
    };
    match read_module(alloc, &bytes) {
        Ok(verified) => listed_text(alloc, options, verified),
        Err(stop) => Err(ToolStop::Shared(stop)),
    }
}

/// The texts of the passes over an accepted module.
fn listed_text(alloc: Global, options: Options, verified: Verified) -> Result<Vec<u8>, ToolStop>
    ensures { MatchResult result (λ text. IsListing options verified.program text.items) (λ stop. stop ≡ Shared OutOfMemory) }
{
    match list(alloc, verified, options) {
        Ok(text) => Ok(text),
        Err(_) => Err(ToolStop::Shared(Stop::OutOfMemory)),
    }
}

/// The line of an accepted module.
fn accepted_text(alloc: Global, program: &Module) -> Result<Vec<u8>, ToolStop>
    ensures { MatchResult result (λ text. text.items ≡ accepted_line program.now) (λ stop. stop ≡ Shared OutOfMemory) }
{
    let Some(operations) = operation_count(program) else {
        return Err(ToolStop::Shared(Stop::OutOfMemory));
    };
    let mut text = Vec::new(alloc);
    match push_size(&mut text, program.funcs.len() as u64, operations) {
        Ok(()) => Ok(text),
        Err(_) => Err(ToolStop::Shared(Stop::OutOfMemory)),
    }
}

fn push_size(text: &mut Vec<u8>, functions: u64, operations: u32) -> Result<(), AllocError>
    ensures { OnOk result (text.new.items ≡ text.old.items ++ size_line functions operations) }
{
    push_two_numbered(
        text,
        "ok: ",
        functions,
        " functions, ",
        u64::from(operations),
        " operations\n",
    )
}
