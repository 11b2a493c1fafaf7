//! `source`: one module, run in the order of its text, from bytes to what the run gives.

ghost use Rattle.std.specs.Prelude.{◌≡◌, ℕ, Option, MatchResult, IfOk};
ghost use Rattle.run_report.specs.Source as spec;
ghost use Rattle.async_cli.specs.declared.stops.Stop.TheVariants.{OutOfMemory};
ghost use Rattle.aio_base.specs.Whole.{Told};
ghost use Rattle.async_cli.specs.Answers.{EntryStops};
ghost use Rattle.async_cli.specs.Words.{seen};
ghost use Rattle.async_cli.specs.Sources.{IsRace, IsRun, IsReported, SourceEnds, SourceCauses};

use crate::input::{TEXT_LIMIT, args_said, entry_number, read_input, read_module};
use crate::serving::End;
use crate::stops::Stop;
use crate::tool_stops::ToolStop;
use crate::words::Asked;
use aio_base::Source;
use arguments::BadArgs;
use ir_forms::Module;
use ir_verify::Verified;
use race_order::first_race;
use run_report::{source_status, source_text};
use source_eval::evaluate;
use source_meaning::{SourceEnd, SourceRun};
use std::alloc::{AllocError, Global};

/// Reads a module, runs the entry that is asked for, and makes the text of what the run gives.
pub fn tell_source<S: Source>(alloc: Global, asked: Asked, source: &mut S) -> Result<End, ToolStop>
    ensures { let told : Told = record {
      left = S.left source.old;
      left_after = S.left source.new;
      faults = S.faults source.old;
      faults_after = S.faults source.new;
    } in
        MatchResult result (λ end. SourceEnds told (seen asked.entry) end.status end.text.items) (λ stop. SourceCauses told (seen asked.entry) stop) }
{
    let bytes = match read_input(alloc, source, TEXT_LIMIT) {
        Ok(bytes) => bytes,
        Err(stop) => return Err(ToolStop::Shared(stop)),
    };
    let verified = match read_module(alloc, &bytes) {
        Ok(verified) => verified,
        Err(stop) => return Err(ToolStop::Shared(stop)),
    };
    match run_source(alloc, &verified, asked) {
        Ok(end) => Ok(end),
        Err(stop) => Err(ToolStop::Shared(stop)),
    }
}

/// Runs the entry that is asked for, and reports the run.
fn run_source(alloc: Global, verified: &Verified, asked: Asked) -> Result<End, Stop>
    ensures { MatchResult result (λ end. IsReported verified.now.program (seen asked.entry) end.status end.text.items) (λ stop. EntryStops verified.now.program (seen asked.entry) stop) }
{
    match evaluate_asked(alloc, verified, asked) {
        Ok(run) => report(alloc, verified.module(), &run),
        Err(stop) => Err(stop),
    }
}

/// The run of the entry that is asked for.
fn evaluate_asked(alloc: Global, verified: &Verified, asked: Asked) -> Result<SourceRun, Stop>
    ensures { MatchResult result (λ run. IsRun verified.now.program (seen asked.entry) run.end run.trace.entries) (λ stop. EntryStops verified.now.program (seen asked.entry) stop) }
{
    let number = match entry_number(verified, asked.entry) {
        Ok(number) => number,
        Err(stop) => return Err(stop),
    };
    let Ok(args) = args_said(alloc, asked.args) else {
        return Err(Stop::OutOfMemory);
    };
    match evaluate(alloc, verified, number, args.as_slice(), asked.fuel) {
        Ok(run) => Ok(run),
        Err(BadArgs::Argument { at }) => Err(Stop::unfit(at)),
        Err(BadArgs::OutOfMemory) => Err(Stop::OutOfMemory),
    }
}

/// The first race of a run that ended by its root. One that was stopped is asked for none: a loop of too many iterations may have
/// been entered.
fn race_of(alloc: Global, run: &SourceRun) -> Result<Option<(usize, usize)>, AllocError>
    ensures { IfOk result (λ race. IsRace (spec.has_ended run.now.end) run.now.trace.entries race) }
{
    match &run.end {
        SourceEnd::Done { .. } | SourceEnd::Failed { .. } => first_race(alloc, &run.trace),
        _ => Ok(None),
    }
}

/// The status and the text of a run, with its first race.
fn report(alloc: Global, program: &Module, run: &SourceRun) -> Result<End, Stop>
    ensures { MatchResult result (λ end. (race : Option (ℕ × ℕ)) × (IsRace (spec.has_ended run.now.end) run.now.trace.entries race × ((end.status ≡ spec.source_status run.now.end race) × (end.text.items ≡ spec.source_text program.now run.now.end run.now.trace.entries race)))) (λ stop. stop ≡ OutOfMemory) }
{
    let Ok(race) = race_of(alloc, run) else {
        return Err(Stop::OutOfMemory);
    };
    match source_text(alloc, program, run, race) {
        Ok(text) => Ok(End {
            status: source_status(&run.end, race),
            text,
        }),
        Err(_) => Err(Stop::OutOfMemory),
    }
}
