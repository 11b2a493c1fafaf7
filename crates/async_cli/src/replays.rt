//! `replay`: a module and a journal of it, from bytes to the text of the run's end.

ghost use Rattle.std.specs.Prelude.{◌≡◌, ◌≤◌, ◌^◌, length, List, MatchResult, IfSome, Some};
ghost use Rattle.std.specs.Option.{option_copied};
ghost use Rattle.aio_base.specs.Whole.{Told};
ghost use Rattle.step_core.specs.declared.ends.Entry.{Entry as TheEntry};
ghost use Rattle.async_cli.specs.Calls.{Stands, held};
ghost use Rattle.async_cli.specs.Inputs.{input_limit};
ghost use Rattle.async_cli.specs.Words.{seen};
ghost use Rattle.async_cli.specs.Replays.{ReplayCauses, ReplayEnds, AreLines, IsReplayed, JournalStops, LineStops};

use crate::calls::{Loaded, read_call};
use crate::input::{INPUT_LIMIT, TEXT_LIMIT, read_input, split_input};
use crate::runs::replay_call;
use crate::serving::End;
use crate::stops::Stop;
use crate::tool_stops::ToolStop;
use crate::words::{Asked, Flags};
use aio_base::Source;
use run_journal::{JournalFault, read_journal};
use std::alloc::Global;
use step_core::Entry;

/// Reads a module and a journal, replays it, and makes the text of the end.
pub fn tell_replay<S: Source>(alloc: Global, asked: Asked, source: &mut S) -> Result<End, ToolStop>
    ensures { let told : Told = record {
      left = S.left source.old;
      left_after = S.left source.new;
      faults = S.faults source.old;
      faults_after = S.faults source.new;
    } in
        MatchResult result (λ end. ReplayEnds told (seen asked.entry) end.status end.text.items) (λ stop. ReplayCauses told (seen asked.entry) stop) }
{
    let bytes = match read_input(alloc, source, INPUT_LIMIT) {
        Ok(bytes) => bytes,
        Err(stop) => return Err(ToolStop::Shared(stop)),
    };
    let (text, journal) = split_input(&bytes);
    if text.len() > TEXT_LIMIT as usize {
        return Err(ToolStop::Shared(Stop::TooLong { limit: TEXT_LIMIT }));
    }
    match read_call(alloc, text, asked, false) {
        Ok(loaded) => tell_journal(alloc, &loaded, asked.flags, journal),
        Err(stop) => Err(ToolStop::Shared(stop)),
    }
}

/// Reads a journal, replays it over the code of a call, and makes the text of the end.
fn tell_journal(
    alloc: Global,
    loaded: &Loaded,
    flags: Flags,
    journal: Option<&[u8]>,
) -> Result<End, ToolStop>
    requires stands { Stands (held loaded.now) }
    requires within { IfSome (option_copied journal) (λ lines. length lines ≤ input_limit) }
    ensures { MatchResult result
        (λ end. (entries : List TheEntry) × (AreLines (option_copied journal.entry) entries × IsReplayed (held loaded.now) loaded.now.notes flags entries end.status end.text.items))
        (λ stop. JournalStops (held loaded.now) (option_copied journal.entry) stop) }
{
    match read_entries(alloc, journal) {
        Ok(entries) => replay_call(alloc, loaded, flags, entries.as_slice()),
        Err(stop) => Err(stop),
    }
}

/// The entries that stand behind the line `-- journal`, if there is one.
fn read_entries(alloc: Global, journal: Option<&[u8]>) -> Result<Vec<Entry>, ToolStop>
    requires { IfSome (option_copied journal) (λ lines. length lines ≤ input_limit) }
    ensures { MatchResult result (λ entries. AreLines (option_copied journal.entry) entries.items × (length entries.items ≤ 2 ^ 27)) (λ stop. LineStops (option_copied journal.entry) stop) }
{
    match journal {
        None => Err(ToolStop::BadLine { line: 0 }),
        Some(lines) => read_lines(alloc, lines),
    }
}

fn read_lines(alloc: Global, lines: &[u8]) -> Result<Vec<Entry>, ToolStop>
    requires { length lines.now ≤ input_limit }
    ensures { MatchResult result (λ entries. AreLines (Some lines.now) entries.items × (length entries.items ≤ 2 ^ 27)) (λ stop. LineStops (Some lines.now) stop) }
{
    match read_journal(alloc, lines) {
        Ok(entries) => Ok(entries),
        Err(JournalFault::BadLine { line }) => Err(ToolStop::BadLine { line }),
        Err(JournalFault::OutOfMemory) => Err(ToolStop::Shared(Stop::OutOfMemory)),
    }
}
