//! Runs and replays of a call's code, with their ends.

ghost use Rattle.std.specs.Prelude.{◌≡◌, ◌≤◌, ◌<◌, ◌^◌, ◌++◌, ℕ, List, [], length, IfOk, MatchResult};
ghost use Rattle.step_core.specs.Runs.{IsFinished};
ghost use Rattle.async_cli.specs.Calls.{Stands, held};
ghost use Rattle.async_cli.specs.Replays.{EntryListStops, IsReplayed};
ghost use Rattle.async_cli.specs.Runs.{Finishes, RunStops, TellsEnd};
ghost use Rattle.async_cli.specs.Runs as spec;
ghost use Rattle.async_cli.specs.Words.{AreBounds};

use crate::calls::{EntryCall, Loaded};
use crate::serving::End;
use crate::stops::Stop;
use crate::texts::{end_status, run_text};
use crate::tool_stops::ToolStop;
use crate::words::{Bounds, Flags};
use run_journal::{ReplayFault, replay, replays_within_are_possible};
use run_report::Notes;
use serial_run::{Outcome, drive};
use std::alloc::{AllocError, Global};
use step_core::{Core, Entry, Limits};

/// A run has so many tasks more than it may have objects.
const MORE_TASKS: u32 = 64;

/// The most cells of a run.
const MOST_CELLS: u32 = 16_777_216;

/// The most frames of a task.
const MOST_FRAMES: u32 = 1_024;

/// So many arguments fit into no text.
const MOST_ARGUMENTS: usize = 1 << 31;

/// A replay has no limit on objects and tasks but their numbers.
const REPLAY_LIMITS: Limits = Limits {
    objects: u32::MAX,
    tasks: u32::MAX,
    cells: MOST_CELLS,
    frames: MOST_FRAMES,
};

/// The limits of a run.
fn limits_of(bounds: Bounds) -> Limits
    requires { bounds.objects ≤ 65536 }
    ensures { result ≡ spec.limits_of bounds }
{
    Limits {
        objects: bounds.objects,
        tasks: bounds.objects + MORE_TASKS,
        cells: MOST_CELLS,
        frames: MOST_FRAMES,
    }
}

/// The answer after an outcome, where there is no end.
fn outcome_stop(outcome: Outcome, most: u32) -> Option<Stop>
    ensures { result ≡ spec.outcome_stop most outcome }
{
    match outcome {
        Outcome::Finished => None,
        Outcome::Short { parked } => Some(Stop::Short { parked }),
        Outcome::Stopped(limit) => Some(Stop::of_limit(limit)),
        Outcome::Spent => Some(Stop::Spent { entries: most }),
    }
}

/// Runs the code of a call, and makes the text of the run's end, behind what is printed before it.
pub(crate) fn run_printed(
    alloc: Global,
    loaded: &Loaded,
    bounds: Bounds,
    flags: Flags,
    journal: &mut Vec<Entry>,
) -> Result<End, Stop>
    requires stands { Stands (held loaded.now) }
    requires bounds { AreBounds bounds }
    requires empty { journal.old.items ≡ [] }
    ensures { MatchResult result
        (λ end. (text : List ℕ) × (Finishes (held loaded.now) loaded.now.notes flags journal.new.items end.status text × (end.text.items ≡ loaded.now.printed.items ++ text)))
        (λ stop. RunStops (held loaded.now) bounds journal.new.items stop) }
{
    match run_call(alloc, loaded, bounds, flags, journal) {
        Ok(end) => match put_behind(alloc, loaded.printed.as_slice(), end.text.as_slice()) {
            Ok(text) => Ok(End {
                status: end.status,
                text,
            }),
            Err(_) => Err(Stop::OutOfMemory),
        },
        Err(stop) => Err(stop),
    }
}

/// Two texts as one.
fn put_behind(alloc: Global, first: &[u8], second: &[u8]) -> Result<Vec<u8>, AllocError>
    ensures { IfOk result (λ text. text.items ≡ first.now ++ second.now) }
{
    let mut text = Vec::new(alloc);
    text.extend_from_slice(first)?;
    text.extend_from_slice(second)?;
    Ok(text)
}

/// Runs the code of a call, and makes the text of the run's end.
fn run_call(
    alloc: Global,
    loaded: &Loaded,
    bounds: Bounds,
    flags: Flags,
    journal: &mut Vec<Entry>,
) -> Result<End, Stop>
    requires stands { Stands (held loaded.now) }
    requires bounds { AreBounds bounds }
    requires empty { journal.old.items ≡ [] }
    ensures { MatchResult result (λ end. Finishes (held loaded.now) loaded.now.notes flags journal.new.items end.status end.text.items) (λ stop. RunStops (held loaded.now) bounds journal.new.items stop) }
{
    let EntryCall { function, values } = &loaded.call;
    if values.len() >= MOST_ARGUMENTS {
        return Err(Stop::OutOfMemory);
    }
    let limits = limits_of(bounds);
    let Ok(mut core) = Core::start(alloc, &loaded.low, *function, values.as_slice(), limits) else {
        return Err(Stop::OutOfMemory);
    };
    let Ok(outcome) = drive(alloc, &mut core, journal, bounds.entries) else {
        return Err(Stop::OutOfMemory);
    };
    match outcome_stop(outcome, bounds.entries) {
        Some(stop) => Err(stop),
        None => match end_of(alloc, &loaded.notes, flags, &core, journal.as_slice()) {
            Ok(end) => Ok(end),
            Err(_) => Err(Stop::OutOfMemory),
        },
    }
}

/// Replays entries over the code of a call, and makes the text of the end.
pub(crate) fn replay_call(
    alloc: Global,
    loaded: &Loaded,
    flags: Flags,
    entries: &[Entry],
) -> Result<End, ToolStop>
    requires stands { Stands (held loaded.now) }
    requires entries { length entries.now ≤ 2 ^ 27 }
    ensures { MatchResult result (λ end. IsReplayed (held loaded.now) loaded.now.notes flags entries.now end.status end.text.items) (λ stop. EntryListStops (held loaded.now) entries.now stop) }
{
    replays_within_are_possible();
    let EntryCall { function, values } = &loaded.call;
    if values.len() >= MOST_ARGUMENTS {
        return Err(ToolStop::Shared(Stop::OutOfMemory));
    }
    let core = match replay(
        alloc,
        &loaded.low,
        *function,
        values.as_slice(),
        entries,
        REPLAY_LIMITS,
    ) {
        Ok(core) => core,
        Err(ReplayFault::NotARun { entry, named, kept }) => {
            return Err(ToolStop::NotARun { entry, named, kept });
        }
        Err(ReplayFault::OutOfMemory) => return Err(ToolStop::Shared(Stop::OutOfMemory)),
    };
    if !core.finished() {
        return Err(ToolStop::Unfinished {
            entries: entries.len() as u32,
        });
    }
    match end_of(alloc, &loaded.notes, flags, &core, entries) {
        Ok(end) => Ok(end),
        Err(_) => Err(ToolStop::Shared(Stop::OutOfMemory)),
    }
}

/// The status and the text of the end of a finished run, with what the flags ask for.
fn end_of(
    alloc: Global,
    notes: &Notes,
    flags: Flags,
    core: &Core,
    journal: &[Entry],
) -> Result<End, AllocError>
    requires finished { IsFinished core.now.core }
    requires journal { length journal.now < 2 ^ 32 }
    ensures { IfOk result (λ end. TellsEnd notes.now flags core.now.core journal.now end.status end.text.items) }
{
    match core.end()? {
        Some(end) => {
            let text = run_text(alloc, notes, flags, &end, &core.counts(), journal)?;
            Ok(End {
                status: end_status(&end),
                text,
            })
        }
        None => unreachable!(),
    }
}
