//! The status and the text of a sequential run.

ghost use Rattle.std.specs.Prelude.{◌≡◌, ◌++◌, [], OnOk, IfOk, codes, decimal, slice_get, Some};
ghost use Rattle.run_report.specs.Source as spec;
ghost use Rattle.run_report.specs.Source.{steps_text, path_text, made_text, use_text, action_text, entry_line, race_text, group_line, end_text, end_status, has_ended};

use crate::messages::note_at;
use crate::texts::{push_buffers, push_failed, push_numbered, push_results, push_two_numbered};
use ir_forms::{Action, MadeName, Module, TraceEntry};
use source_meaning::{SourceEnd, SourceRun};
use std::alloc::{AllocError, Global};

/// Adds the steps of a path, each behind a dot.
fn push_steps(text: &mut Vec<u8>, path: &[u32]) -> Result<(), AllocError>
    ensures { OnOk result (text.new.items ≡ text.old.items ++ steps_text path.now) }
{
    for step in path {
        push_numbered(text, ".", u64::from(*step), "")?;
    }
    Ok(())
}

fn push_path(text: &mut Vec<u8>, path: &[u32]) -> Result<(), AllocError>
    ensures { OnOk result (text.new.items ≡ text.old.items ++ path_text path.now) }
{
    text.extend_from_slice(b"root")?;
    push_steps(text, path)
}

/// Adds the name of a buffer or a group.
fn push_made(text: &mut Vec<u8>, name: &MadeName) -> Result<(), AllocError>
    ensures { OnOk result (text.new.items ≡ text.old.items ++ made_text name.now) }
{
    match name {
        MadeName::Argument { parameter } => push_numbered(text, "arg", u64::from(*parameter), ""),
        MadeName::Made { task, action } => {
            push_path(text, task.as_slice())?;
            push_numbered(text, ":", u64::from(*action), "")
        }
    }
}

/// Adds a cell's name behind what is done there.
fn push_cell(text: &mut Vec<u8>, done: &str, buffer: &MadeName, cell: u32) -> Result<(), AllocError>
    ensures { OnOk result (text.new.items ≡ text.old.items ++ done.now ++ made_text buffer.now ++ codes "[" ++ decimal cell ++ codes "]") }
{
    text.extend_from_slice(done.as_bytes())?;
    push_made(text, buffer)?;
    push_numbered(text, "[", u64::from(cell), "]")
}

fn push_action(text: &mut Vec<u8>, action: &Action) -> Result<(), AllocError>
    ensures { OnOk result (text.new.items ≡ text.old.items ++ action_text action.now) }
{
    match action {
        Action::Read(buffer, cell) => push_cell(text, "read ", buffer, *cell),
        Action::Write(buffer, cell) => push_cell(text, "write ", buffer, *cell),
        Action::Add(group, _, used) => {
            text.extend_from_slice(b"add ")?;
            push_made(text, group)?;
            push_use(text, *used)
        }
        _ => Ok(()),
    }
}

fn push_use(text: &mut Vec<u8>, used: bool) -> Result<(), AllocError>
    ensures { OnOk result (text.new.items ≡ text.old.items ++ use_text used) }
{
    if used {
        text.extend_from_slice(b" used")
    } else {
        text.extend_from_slice(b" unused")
    }
}

/// Adds the line of an entry that stands at this place of a trace.
fn push_taken(text: &mut Vec<u8>, place: usize, entry: &TraceEntry) -> Result<(), AllocError>
    ensures { OnOk result (text.new.items ≡ text.old.items ++ entry_line place (Some entry.now)) }
{
    push_numbered(text, "entry ", place as u64, ": task ")?;
    push_path(text, entry.task.as_slice())?;
    text.extend_from_slice(b" ")?;
    push_action(text, &entry.action)?;
    text.extend_from_slice(b"\n")?;
    Ok(())
}

/// Adds the line of the entry at a place of a trace.
fn push_entry(text: &mut Vec<u8>, place: usize, trace: &[TraceEntry]) -> Result<(), AllocError>
    ensures { OnOk result (text.new.items ≡ text.old.items ++ entry_line place (slice_get trace.now place)) }
{
    match trace.get(place) {
        Some(entry) => push_taken(text, place, entry),
        None => Ok(()),
    }
}

fn push_race(
    text: &mut Vec<u8>,
    trace: &[TraceEntry],
    race: (usize, usize),
) -> Result<(), AllocError>
    ensures { OnOk result (text.new.items ≡ text.old.items ++ race_text trace.now race.0 race.1) }
{
    let (earlier, later) = race;
    push_two_numbered(
        text,
        "race: entries ",
        earlier as u64,
        " and ",
        later as u64,
        "\n",
    )?;
    push_entry(text, earlier, trace)?;
    push_entry(text, later, trace)?;
    Ok(())
}

fn push_group(text: &mut Vec<u8>, group: &MadeName) -> Result<(), AllocError>
    ensures { OnOk result (text.new.items ≡ text.old.items ++ codes "stopped: group " ++ made_text group.now) }
{
    text.extend_from_slice(b"stopped: group ")?;
    push_made(text, group)
}

/// Adds the text of an end.
fn push_end(text: &mut Vec<u8>, program: &Module, end: &SourceEnd) -> Result<(), AllocError>
    ensures { OnOk result (text.new.items ≡ text.old.items ++ end_text program.now end.now) }
{
    match end {
        SourceEnd::Done { results, buffers } => {
            push_results(text, results.as_slice())?;
            push_buffers(text, buffers.as_slice())?;
            text.extend_from_slice(b"race: none\n")
        }
        SourceEnd::Failed { op } => {
            push_failed(text, *op, note_at(program, *op))?;
            text.extend_from_slice(b"race: none\n")
        }
        SourceEnd::Short { group, added, size } => {
            push_group(text, group)?;
            push_two_numbered(text, " has ", *added, " of ", *size, " elements\n")
        }
        SourceEnd::Overfull { group, size } => {
            push_group(text, group)?;
            push_numbered(text, " is full at ", *size, "\n")
        }
        SourceEnd::Cells { used } => {
            push_numbered(text, "stopped: cells ", u64::from(*used), "\n")
        }
        SourceEnd::Spent { fuel } => push_numbered(text, "stopped: fuel ", u64::from(*fuel), "\n"),
    }
}

fn end_status(end: &SourceEnd) -> u8
    ensures { result ≡ end_status end.now }
{
    match end {
        SourceEnd::Done { .. } => 0,
        SourceEnd::Failed { .. } => 1,
        SourceEnd::Short { .. } => 4,
        SourceEnd::Overfull { .. } | SourceEnd::Cells { .. } => 5,
        SourceEnd::Spent { .. } => 6,
    }
}

fn has_ended(end: &SourceEnd) -> bool
    ensures { result ≡ has_ended end.now }
{
    matches!(end, SourceEnd::Done { .. } | SourceEnd::Failed { .. })
}

/// The status of a run with this first race. An end that isn't the root's comes before the race, the race before any other.
pub fn source_status(end: &SourceEnd, race: Option<(usize, usize)>) -> u8
    ensures { result ≡ spec.source_status end.now race }
{
    if has_ended(end) && race.is_some() {
        10
    } else {
        end_status(end)
    }
}

/// The text of a run with this first race: the race's three lines, or the end's text.
pub fn source_text(
    alloc: Global,
    program: &Module,
    run: &SourceRun,
    race: Option<(usize, usize)>,
) -> Result<Vec<u8>, AllocError>
    ensures { IfOk result (λ text. text.items ≡ spec.source_text program.now run.now.end run.now.trace.entries race) }
{
    let mut text = Vec::new(alloc);
    match race {
        Some(race) if has_ended(&run.end) => {
            push_race(&mut text, run.trace.entries.as_slice(), race)?
        }
        _ => push_end(&mut text, program, &run.end)?,
    }
    Ok(text)
}
