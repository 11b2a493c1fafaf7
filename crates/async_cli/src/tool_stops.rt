//! Why a command that waits for nothing was refused or stopped, with the status and the text of each answer.

ghost use Rattle.std.specs.Prelude.{◌≡◌, ◌++◌, OnOk, codes};
ghost use Rattle.async_cli.specs.Stops.{tool_status, tool_text, why_not};
ghost use Rattle.async_cli.specs.Texts.{numbered};

use crate::stops::Stop;
use run_journal::TaskLook;
use run_report::push_numbered;
use std::alloc::AllocError;
use step_core::Entry;

/// Why a command that waits for nothing gave no other answer.
#[derive(Clone, Copy, PartialEq, Eq)]
pub enum ToolStop {
    /// A cause that `run` has too.
    Shared(Stop),
    /// The first line, from 1, that isn't an entry; 0 where no line is `-- journal`.
    BadLine {
        line: u32,
    },
    /// The number, from 0, of the first entry that isn't possible, the entry, and what the run has of the task
    /// that it names, if that task is there.
    NotARun {
        entry: u32,
        named: Entry,
        kept: Option<TaskLook>,
    },
    /// The journal has so many entries, and the run isn't finished after them.
    Unfinished {
        entries: u32,
    },
}

/// Adds why an entry isn't possible whose task the run has so.
fn push_why_not(text: &mut Vec<u8>, named: Entry, kept: Option<TaskLook>) -> Result<(), AllocError>
    ensures { OnOk result (text.new.items ≡ text.old.items ++ why_not named kept) }
{
    match kept {
        None => text.extend_from_slice(b", which is not there\n"),
        Some(seen) if seen.parked => text.extend_from_slice(b", which is parked\n"),
        Some(seen) if seen.local == named.local => {
            text.extend_from_slice(b", which cannot take its step\n")
        }
        Some(seen) => push_numbered(
            text,
            ", which has ",
            u64::from(seen.local),
            " local steps\n",
        ),
    }
}

/// Adds the task that an entry names, and why the entry isn't possible.
fn push_named(text: &mut Vec<u8>, named: Entry, kept: Option<TaskLook>) -> Result<(), AllocError>
    ensures { OnOk result (text.new.items ≡ text.old.items ++ numbered (codes " names task ") named.task (why_not named kept)) }
{
    push_numbered(text, " names task ", u64::from(named.task), "")?;
    push_why_not(text, named, kept)
}

impl ToolStop {
    /// The exit status of the answer.
    pub fn status(self) -> u8
        ensures { result ≡ tool_status self }
    {
        match self {
            ToolStop::Shared(stop) => stop.status(),
            ToolStop::BadLine { .. } => 3,
            ToolStop::NotARun { .. } => 11,
            ToolStop::Unfinished { .. } => 6,
        }
    }

    /// Adds the line that tells the cause, where this entry is asked for.
    pub fn push_text(self, entry: &[u8], text: &mut Vec<u8>) -> Result<(), AllocError>
        ensures { OnOk result (text.new.items ≡ text.old.items ++ tool_text entry.now self) }
    {
        match self {
            ToolStop::Shared(stop) => stop.push_text(entry, text),
            ToolStop::BadLine { line } => {
                push_numbered(text, "refused: journal line ", u64::from(line), "\n")
            }
            ToolStop::NotARun { entry, named, kept } => {
                push_numbered(text, "refused: entry ", u64::from(entry), "")?;
                push_named(text, named, kept)
            }
            ToolStop::Unfinished { entries } => push_numbered(
                text,
                "stopped: unfinished after ",
                u64::from(entries),
                " entries\n",
            ),
        }
    }
}
