//! The text and the status of a run's end.

ghost use Rattle.std.specs.Prelude.{◌≡◌, ◌++◌, ◌<◌, ◌^◌, [], length, OnOk, IfOk, codes, if◌then◌else◌, Some, None};
ghost use Rattle.run_journal.specs.Lines.{journal_lines};
ghost use Rattle.async_cli.specs.Texts.{end_status, run_text};

use crate::words::Flags;
use run_journal::push_journal;
use run_report::{Notes, end_text};
use std::alloc::{AllocError, Global};
use step_core::{Counts, End, Entry};

/// The exit status of an end.
pub fn end_status(end: &End) -> u8
    ensures { result ≡ end_status end.now }
{
    match end {
        End::Done { .. } => 0,
        End::Failed { .. } => 1,
    }
}

/// How many entries a journal has, if that is asked for.
fn asked_entries(flags: Flags, journal: &[Entry]) -> Option<u32>
    requires { length journal.now < 2 ^ 32 }
    ensures { result ≡ (if flags.steps then Some (length journal.now) else None) }
{
    if flags.steps {
        Some(journal.len() as u32)
    } else {
        None
    }
}

fn push_headed_journal(text: &mut Vec<u8>, journal: &[Entry]) -> Result<(), AllocError>
    ensures { OnOk result (text.new.items ≡ text.old.items ++ (codes "-- journal\n" ++ journal_lines journal.now)) }
{
    text.extend_from_slice(b"-- journal\n")?;
    push_journal(text, journal)?;
    Ok(())
}

fn push_asked_journal(text: &mut Vec<u8>, flags: Flags, journal: &[Entry]) -> Result<(), AllocError>
    ensures { OnOk result (text.new.items ≡ text.old.items ++ (if flags.journal then codes "-- journal\n" ++ journal_lines journal.now else [])) }
{
    if flags.journal {
        push_headed_journal(text, journal)
    } else {
        Ok(())
    }
}

/// The text of a run's end, with what the flags ask for.
pub fn run_text(
    alloc: Global,
    notes: &Notes,
    flags: Flags,
    end: &End,
    counts: &Counts,
    journal: &[Entry],
) -> Result<Vec<u8>, AllocError>
    requires { length journal.now < 2 ^ 32 }
    ensures { IfOk result (λ text. text.items ≡ run_text notes.now flags end.now counts.now journal.now) }
{
    let mut text = end_text(alloc, notes, end, counts, asked_entries(flags, journal))?;
    push_asked_journal(&mut text, flags, journal)?;
    Ok(text)
}
