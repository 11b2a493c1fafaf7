//! The text of a run's end.
ghost use Rattle.std.specs.Prelude.{◌≡◌, ◌++◌, IfOk, OnOk};
ghost use Rattle.run_report.specs.Ends.{asked_steps, end_lines, end_text, made_line};

use crate::note_list::Notes;
use crate::texts::{push_buffers, push_failed, push_results, push_two_numbered};
use std::alloc::{AllocError, Global};
use step_core::{Counts, End};

/// The text of a run's end: the end itself, what the run made, and, where the number of entries is told, its steps.
///
/// # Errors
///
/// Where memory runs out.
pub fn end_text(
    alloc: Global,
    notes: &Notes,
    end: &End,
    counts: &Counts,
    entries: Option<u32>,
) -> Result<Vec<u8>, AllocError>
    ensures { IfOk result (λ text. text.items ≡ end_text notes.now end.now counts.now entries) }
{
    let mut text = Vec::new(alloc);
    push_end(&mut text, notes, end)?;
    push_made(&mut text, counts)?;
    push_asked_steps(&mut text, counts.steps, entries)?;
    Ok(text)
}

fn push_end(text: &mut Vec<u8>, notes: &Notes, end: &End) -> Result<(), AllocError>
    ensures { OnOk result (text.new.items ≡ text.old.items ++ end_lines notes.now end.now) }
{
    match end {
        End::Done { results, buffers } => {
            push_results(text, results.as_slice())?;
            push_buffers(text, buffers.as_slice())
        }
        End::Failed { op } => push_failed(text, *op, notes.message(*op)),
    }
}

fn push_made(text: &mut Vec<u8>, counts: &Counts) -> Result<(), AllocError>
    ensures { OnOk result (text.new.items ≡ text.old.items ++ made_line counts.now.tasks counts.now.objects) }
{
    push_two_numbered(
        text,
        "tasks ",
        u64::from(counts.tasks),
        ", objects ",
        u64::from(counts.objects),
        "\n",
    )
}

fn push_asked_steps(text: &mut Vec<u8>, steps: u64, entries: Option<u32>) -> Result<(), AllocError>
    ensures { OnOk result (text.new.items ≡ text.old.items ++ asked_steps steps entries) }
{
    match entries {
        None => Ok(()),
        Some(entries) => push_two_numbered(
            text,
            "steps ",
            steps,
            ", entries ",
            u64::from(entries),
            "\n",
        ),
    }
}
