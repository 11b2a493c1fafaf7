//! Saves of coroutines, and what must follow them.
ghost use Rattle.std.specs.Prelude.{◌≡◌, not, true, false};
ghost use Rattle.low_forms.specs.Registers.{every};
ghost use Rattle.low_forms.specs.Saves.{is_save, is_resume, is_await_and_resume, is_suspend, is_of, is_next, is_followed, saves_followed, resumes, none_alone, has_no_save, saves_start, nowhere_else, all_followed};

use crate::code::{Block, Instr, LowKind, Reg, Term};
use ir_forms::OpKind;

fn is_save(kind: LowKind) -> bool
    ensures { result ≡ is_save kind }
{
    matches!(kind, LowKind::Row(OpKind::AsyncCoroSave))
}

fn is_resume(kind: LowKind) -> bool
    ensures { result ≡ is_resume kind }
{
    matches!(kind, LowKind::Row(OpKind::AsyncRuntimeResume))
}

fn is_await_and_resume(kind: LowKind) -> bool
    ensures { result ≡ is_await_and_resume kind }
{
    matches!(kind, LowKind::Row(OpKind::AsyncRuntimeAwaitAndResume))
}

fn is_suspend(kind: LowKind) -> bool
    ensures { result ≡ is_suspend kind }
{
    matches!(kind, LowKind::Row(OpKind::AsyncCoroSuspend))
}

/// Whether the first operand is the lone result.
fn is_of(results: &[Reg], operands: &[Reg]) -> bool
    ensures { result ≡ is_of results.now operands.now }
{
    match results {
        [save] => match operands {
            [] => false,
            [state, _more @ ..] => save.0 == state.0,
        },
        _ => false,
    }
}

fn is_next(is_first: bool, kind: LowKind) -> bool
    ensures { result ≡ is_next is_first kind }
{
    if is_first {
        is_resume(kind)
    } else {
        is_await_and_resume(kind)
    }
}

/// Whether what follows a save resumes, and then suspends it at the end of the block.
fn is_followed(is_first: bool, save: &Instr, rest: &[Instr], term: &Term) -> bool
    ensures { result ≡ is_followed is_first save.now rest.now term.now }
{
    match rest {
        [next] => {
            is_next(is_first, next.kind)
                && is_suspend(term.instr.kind)
                && is_of(save.results.as_slice(), term.instr.operands.as_slice())
        }
        _ => false,
    }
}

/// Whether each save of a block is followed as it must be.
pub(crate) fn saves_followed(is_first: bool, instrs: &[Instr], term: &Term) -> bool
    ensures { result ≡ saves_followed is_first instrs.now term.now }
{
    for (place, instr) in instrs.iter().enumerate() {
        if is_save(instr.kind) {
            let (_front, rest) = instrs.split_at(place + 1);
            if !is_followed(is_first, instr, rest, term) {
                return false;
            }
        }
    }
    true
}

fn resumes(kind: LowKind) -> bool
    ensures { result ≡ resumes kind }
{
    is_resume(kind) || is_await_and_resume(kind)
}

fn none_alone(instrs: &[Instr], term: &Term) -> bool
    ensures { result ≡ none_alone false false instrs.now term.now }
{
    let mut saved = false;
    let mut resumed = false;
    for instr in instrs {
        if resumes(instr.kind) && !saved {
            return false;
        }
        if is_suspend(instr.kind) {
            return false;
        }
        saved = is_save(instr.kind);
        resumed = resumes(instr.kind);
    }
    !is_suspend(term.instr.kind) || resumed
}

/// Whether what follows saves stands nowhere else in a block.
pub(crate) fn nowhere_else(block: &Block) -> bool
    ensures { result ≡ nowhere_else block.now }
{
    none_alone(block.instrs.as_slice(), &block.term)
}

fn none_saves(instrs: &[Instr]) -> bool
    ensures { result ≡ every (λ i. not (is_save i.kind)) instrs.now }
{
    for instr in instrs {
        if is_save(instr.kind) {
            return false;
        }
    }
    true
}

fn has_no_save(block: &Block) -> bool
    ensures { result ≡ has_no_save block.now }
{
    none_saves(block.instrs.as_slice())
}

fn none_has_saves(blocks: &[Block]) -> bool
    ensures { result ≡ every has_no_save blocks.now }
{
    for block in blocks {
        if !has_no_save(block) {
            return false;
        }
    }
    true
}

/// Whether the first save of a function stands in its first block.
pub(crate) fn saves_start(blocks: &[Block]) -> bool
    ensures { result ≡ saves_start blocks.now }
{
    match blocks {
        [] => true,
        [block, more @ ..] => !has_no_save(block) || none_has_saves(more),
    }
}

/// Whether each save of a function is followed as it must be.
pub(crate) fn all_followed(blocks: &[Block]) -> bool
    ensures { result ≡ all_followed true blocks.now }
{
    let mut is_first = true;
    for block in blocks {
        if !saves_followed(is_first, block.instrs.as_slice(), &block.term) {
            return false;
        }
        is_first = false;
    }
    true
}
