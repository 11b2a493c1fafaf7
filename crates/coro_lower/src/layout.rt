//! The order of the blocks.
ghost use Rattle.std.specs.Prelude.{◌≡◌, ◌++◌, map, OnOk, IfOk};
ghost use Rattle.coro_lower.specs.Layout as spec;
ghost use Rattle.coro_lower.specs.Layout.{end_of, go_from, goes, key, labels, target_at, tests_before};

use crate::label::{End, Label, plain_end, task_end};
use low_forms::{Block, LowFunc, LowKind, Target};
use register_numbers::{Places, UNKNOWN};
use std::alloc::{AllocError, Global};

/// The number of no block.
const NO_BLOCK: u64 = 1 << 32;

/// The block at one of the targets.
pub(crate) fn target_at(targets: &[Target], at: usize) -> u32
    ensures { result ≡ target_at targets.now at }
{
    match targets.get(at) {
        Some(target) => target.block.0,
        None => UNKNOWN,
    }
}

fn go_from(kind: LowKind, targets: &[Target]) -> u64
    ensures { result ≡ go_from kind targets.now }
{
    match kind {
        LowKind::Await => target_at(targets, 0) as u64,
        _ => NO_BLOCK,
    }
}

/// By block, the one in which its await goes on.
pub(crate) fn goes(alloc: Global, func: &LowFunc) -> Result<Vec<u64>, AllocError>
    ensures { IfOk result (λ list. list.items ≡ goes func.now) }
{
    let mut list = Vec::new(alloc);
    for block in func.blocks.as_slice() {
        list.push(go_from(block.term.instr.kind, block.term.targets.as_slice()))?;
    }
    Ok(list)
}

pub(crate) fn end_of(func: &LowFunc, block: &Block) -> End
    ensures { result ≡ end_of func.now block.now }
{
    let kind = block.term.instr.kind;
    if func.coroutine {
        task_end(kind)
    } else {
        plain_end(kind)
    }
}

fn push_test(
    coroutine: bool,
    awaiting: Option<u32>,
    list: &mut Vec<Label>,
) -> Result<(), AllocError>
    ensures { OnOk result (list.new.items ≡ list.old.items ++ tests_before coroutine awaiting) }
{
    match (coroutine, awaiting) {
        (true, Some(block)) => {
            list.push(Label::Next(block))?;
            Ok(())
        }
        _ => Ok(()),
    }
}

/// The blocks that fail, or all others.
fn labels(
    alloc: Global,
    func: &LowFunc,
    awaits: &Places,
    failing: bool,
) -> Result<Vec<Label>, AllocError>
    requires { awaits.now ≡ goes func.now }
    ensures { IfOk result (λ list. list.items ≡ labels func.now failing 0 func.now.blocks) }
{
    let mut list = Vec::new(alloc);
    for (k, block) in func.blocks.as_slice().iter().enumerate() {
        if end_of(func, block).stands_among(failing) {
            let number = u32::try_from(k).ok().ok_or(AllocError)?;
            push_test(func.coroutine, awaits.find(number as u64), &mut list)?;
            list.push(Label::Body(number))?;
        }
    }
    Ok(list)
}

fn coroutine_layout(
    alloc: Global,
    body: &[Label],
    failing: &[Label],
) -> Result<Vec<Label>, AllocError>
    ensures { IfOk result (λ list. list.items ≡ spec.coroutine_layout body.now failing.now) }
{
    let mut list = Vec::new(alloc);
    list.push(Label::Entry)?;
    list.extend_from_slice(body)?;
    if !failing.is_empty() {
        list.push(Label::SetsError)?;
    }
    list.push(Label::Cleanup)?;
    list.push(Label::Suspended)?;
    list.extend_from_slice(failing)?;
    Ok(list)
}

/// All blocks of the code that is made.
pub(crate) fn layout(
    alloc: Global,
    func: &LowFunc,
    awaits: &Places,
) -> Result<Vec<Label>, AllocError>
    requires { awaits.now ≡ goes func.now }
    ensures { IfOk result (λ list. list.items ≡ spec.layout func.now) }
{
    let body = labels(alloc, func, awaits, false)?;
    if !func.coroutine {
        return Ok(body);
    }
    let failing = labels(alloc, func, awaits, true)?;
    coroutine_layout(alloc, &body, &failing)
}

/// The numbers of the labels.
pub(crate) fn keys(alloc: Global, list: &[Label]) -> Result<Vec<u64>, AllocError>
    ensures { IfOk result (λ numbers. numbers.items ≡ map key list.now) }
{
    let mut numbers = Vec::new(alloc);
    for label in list {
        numbers.push(label.key())?;
    }
    Ok(numbers)
}
