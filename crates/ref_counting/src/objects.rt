//! The registers whose references are counted, and those that instructions use and take.
ghost use Rattle.std.specs.Prelude.{◌≡◌, ◌++◌, [], if◌then◌else◌, IfOk, OnOk};
ghost use Rattle.low_flow.specs.Lists.{has};
ghost use Rattle.low_forms.specs.Assigned.{numbers};
ghost use Rattle.low_forms.specs.Owns as owns;
ghost use Rattle.low_forms.specs.Rows.{row_of};
ghost use Rattle.ref_counting.specs.Objects as spec;
ghost use Rattle.ref_counting.specs.Shape.{times};

use ir_forms::Ty;
use ir_verify::types::{is_awaitable, is_group};
use low_forms::{Block, Instr, LowFunc, LowKind, OpKind, Reg, Target, Term, low_row};
use std::alloc::{AllocError, Global};

pub(crate) fn is_object(ty: &Ty) -> bool
    ensures { result ≡ owns.is_object ty.now }
{
    is_awaitable(ty) || is_group(ty)
}

pub(crate) fn has(list: &[usize], number: usize) -> bool
    ensures { result ≡ has number list.now }
{
    for other in list {
        if number == *other {
            return true;
        }
    }
    false
}

/// Whether a register stands among these.
pub(crate) fn names(regs: &[Reg], number: usize) -> bool
    ensures { result ≡ has number (numbers regs.now) }
{
    for reg in regs {
        if number == reg.0 as usize {
            return true;
        }
    }
    false
}

/// How often a register stands among these.
pub(crate) fn times(number: usize, regs: &[Reg]) -> u64
    ensures { result ≡ times number regs.now }
{
    let mut count = 0u64;
    for reg in regs {
        if number == reg.0 as usize {
            count += 1;
        }
    }
    count
}

// ---- what a coroutine creates

fn is_create(kind: LowKind) -> bool
    ensures { result ≡ spec.is_create kind }
{
    matches!(kind, LowKind::Row(OpKind::AsyncRuntimeCreate))
}

fn push_numbers(list: &mut Vec<usize>, regs: &[Reg]) -> Result<(), AllocError>
    ensures { OnOk result (list.new.items ≡ list.old.items ++ numbers regs.now) }
{
    for reg in regs {
        list.push(reg.0 as usize)?;
    }
    Ok(())
}

fn push_created(list: &mut Vec<usize>, instrs: &[Instr]) -> Result<(), AllocError>
    ensures { OnOk result (list.new.items ≡ list.old.items ++ spec.created_by instrs.now) }
{
    for instr in instrs {
        if is_create(instr.kind) {
            push_numbers(list, instr.results.as_slice())?;
        }
    }
    Ok(())
}

fn created_in(alloc: Global, blocks: &[Block]) -> Result<Vec<usize>, AllocError>
    ensures { IfOk result (λ list. list.items ≡ spec.created_in blocks.now) }
{
    let mut list = Vec::new(alloc);
    for block in blocks {
        push_created(&mut list, block.instrs.as_slice())?;
    }
    Ok(list)
}

/// What a coroutine creates; another function nothing.
pub(crate) fn created(alloc: Global, func: &LowFunc) -> Result<Vec<usize>, AllocError>
    ensures { IfOk result (λ list. list.items ≡ spec.created func.now) }
{
    if func.coroutine {
        created_in(alloc, func.blocks.as_slice())
    } else {
        Ok(Vec::new(alloc))
    }
}

// ---- what instructions and terminators use and take

pub(crate) fn used(instr: &Instr) -> &[Reg]
    ensures { result.now ≡ spec.used instr.now }
{
    let operands = instr.operands.as_slice();
    let uses = low_row(instr.kind).uses as usize;
    if uses < operands.len() {
        &operands[..uses]
    } else {
        operands
    }
}

pub(crate) fn taken(instr: &Instr) -> &[Reg]
    ensures { result.now ≡ spec.taken instr.now }
{
    if low_row(instr.kind).takes {
        instr.operands.as_slice()
    } else {
        &[]
    }
}

fn first_args(targets: &[Target]) -> &[Reg]
    ensures { result.now ≡ owns.first_args targets.now }
{
    match targets {
        [target, _more @ ..] => target.args.as_slice(),
        [] => &[],
    }
}

fn args_taken(term: &Term) -> &[Reg]
    ensures { result.now ≡ (if (row_of term.now.instr.kind).takes then owns.first_args term.now.targets else []) }
{
    if low_row(term.instr.kind).takes {
        first_args(term.targets.as_slice())
    } else {
        &[]
    }
}

/// What a terminator takes. Both lists of a conditional branch are equal, and are taken once.
pub(crate) fn taken_at_end(alloc: Global, term: &Term) -> Result<Vec<Reg>, AllocError>
    ensures { IfOk result (λ list. list.items ≡ spec.taken_at_end term.now) }
{
    let mut list = Vec::from_slice(alloc, taken(&term.instr))?;
    list.extend_from_slice(args_taken(term))?;
    Ok(list)
}

pub(crate) fn is_return(kind: LowKind) -> bool
    ensures { result ≡ spec.is_return kind }
{
    matches!(kind, LowKind::Row(OpKind::FuncReturn))
}
