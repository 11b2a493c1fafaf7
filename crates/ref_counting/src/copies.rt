//! Counts, and copies of instructions and terminators.
ghost use Rattle.std.specs.Prelude.{◌≡◌, IfOk};
ghost use Rattle.ref_counting.specs.Shape as shape;

use lists::Items;
use low_forms::{Instr, LowAttr, LowKind, OpKind, Reg, Target, Term};
use std::alloc::{AllocError, Global};

fn count(alloc: Global, kind: OpKind, number: usize, count: u64) -> Result<Instr, AllocError>
    ensures { IfOk result (λ made. made ≡ shape.count kind number count) }
{
    let number = u32::try_from(number).ok().ok_or(AllocError)?;
    let operands = Items::from_slice(alloc, &[Reg(number)])?;
    Ok(Instr {
        kind: LowKind::Row(kind),
        operands,
        results: Items::new(alloc),
        attr: LowAttr::Count(count),
    })
}

/// Adds so many references of a register's object.
pub(crate) fn add_ref(alloc: Global, number: usize, more: u64) -> Result<Instr, AllocError>
    ensures { IfOk result (λ made. made ≡ shape.add_ref number more) }
{
    count(alloc, OpKind::AsyncRuntimeAddRef, number, more)
}

/// Drops one.
pub(crate) fn drop_ref(alloc: Global, number: usize) -> Result<Instr, AllocError>
    ensures { IfOk result (λ made. made ≡ shape.drop_ref number) }
{
    count(alloc, OpKind::AsyncRuntimeDropRef, number, 1)
}

pub(crate) fn copy_instr(alloc: Global, instr: &Instr) -> Result<Instr, AllocError>
    ensures { IfOk result (λ copy. copy ≡ instr.now) }
{
    let operands = Items::from_slice(alloc, instr.operands.as_slice())?;
    let results = Items::from_slice(alloc, instr.results.as_slice())?;
    Ok(Instr {
        kind: instr.kind,
        operands,
        results,
        attr: instr.attr,
    })
}

fn copy_target(alloc: Global, target: &Target) -> Result<Target, AllocError>
    ensures { IfOk result (λ copy. copy ≡ target.now) }
{
    let args = Items::from_slice(alloc, target.args.as_slice())?;
    Ok(Target {
        block: target.block,
        args,
    })
}

fn copy_targets(alloc: Global, targets: &[Target]) -> Result<Items<Target>, AllocError>
    ensures { IfOk result (λ copies. copies ≡ targets.now) }
{
    let mut copies = Items::new(alloc);
    for target in targets {
        copies.push(copy_target(alloc, target)?)?;
    }
    Ok(copies)
}

pub(crate) fn copy_term(alloc: Global, term: &Term) -> Result<Term, AllocError>
    ensures { IfOk result (λ copy. copy ≡ term.now) }
{
    let instr = copy_instr(alloc, &term.instr)?;
    let targets = copy_targets(alloc, term.targets.as_slice())?;
    Ok(Term { instr, targets })
}
