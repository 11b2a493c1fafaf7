//! Instructions and terminators of the runtime.
ghost use Rattle.std.specs.Prelude.{◌≡◌, ◌++◌, ◌∷◌, [], map, IfOk, OnOk};
ghost use Rattle.coro_lower.specs.Rows as rows;

use lists::Items;
use low_forms::{Block, BlockNo, Instr, LowAttr, LowKind, OpKind, Reg, Target, Term};
use std::alloc::{AllocError, Global};

fn row(alloc: Global, kind: OpKind, operands: &[Reg], results: &[Reg]) -> Result<Instr, AllocError>
    ensures { IfOk result (λ made. made ≡ rows.row kind operands.now results.now) }
{
    let operands = Items::from_slice(alloc, operands)?;
    let results = Items::from_slice(alloc, results)?;
    Ok(Instr {
        kind: LowKind::Row(kind),
        operands,
        results,
        attr: LowAttr::None,
    })
}

/// Adds an instruction.
pub(crate) fn push_row(
    alloc: Global,
    instrs: &mut Items<Instr>,
    kind: OpKind,
    operands: &[Reg],
    results: &[Reg],
) -> Result<(), AllocError>
    ensures { OnOk result (instrs.new ≡ instrs.old ++ rows.row kind operands.now results.now ∷ []) }
{
    instrs.push(row(alloc, kind, operands, results)?)
}

fn to(alloc: Global, block: u32) -> Target
    ensures { result ≡ rows.to block }
{
    Target {
        block: BlockNo(block),
        args: Items::new(alloc),
    }
}

fn targets(alloc: Global, blocks: &[u32]) -> Result<Items<Target>, AllocError>
    ensures { IfOk result (λ made. made ≡ map rows.to blocks.now) }
{
    let mut made = Items::new(alloc);
    for block in blocks {
        made.push(to(alloc, *block))?;
    }
    Ok(made)
}

/// A terminator that leads to these blocks without arguments.
pub(crate) fn ends(
    alloc: Global,
    kind: OpKind,
    operands: &[Reg],
    blocks: &[u32],
) -> Result<Term, AllocError>
    ensures { IfOk result (λ made. made ≡ rows.ends kind operands.now blocks.now) }
{
    let instr = row(alloc, kind, operands, &[])?;
    let targets = targets(alloc, blocks)?;
    Ok(Term { instr, targets })
}

/// A block without parameters.
pub(crate) fn block(alloc: Global, instrs: Items<Instr>, term: Term) -> Block
    ensures { result ≡ rows.block instrs term }
{
    Block {
        params: Items::new(alloc),
        instrs,
        term,
    }
}

/// A block that does nothing.
pub(crate) fn idle(alloc: Global) -> Result<Block, AllocError>
    ensures { IfOk result (λ made. made ≡ rows.idle) }
{
    let term = ends(alloc, OpKind::AioFinish, &[], &[])?;
    Ok(block(alloc, Items::new(alloc), term))
}

fn call_kind(kind: LowKind) -> LowKind
    ensures { result ≡ rows.call_kind kind }
{
    match kind {
        LowKind::Launch => LowKind::Row(OpKind::FuncCall),
        _ => kind,
    }
}

/// The instruction, of this kind.
pub(crate) fn copy_instr(alloc: Global, instr: &Instr, kind: LowKind) -> Result<Instr, AllocError>
    ensures { IfOk result (λ copy. copy ≡ record instr.now { kind = kind }) }
{
    let operands = Items::from_slice(alloc, instr.operands.as_slice())?;
    let results = Items::from_slice(alloc, instr.results.as_slice())?;
    Ok(Instr {
        kind,
        operands,
        results,
        attr: instr.attr,
    })
}

/// Adds these instructions, launches as calls.
pub(crate) fn push_called(
    alloc: Global,
    instrs: &mut Items<Instr>,
    more: &[Instr],
) -> Result<(), AllocError>
    ensures { OnOk result (instrs.new ≡ instrs.old ++ map rows.called more.now) }
{
    for instr in more {
        instrs.push(copy_instr(alloc, instr, call_kind(instr.kind))?)?;
    }
    Ok(())
}
