//! A plain text of blocks: registers, names and blocks alone.
use lists::Items;
use low_forms::{Block, Instr, LowAttr, LowFunc, LowKind, Reg, Target, Term};
use op_table::row;
use std::alloc::{AllocError, Global};

fn push_regs(alloc: Global, text: &mut String, regs: &Items<Reg>) -> Result<(), AllocError> {
    for reg in regs.as_slice() {
        let word = format!(in alloc; " {}", reg.0)?;
        text.push_str(&word)?;
    }
    Ok(())
}

fn push_count(alloc: Global, text: &mut String, attr: LowAttr) -> Result<(), AllocError> {
    match attr {
        LowAttr::Count(count) => {
            let word = format!(in alloc; " by {count}")?;
            text.push_str(&word)
        }
        _ => Ok(()),
    }
}

fn push_instr(alloc: Global, text: &mut String, instr: &Instr) -> Result<(), AllocError> {
    text.push_str(match instr.kind {
        LowKind::Row(kind) => row(kind).name,
        _ => "no row",
    })?;
    push_regs(alloc, text, &instr.operands)?;
    push_count(alloc, text, instr.attr)?;
    if !instr.results.is_empty() {
        text.push_str(" to")?;
        push_regs(alloc, text, &instr.results)?;
    }
    Ok(())
}

fn push_target(alloc: Global, text: &mut String, target: &Target) -> Result<(), AllocError> {
    let word = format!(in alloc; " ^{}", target.block.0)?;
    text.push_str(&word)?;
    push_regs(alloc, text, &target.args)
}

fn push_term(alloc: Global, text: &mut String, term: &Term) -> Result<(), AllocError> {
    push_instr(alloc, text, &term.instr)?;
    for target in term.targets.as_slice() {
        push_target(alloc, text, target)?;
    }
    text.push_str("\n")
}

fn push_block(alloc: Global, text: &mut String, block: &Block) -> Result<(), AllocError> {
    text.push_str("^")?;
    push_regs(alloc, text, &block.params)?;
    text.push_str("\n")?;
    for instr in block.instrs.as_slice() {
        push_instr(alloc, text, instr)?;
        text.push_str("\n")?;
    }
    push_term(alloc, text, &block.term)
}

/// These blocks of a function, as many as are there.
pub(crate) fn shown(
    alloc: Global,
    func: &LowFunc,
    first: usize,
    blocks: usize,
) -> Result<String, AllocError> {
    let mut text = String::new(alloc);
    for (at, block) in func.blocks.as_slice().iter().enumerate() {
        if first <= at && at - first < blocks {
            push_block(alloc, &mut text, block)?;
        }
    }
    Ok(text)
}
