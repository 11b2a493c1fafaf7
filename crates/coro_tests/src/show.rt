//! A plain text of lowered code: registers, names and blocks alone.
use lists::Items;
use low_forms::{Block, Instr, LowFunc, LowKind, LowModule, Reg, Target, Term};
use op_table::row;
use std::alloc::{AllocError, Global};

fn push_regs(alloc: Global, text: &mut String, regs: &Items<Reg>) -> Result<(), AllocError> {
    for reg in regs.as_slice() {
        let word = format!(in alloc; " {}", reg.0)?;
        text.push_str(&word)?;
    }
    Ok(())
}

fn push_instr(alloc: Global, text: &mut String, instr: &Instr) -> Result<(), AllocError> {
    text.push_str(match instr.kind {
        LowKind::Row(kind) => row(kind).name,
        LowKind::Launch => "launch",
        LowKind::Await => "await",
    })?;
    push_regs(alloc, text, &instr.operands)?;
    if !instr.results.is_empty() {
        text.push_str(" to")?;
        push_regs(alloc, text, &instr.results)?;
    }
    Ok(())
}

fn push_target(alloc: Global, text: &mut String, target: &Target) -> Result<(), AllocError> {
    let word = format!(in alloc; " ^{}", target.block.0)?;
    text.push_str(&word)?;
    push_regs(alloc, text, &target.args)
}

fn push_term(alloc: Global, text: &mut String, term: &Term) -> Result<(), AllocError> {
    push_instr(alloc, text, &term.instr)?;
    for target in term.targets.as_slice() {
        push_target(alloc, text, target)?;
    }
    text.push_str("\n")
}

fn push_block(alloc: Global, text: &mut String, block: &Block) -> Result<(), AllocError> {
    text.push_str("^")?;
    push_regs(alloc, text, &block.params)?;
    text.push_str("\n")?;
    for instr in block.instrs.as_slice() {
        push_instr(alloc, text, instr)?;
        text.push_str("\n")?;
    }
    push_term(alloc, text, &block.term)
}

fn push_func(alloc: Global, text: &mut String, func: &LowFunc) -> Result<(), AllocError> {
    let head = format!(in alloc; "func of {}", func.regs.len())?;
    text.push_str(&head)?;
    push_regs(alloc, text, &func.params)?;
    text.push_str("\n")?;
    for block in func.blocks.as_slice() {
        push_block(alloc, text, block)?;
    }
    Ok(())
}

/// Each function with the number of its registers and its parameters, and each block with its parameters.
pub(crate) fn shown(alloc: Global, code: &LowModule) -> Result<String, AllocError> {
    let mut text = String::new(alloc);
    for func in code.funcs.as_slice() {
        push_func(alloc, &mut text, func)?;
    }
    Ok(text)
}
