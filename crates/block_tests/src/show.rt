//! A text of code with high rows, registers and blocks by their numbers.
use low_forms::{Block, Instr, LowAttr, LowFunc, LowKind, Reg, Target, Term};
use std::alloc::AllocError;
use std::fmt::Write;

fn show_regs(out: &mut String, regs: &[Reg]) -> Result<(), AllocError> {
    for reg in regs {
        write!(out, " {}", reg.0)?;
    }
    Ok(())
}

fn show_kind(out: &mut String, kind: LowKind) -> Result<(), AllocError> {
    match kind {
        LowKind::Row(row) => out.push_str(row.name()),
        LowKind::Launch => out.push_str("launch"),
        LowKind::Await => out.push_str("await"),
    }
}

fn show_attr(out: &mut String, attr: LowAttr) -> Result<(), AllocError> {
    match attr {
        LowAttr::None => Ok(()),
        LowAttr::Literal {
            negative,
            magnitude,
        } => {
            if negative {
                out.push_str(" -")?;
            }
            write!(out, " #{magnitude}")
        }
        LowAttr::Truth(true) => out.push_str(" #true"),
        LowAttr::Truth(false) => out.push_str(" #false"),
        LowAttr::Pred(pred) => write!(out, " {pred:?}"),
        LowAttr::Count(count) => write!(out, " count {count}"),
        LowAttr::Callee(func) => write!(out, " @{}", func.0),
    }
}

fn show_instr(out: &mut String, instr: &Instr) -> Result<(), AllocError> {
    out.push_str(" ")?;
    show_regs(out, instr.results.as_slice())?;
    if !instr.results.is_empty() {
        out.push_str(" =")?;
    }
    out.push_str(" ")?;
    show_kind(out, instr.kind)?;
    show_attr(out, instr.attr)?;
    show_regs(out, instr.operands.as_slice())
}

fn show_target(out: &mut String, target: &Target) -> Result<(), AllocError> {
    write!(out, ", ^{}", target.block.0)?;
    show_regs(out, target.args.as_slice())
}

fn show_term(out: &mut String, term: &Term) -> Result<(), AllocError> {
    show_instr(out, &term.instr)?;
    for target in term.targets.as_slice() {
        show_target(out, target)?;
    }
    out.push_str("\n")
}

fn show_block(out: &mut String, place: usize, block: &Block) -> Result<(), AllocError> {
    write!(out, "^{place}")?;
    show_regs(out, block.params.as_slice())?;
    out.push_str("\n")?;
    for instr in block.instrs.as_slice() {
        show_instr(out, instr)?;
        out.push_str("\n")?;
    }
    show_term(out, &block.term)
}

/// A function: whether it is a coroutine, its parameters, how many registers it has, and its blocks.
pub fn show_func(out: &mut String, func: &LowFunc) -> Result<(), AllocError> {
    out.push_str(if func.coroutine { "task" } else { "func" })?;
    show_regs(out, func.params.as_slice())?;
    write!(out, " of {}\n", func.regs.len())?;
    for (place, block) in func.blocks.as_slice().iter().enumerate() {
        show_block(out, place, block)?;
    }
    Ok(())
}
