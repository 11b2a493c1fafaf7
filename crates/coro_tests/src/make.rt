//! Makes functions of plain lines.
use ir_forms::{Ty, ValTy, Width};
use lists::Items;
use low_forms::{
    Block, BlockNo, FuncNo, Instr, LowAttr, LowFunc, LowKind, OpKind, Reg, Target, Term,
};
use std::alloc::{AllocError, Global};
use std::mem;

/// No register, or no block.
pub(crate) const NO: u32 = u32::MAX;

/// An instruction, or what ends a block. The results of what ends a block are the block's parameters.
#[derive(Clone, Copy)]
pub(crate) struct Line {
    kind: LowKind,
    operands: [u32; 3],
    results: [u32; 2],
    attr: LowAttr,
    ends: bool,
    targets: [u32; 2],
    arg: u32,
}

pub(crate) fn inner(kind: OpKind, operands: [u32; 3], to: u32) -> Line {
    Line {
        kind: LowKind::Row(kind),
        operands,
        results: [to, NO],
        attr: LowAttr::None,
        ends: false,
        targets: [NO, NO],
        arg: NO,
    }
}

pub(crate) fn constant(to: u32, magnitude: u64) -> Line {
    Line {
        attr: LowAttr::Literal {
            negative: false,
            magnitude,
        },
        ..inner(OpKind::ArithConstant, [NO, NO, NO], to)
    }
}

pub(crate) fn launch(callee: u32, operands: [u32; 3], results: [u32; 2]) -> Line {
    Line {
        kind: LowKind::Launch,
        results,
        attr: LowAttr::Callee(FuncNo(callee)),
        ..inner(OpKind::FuncCall, operands, NO)
    }
}

/// The end of a block that has this parameter.
pub(crate) fn end(kind: OpKind, param: u32, operand: u32, targets: [u32; 2]) -> Line {
    Line {
        ends: true,
        targets,
        ..inner(kind, [operand, NO, NO], param)
    }
}

pub(crate) fn awaits(param: u32, operand: u32, targets: [u32; 2]) -> Line {
    Line {
        kind: LowKind::Await,
        ..end(OpKind::CfBr, param, operand, targets)
    }
}

pub(crate) fn branch(param: u32, block: u32, arg: u32) -> Line {
    Line {
        arg,
        ..end(OpKind::CfBr, param, NO, [block, NO])
    }
}

pub(crate) fn with(attr: LowAttr, line: Line) -> Line {
    Line { attr, ..line }
}

fn regs(alloc: Global, numbers: &[u32]) -> Result<Items<Reg>, AllocError> {
    let mut list = Items::new(alloc);
    for number in numbers {
        if *number != NO {
            list.push(Reg(*number))?;
        }
    }
    Ok(list)
}

fn instr(alloc: Global, line: &Line, results: &[u32]) -> Result<Instr, AllocError> {
    Ok(Instr {
        kind: line.kind,
        operands: regs(alloc, &line.operands)?,
        results: regs(alloc, results)?,
        attr: line.attr,
    })
}

fn targets(alloc: Global, line: &Line) -> Result<Items<Target>, AllocError> {
    let mut list = Items::new(alloc);
    for block in &line.targets {
        if *block != NO {
            let args = regs(alloc, &[line.arg])?;
            list.push(Target {
                block: BlockNo(*block),
                args,
            })?;
        }
    }
    Ok(list)
}

fn block(alloc: Global, instrs: Items<Instr>, line: &Line) -> Result<Block, AllocError> {
    Ok(Block {
        params: regs(alloc, &line.results)?,
        instrs,
        term: Term {
            instr: instr(alloc, line, &[])?,
            targets: targets(alloc, line)?,
        },
    })
}

fn blocks(alloc: Global, lines: &[Line]) -> Result<Items<Block>, AllocError> {
    let mut blocks = Items::new(alloc);
    let mut instrs = Items::new(alloc);
    for line in lines {
        if line.ends {
            let ended = mem::replace(&mut instrs, Items::new(alloc));
            blocks.push(block(alloc, ended, line)?)?;
        } else {
            instrs.push(instr(alloc, line, &line.results)?)?;
        }
    }
    Ok(blocks)
}

/// By letter: a bit, a number, an index, a token, a value, a group.
fn types(alloc: Global, letters: &[u8]) -> Result<Items<Ty>, AllocError> {
    let mut types = Items::new(alloc);
    for letter in letters {
        types.push(match *letter {
            b'b' => Ty::Int(Width::W1),
            b'n' => Ty::Int(Width::W64),
            b'x' => Ty::Index,
            b't' => Ty::Token,
            b'v' => Ty::Value(ValTy::Int(Width::W64)),
            _ => Ty::Group,
        })?;
    }
    Ok(types)
}

/// A function of these parameters, of the types of its results, and of its registers.
pub(crate) fn func(
    alloc: Global,
    coroutine: bool,
    params: &[u32],
    results: &[u8],
    registers: &[u8],
    lines: &[Line],
) -> Result<LowFunc, AllocError> {
    Ok(LowFunc {
        name: Items::new(alloc),
        coroutine,
        params: regs(alloc, params)?,
        results: types(alloc, results)?,
        regs: types(alloc, registers)?,
        blocks: blocks(alloc, lines)?,
    })
}
