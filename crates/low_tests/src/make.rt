//! Makes lowered code of plain lines.
use crate::data::launched_lines;
use ir_forms::{Ty, ValTy, Width};
use lists::Items;
use low_forms::{
    Block, BlockNo, Instr, LowAttr, LowFunc, LowKind, LowModule, OpKind, Reg, Target, Term,
};
use std::alloc::{AllocError, Global};
use std::mem;

/// No register, or no block.
pub(crate) const NO: u32 = u32::MAX;

/// An instruction, or what ends a block. The results of what ends a block are the block's parameters, and all its
/// targets have the same arguments.
#[derive(Clone, Copy)]
pub(crate) struct Line {
    pub(crate) kind: LowKind,
    pub(crate) operands: [u32; 2],
    pub(crate) results: [u32; 2],
    pub(crate) attr: LowAttr,
    pub(crate) ends: bool,
    pub(crate) targets: [u32; 3],
    pub(crate) args: [u32; 1],
}

pub(crate) fn inner(kind: OpKind, operands: [u32; 2], results: [u32; 2]) -> Line {
    Line {
        kind: LowKind::Row(kind),
        operands,
        results,
        attr: LowAttr::None,
        ends: false,
        targets: [NO, NO, NO],
        args: [NO],
    }
}

pub(crate) fn end(kind: OpKind, operands: [u32; 2], targets: [u32; 3]) -> Line {
    Line {
        kind: LowKind::Row(kind),
        operands,
        results: [NO, NO],
        attr: LowAttr::None,
        ends: true,
        targets,
        args: [NO],
    }
}

fn regs(alloc: Global, numbers: &[u32]) -> Result<Items<Reg>, AllocError> {
    let mut list = Items::new(alloc);
    for number in numbers {
        if *number != NO {
            list.push(Reg(*number))?;
        }
    }
    Ok(list)
}

fn instr(alloc: Global, line: &Line, results: &[u32]) -> Result<Instr, AllocError> {
    Ok(Instr {
        kind: line.kind,
        operands: regs(alloc, &line.operands)?,
        results: regs(alloc, results)?,
        attr: line.attr,
    })
}

fn targets(alloc: Global, line: &Line) -> Result<Items<Target>, AllocError> {
    let mut list = Items::new(alloc);
    for block in &line.targets {
        if *block != NO {
            let args = regs(alloc, &line.args)?;
            list.push(Target {
                block: BlockNo(*block),
                args,
            })?;
        }
    }
    Ok(list)
}

fn block(alloc: Global, instrs: Items<Instr>, line: &Line) -> Result<Block, AllocError> {
    Ok(Block {
        params: regs(alloc, &line.results)?,
        instrs,
        term: Term {
            instr: instr(alloc, line, &[])?,
            targets: targets(alloc, line)?,
        },
    })
}

pub(crate) fn blocks(alloc: Global, lines: &[Line]) -> Result<Items<Block>, AllocError> {
    let mut blocks = Items::new(alloc);
    let mut instrs = Items::new(alloc);
    for line in lines {
        if line.ends {
            let ended = mem::replace(&mut instrs, Items::new(alloc));
            blocks.push(block(alloc, ended, line)?)?;
        } else {
            instrs.push(instr(alloc, line, &line.results)?)?;
        }
    }
    Ok(blocks)
}

/// The types that the tests use.
#[derive(Clone, Copy)]
enum Kind {
    Bit,
    Number,
    Index,
    Token,
    Value,
    CoroId,
    CoroHandle,
    CoroState,
}

fn ty(kind: Kind) -> Ty {
    match kind {
        Kind::Bit => Ty::Int(Width::W1),
        Kind::Number => Ty::Int(Width::W64),
        Kind::Index => Ty::Index,
        Kind::Token => Ty::Token,
        Kind::Value => Ty::Value(ValTy::Int(Width::W64)),
        Kind::CoroId => Ty::CoroId,
        Kind::CoroHandle => Ty::CoroHandle,
        Kind::CoroState => Ty::CoroState,
    }
}

/// These types, and then as many numbers.
fn types(alloc: Global, kinds: &[Kind], numbers: u32) -> Result<Items<Ty>, AllocError> {
    let mut types = Items::new(alloc);
    for kind in kinds {
        types.push(ty(*kind))?;
    }
    for _turn in 0..numbers {
        types.push(ty(Kind::Number))?;
    }
    Ok(types)
}

/// The function that launches. It has more registers of numbers than it uses.
fn main_func(
    alloc: Global,
    lines: &[Line],
    params: &[u32],
    numbers: u32,
) -> Result<LowFunc, AllocError> {
    Ok(LowFunc {
        name: Items::new(alloc),
        coroutine: false,
        params: regs(alloc, params)?,
        results: types(alloc, &[Kind::Number], 0)?,
        regs: types(alloc, &[Kind::Token, Kind::Value, Kind::Bit], numbers)?,
        blocks: blocks(alloc, lines)?,
    })
}

fn task_func(alloc: Global, lines: &[Line]) -> Result<LowFunc, AllocError> {
    let kinds = [
        Kind::Token,
        Kind::Value,
        Kind::CoroId,
        Kind::CoroHandle,
        Kind::CoroState,
        Kind::Number,
        Kind::CoroState,
        Kind::Number,
        Kind::Index,
    ];
    Ok(LowFunc {
        name: Items::new(alloc),
        coroutine: true,
        params: Items::new(alloc),
        results: types(alloc, &[Kind::Token, Kind::Value], 0)?,
        regs: types(alloc, &kinds, 0)?,
        blocks: blocks(alloc, lines)?,
    })
}

/// A task before coroutines are made: it gives what its value holds.
fn launched_func(alloc: Global) -> Result<LowFunc, AllocError> {
    Ok(LowFunc {
        name: Items::new(alloc),
        coroutine: true,
        params: Items::new(alloc),
        results: types(alloc, &[Kind::Number], 0)?,
        regs: types(alloc, &[Kind::Number], 0)?,
        blocks: blocks(alloc, &launched_lines())?,
    })
}

/// A function that calls none.
pub(crate) fn alone(alloc: Global, lines: &[Line], numbers: u32) -> Result<LowModule, AllocError> {
    let mut funcs = Items::new(alloc);
    funcs.push(main_func(alloc, lines, &[], numbers)?)?;
    Ok(LowModule { funcs })
}

pub(crate) fn module(
    alloc: Global,
    main: &[Line],
    params: &[u32],
    task: &[Line],
) -> Result<LowModule, AllocError> {
    let mut funcs = Items::new(alloc);
    funcs.push(main_func(alloc, main, params, 3)?)?;
    funcs.push(task_func(alloc, task)?)?;
    funcs.push(launched_func(alloc)?)?;
    Ok(LowModule { funcs })
}
