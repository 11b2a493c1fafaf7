//! Makes lowered code of plain lines.
use ir_forms::{CellTy, Dim, FuncNo, MemTy, Pred, Ty, ValTy, Width};
use lists::Items;
use low_forms::{
    Block, BlockNo, Instr, LowAttr, LowFunc, LowKind, LowModule, OpKind, Reg, Target, Term,
};
use std::alloc::{AllocError, Global};
use std::mem;

/// No register, or no block.
pub(crate) const NO: u32 = u32::MAX;

/// The types of each function's registers: a token, a value, a group, a bit, three numbers, a buffer, a coroutine's identity,
/// handle and state, and a second token and group.
const REGISTERS: &[u8] = b"tvgbnnnmihstg";

pub(crate) const TOKEN: u32 = 0;

pub(crate) const VALUE: u32 = 1;

pub(crate) const GROUP: u32 = 2;

pub(crate) const BIT: u32 = 3;

pub(crate) const A: u32 = 4;

pub(crate) const B: u32 = 5;

pub(crate) const C: u32 = 6;

pub(crate) const BUFFER: u32 = 7;

pub(crate) const ID: u32 = 8;

pub(crate) const HANDLE: u32 = 9;

pub(crate) const STATE: u32 = 10;

pub(crate) const OTHER_TOKEN: u32 = 11;

pub(crate) const OTHER_GROUP: u32 = 12;

/// An instruction, or what ends a block.
#[derive(Clone, Copy)]
pub(crate) struct Line {
    kind: OpKind,
    operands: [u32; 3],
    results: [u32; 2],
    attr: LowAttr,
    targets: [u32; 3],
    ends: bool,
}

pub(crate) fn row(kind: OpKind, operands: [u32; 3], to: u32) -> Line {
    Line {
        kind,
        operands,
        results: [to, NO],
        attr: LowAttr::None,
        targets: [NO, NO, NO],
        ends: false,
    }
}

/// An instruction with one operand.
pub(crate) fn on(kind: OpKind, operand: u32) -> Line {
    row(kind, [operand, NO, NO], NO)
}

/// An instruction with one result.
pub(crate) fn makes(kind: OpKind, to: u32) -> Line {
    row(kind, [NO, NO, NO], to)
}

pub(crate) fn number(magnitude: u64, to: u32) -> Line {
    Line {
        attr: LowAttr::Literal {
            negative: false,
            magnitude,
        },
        ..makes(OpKind::ArithConstant, to)
    }
}

/// Whether the first is less, without a sign.
pub(crate) fn less(left: u32, right: u32, to: u32) -> Line {
    Line {
        attr: LowAttr::Pred(Pred::Ult),
        ..row(OpKind::ArithCmpi, [left, right, NO], to)
    }
}

pub(crate) fn counts(kind: OpKind, object: u32, n: u64) -> Line {
    Line {
        attr: LowAttr::Count(n),
        ..on(kind, object)
    }
}

/// A call of the second function.
pub(crate) fn calls(kind: OpKind, results: [u32; 2]) -> Line {
    Line {
        results,
        attr: LowAttr::Callee(FuncNo(1)),
        ..makes(kind, NO)
    }
}

/// The line ends a block, and leads to these blocks.
pub(crate) fn ends(line: Line, targets: [u32; 3]) -> Line {
    Line {
        targets,
        ends: true,
        ..line
    }
}

fn regs(alloc: Global, numbers: &[u32]) -> Result<Items<Reg>, AllocError> {
    let mut list = Items::new(alloc);
    for number in numbers {
        if *number != NO {
            list.push(Reg(*number))?;
        }
    }
    Ok(list)
}

fn instr(alloc: Global, line: &Line) -> Result<Instr, AllocError> {
    Ok(Instr {
        kind: LowKind::Row(line.kind),
        operands: regs(alloc, &line.operands)?,
        results: regs(alloc, &line.results)?,
        attr: line.attr,
    })
}

fn block(alloc: Global, instrs: Items<Instr>, line: &Line) -> Result<Block, AllocError> {
    let mut targets = Items::new(alloc);
    for target in &line.targets {
        if *target != NO {
            targets.push(Target {
                block: BlockNo(*target),
                args: Items::new(alloc),
            })?;
        }
    }
    Ok(Block {
        params: Items::new(alloc),
        instrs,
        term: Term {
            instr: instr(alloc, line)?,
            targets,
        },
    })
}

fn blocks(alloc: Global, lines: &[Line]) -> Result<Items<Block>, AllocError> {
    let mut blocks = Items::new(alloc);
    let mut instrs = Items::new(alloc);
    for line in lines {
        if line.ends {
            let ended = mem::replace(&mut instrs, Items::new(alloc));
            blocks.push(block(alloc, ended, line)?)?;
        } else {
            instrs.push(instr(alloc, line)?)?;
        }
    }
    Ok(blocks)
}

fn ty(alloc: Global, letter: u8) -> Result<Ty, AllocError> {
    Ok(match letter {
        b't' => Ty::Token,
        b'v' => Ty::Value(ValTy::Int(Width::W64)),
        b'g' => Ty::Group,
        b'b' => Ty::Int(Width::W1),
        b'n' => Ty::Int(Width::W64),
        b'm' => Ty::Memref(MemTy {
            dims: Items::from_slice(alloc, &[Dim::Dynamic])?,
            elem: CellTy::Int(Width::W64),
        }),
        b'i' => Ty::CoroId,
        b'h' => Ty::CoroHandle,
        _ => Ty::CoroState,
    })
}

fn types(alloc: Global, letters: &[u8]) -> Result<Items<Ty>, AllocError> {
    let mut types = Items::new(alloc);
    for letter in letters {
        types.push(ty(alloc, *letter)?)?;
    }
    Ok(types)
}

fn func(
    alloc: Global,
    coroutine: bool,
    results: &[u8],
    lines: &[Line],
) -> Result<LowFunc, AllocError> {
    Ok(LowFunc {
        name: Items::new(alloc),
        coroutine,
        params: Items::new(alloc),
        results: types(alloc, results)?,
        regs: types(alloc, REGISTERS)?,
        blocks: blocks(alloc, lines)?,
    })
}

/// A function that returns a number, and one that it may call, or a coroutine.
pub(crate) fn module(
    alloc: Global,
    main: &[Line],
    coroutine: bool,
    second: &[Line],
) -> Result<LowModule, AllocError> {
    let mut funcs = Items::new(alloc);
    funcs.push(func(alloc, false, b"n", main)?)?;
    funcs.push(func(alloc, coroutine, b"tv", second)?)?;
    Ok(LowModule { funcs })
}
