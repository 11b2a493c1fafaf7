//! Makes lowered code of plain lines.
use ir_forms::{CellTy, Dim, MemTy, OpKind, Ty, ValTy, Width};
use lists::Items;
use low_forms::{Block, BlockNo, Instr, LowAttr, LowFunc, LowKind, LowModule, Reg, Target, Term};
use std::alloc::{AllocError, Global};
use std::mem;

/// An instruction: its kind, its operands, its results, its attribute, and nothing; or what ends a block, where the results
/// are the parameters of the block, and then its targets and the arguments of each.
pub(crate) type Line = (
    OpKind,
    Numbers,
    Numbers,
    LowAttr,
    Option<(Numbers, Numbers)>,
);

type Numbers = &'static [u32];

/// A function, with a letter for the type of each result and each register, and the coroutine that it launches.
#[derive(Clone, Copy)]
pub(crate) struct Code {
    pub(crate) results: &'static [u8],
    pub(crate) letters: &'static [u8],
    pub(crate) lines: &'static [Line],
    pub(crate) task: &'static [Line],
}

fn regs(alloc: Global, numbers: &[u32]) -> Result<Items<Reg>, AllocError> {
    let mut list = Items::new(alloc);
    for number in numbers {
        list.push(Reg(*number))?;
    }
    Ok(list)
}

fn instr(
    alloc: Global,
    kind: OpKind,
    operands: &[u32],
    results: &[u32],
    attr: LowAttr,
) -> Result<Instr, AllocError> {
    let operands = regs(alloc, operands)?;
    let results = regs(alloc, results)?;
    Ok(Instr {
        kind: LowKind::Row(kind),
        operands,
        results,
        attr,
    })
}

fn targets(alloc: Global, blocks: &[u32], args: &[u32]) -> Result<Items<Target>, AllocError> {
    let mut list = Items::new(alloc);
    for block in blocks {
        let args = regs(alloc, args)?;
        list.push(Target {
            block: BlockNo(*block),
            args,
        })?;
    }
    Ok(list)
}

fn blocks(alloc: Global, lines: &[Line]) -> Result<Items<Block>, AllocError> {
    let mut blocks = Items::new(alloc);
    let mut instrs = Items::new(alloc);
    for (kind, operands, results, attr, ends) in lines {
        match ends {
            None => instrs.push(instr(alloc, *kind, operands, results, *attr)?)?,
            Some((to, args)) => {
                let params = regs(alloc, results)?;
                let targets = targets(alloc, to, args)?;
                let instr = instr(alloc, *kind, operands, &[], *attr)?;
                let instrs = mem::replace(&mut instrs, Items::new(alloc));
                let term = Term { instr, targets };
                blocks.push(Block {
                    params,
                    instrs,
                    term,
                })?;
            }
        }
    }
    Ok(blocks)
}

/// A type, by a letter: a bit, a number of 64 bits, a token, a value that holds one, a group, a buffer, or a coroutine's
/// identity, handle or state.
fn ty(alloc: Global, letter: u8) -> Result<Ty, AllocError> {
    Ok(match letter {
        b'b' => Ty::Int(Width::W1),
        b't' => Ty::Token,
        b'v' => Ty::Value(ValTy::Int(Width::W64)),
        b'g' => Ty::Group,
        b'm' => Ty::Memref(MemTy {
            dims: Items::from_slice(alloc, &[Dim::Dynamic])?,
            elem: CellTy::Int(Width::W64),
        }),
        b'i' => Ty::CoroId,
        b'h' => Ty::CoroHandle,
        b's' => Ty::CoroState,
        _ => Ty::Int(Width::W64),
    })
}

fn types(alloc: Global, letters: &[u8]) -> Result<Items<Ty>, AllocError> {
    let mut types = Items::new(alloc);
    for letter in letters {
        types.push(ty(alloc, *letter)?)?;
    }
    Ok(types)
}

fn func(
    alloc: Global,
    results: &[u8],
    letters: &[u8],
    lines: &[Line],
) -> Result<LowFunc, AllocError> {
    let coroutine = results.len() > 1;
    let results = types(alloc, results)?;
    let regs = types(alloc, letters)?;
    let blocks = blocks(alloc, lines)?;
    Ok(LowFunc {
        name: Items::new(alloc),
        coroutine,
        params: Items::new(alloc),
        results,
        regs,
        blocks,
    })
}

/// The module of a function and of its coroutine.
pub(crate) fn module(alloc: Global, code: &Code) -> Result<LowModule, AllocError> {
    let mut funcs = Items::new(alloc);
    funcs.push(func(alloc, code.results, code.letters, code.lines)?)?;
    funcs.push(func(alloc, b"tv", b"tvihsn", code.task)?)?;
    Ok(LowModule { funcs })
}
