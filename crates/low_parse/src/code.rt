//! The code that named code stands for.
ghost use Rattle.std.specs.Prelude.{◌≡◌, ◌≤◌, ◌^◌, length, map, IfOk};
ghost use Rattle.low_names.specs.Numbers as spec;
ghost use Rattle.low_parse.specs.Scopes.{scope, IsFew, IsFuncOf, AreFuncsOf, IsCode};

use crate::names::{func_names, labels, register_names, register_types};
use crate::numbers::{Seen, instr_of, params_of, term_of};
use ir_forms::{OpKind, copy_types};
use lists::Items;
use low_forms::{Block, Instr, LowAttr, LowFunc, LowKind, LowModule, Term};
use low_grammar::{NameText, NamedBlock, NamedFunc, NamedInstr};
use name_lists::NameList;
use std::alloc::{AllocError, Global};

/// As many names have numbers.
const MOST: usize = 4_294_967_296;

/// The end of a block without instructions.
fn no_term(alloc: Global) -> Term
    ensures { result ≡ spec.no_term }
{
    Term {
        instr: Instr {
            kind: LowKind::Row(OpKind::AioFinish),
            operands: Items::new(alloc),
            results: Items::new(alloc),
            attr: LowAttr::None,
        },
        targets: Items::new(alloc),
    }
}

/// The instructions before the terminator.
#[tactic(auto, using(crate::proofs::Lasts::none_left, crate::proofs::Lasts::one_more))]
fn instrs_of(alloc: Global, seen: Seen, all: &[NamedInstr]) -> Result<Items<Instr>, AllocError>
    requires { IsFew seen }
    ensures { IfOk result (λ made. made ≡ spec.instrs_of (scope seen.entry) all.now) }
{
    let mut made = Items::new(alloc);
    for at in 0..all.len().saturating_sub(1) {
        made.push(instr_of(alloc, seen, &all[at])?)?;
    }
    Ok(made)
}

/// The terminator, which is the last instruction.
#[tactic(auto, using(crate::proofs::Lasts::last_at, crate::proofs::Lasts::last_none))]
fn last_of(alloc: Global, seen: Seen, all: &[NamedInstr]) -> Result<Term, AllocError>
    requires { IsFew seen }
    ensures { IfOk result (λ made. made ≡ spec.last_of (scope seen.entry) all.now) }
{
    match all.last() {
        Some(instr) => term_of(alloc, seen, instr),
        None => Ok(no_term(alloc)),
    }
}

fn block_of(alloc: Global, seen: Seen, block: &NamedBlock) -> Result<Block, AllocError>
    requires { IsFew seen }
    ensures { IfOk result (λ made. made ≡ spec.block_of (scope seen.entry) block.now) }
{
    Ok(Block {
        params: params_of(alloc, seen, block.params.as_slice())?,
        instrs: instrs_of(alloc, seen, block.instrs.as_slice())?,
        term: last_of(alloc, seen, block.instrs.as_slice())?,
    })
}

fn blocks_of(alloc: Global, seen: Seen, blocks: &[NamedBlock]) -> Result<Items<Block>, AllocError>
    requires { IsFew seen }
    ensures { IfOk result (λ made. made ≡ map (spec.block_of (scope seen.entry)) blocks.now) }
{
    let mut made = Items::new(alloc);
    for block in blocks {
        made.push(block_of(alloc, seen, block)?)?;
    }
    Ok(made)
}

/// The function that is numbered by these names.
fn func_in(alloc: Global, seen: Seen, func: &NamedFunc) -> Result<LowFunc, AllocError>
    requires { IsFew seen }
    ensures { IfOk result (λ made. made ≡ spec.func_in (scope seen.entry) func.now) }
{
    Ok(LowFunc {
        name: Items::from_slice(alloc, func.name.as_slice())?,
        coroutine: func.coroutine,
        params: params_of(alloc, seen, func.params.as_slice())?,
        results: copy_types(alloc, func.results.as_slice())?,
        regs: register_types(alloc, func)?,
        blocks: blocks_of(alloc, seen, func.blocks.as_slice())?,
    })
}

/// The function, or nothing where it has more blocks or registers than there are numbers.
fn func_of(
    alloc: Global,
    funcs: &NameList<NameText>,
    func: &NamedFunc,
) -> Result<Option<LowFunc>, AllocError>
    requires { length funcs.now ≤ 2 ^ 32 }
    ensures { IfOk result (λ made. IsFuncOf funcs.now func.now made) }
{
    let blocks = labels(alloc, func.blocks.as_slice())?;
    let registers = register_names(alloc, func)?;
    if blocks.len() > MOST || registers.len() > MOST {
        return Ok(None);
    }
    let seen = Seen {
        funcs,
        blocks: &blocks,
        registers: &registers,
    };
    Ok(Some(func_in(alloc, seen, func)?))
}

fn funcs_of(
    alloc: Global,
    names: &NameList<NameText>,
    funcs: &[NamedFunc],
) -> Result<Option<Items<LowFunc>>, AllocError>
    requires { length names.now ≤ 2 ^ 32 }
    ensures { IfOk result (λ made. AreFuncsOf names.now funcs.now made) }
{
    let mut made = Items::new(alloc);
    for func in funcs {
        match func_of(alloc, names, func)? {
            Some(func) => made.push(func)?,
            None => return Ok(None),
        }
    }
    Ok(Some(made))
}

/// The code that the functions stand for, or nothing where there are more functions, or a function has more blocks or
/// registers, than there are numbers.
pub fn code_of(alloc: Global, funcs: &[NamedFunc]) -> Result<Option<LowModule>, AllocError>
    ensures { IfOk result (λ code. IsCode funcs.now code) }
{
    let names = func_names(alloc, funcs)?;
    if names.len() > MOST {
        return Ok(None);
    }
    match funcs_of(alloc, &names, funcs)? {
        Some(funcs) => Ok(Some(LowModule { funcs })),
        None => Ok(None),
    }
}
