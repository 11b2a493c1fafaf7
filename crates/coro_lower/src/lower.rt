//! The pass.
ghost use Rattle.std.specs.Prelude.{◌≡◌, map, cond, IfOk};
ghost use Rattle.coro_lower.specs.Layout.{layout};
ghost use Rattle.coro_lower.specs.Registers as regs;
ghost use Rattle.coro_lower.specs.Shape as shape;

use crate::plan::Plan;
use crate::registers::{object_types, reg_types};
use ir_forms::{Ty, copy_types};
use lists::Items;
use low_forms::{Block, LowFunc, LowModule};
use register_numbers::renumber;
use std::alloc::{AllocError, Global};

fn blocks(alloc: Global, func: &LowFunc) -> Result<Items<Block>, AllocError>
    ensures { IfOk result (λ made. made ≡ map (shape.label_block func.now) (layout func.now)) }
{
    let plan = Plan::of(alloc, func)?;
    let mut blocks = Items::new(alloc);
    for label in plan.labels() {
        blocks.push(plan.block(alloc, *label)?)?;
    }
    Ok(blocks)
}

fn results(alloc: Global, func: &LowFunc) -> Result<Items<Ty>, AllocError>
    ensures { IfOk result (λ types. types ≡ cond func.now.coroutine (regs.object_types func.now.results) func.now.results) }
{
    let types = func.results.as_slice();
    if func.coroutine {
        object_types(alloc, types)
    } else {
        copy_types(alloc, types)
    }
}

fn lowered(alloc: Global, func: &LowFunc) -> Result<LowFunc, AllocError>
    ensures { IfOk result (λ made. made ≡ shape.lowered func.now) }
{
    let name = Items::from_slice(alloc, func.name.as_slice())?;
    let params = Items::from_slice(alloc, func.params.as_slice())?;
    let results = results(alloc, func)?;
    let regs = reg_types(alloc, func)?;
    let blocks = blocks(alloc, func)?;
    Ok(LowFunc {
        name,
        coroutine: func.coroutine,
        params,
        results,
        regs,
        blocks,
    })
}

#[tactic(auto, unfolding(crate::specs::Shape::runtime_func))]
fn runtime_func(alloc: Global, func: &LowFunc) -> Result<LowFunc, AllocError>
    ensures { IfOk result (λ made. made ≡ shape.runtime_func func.now) }
{
    renumber(alloc, lowered(alloc, func)?)
}

/// Makes code of runtime rows from code with launches and awaits. A launch becomes a call, an await in a plain function
/// waits, and each task becomes a coroutine: it makes its objects, is resumed as a task of its own, is suspended at each
/// await, and sets its objects at its end. Registers are numbered in the order of the text. A function with more
/// registers than there are numbers is want of memory.
pub fn to_runtime(alloc: Global, code: LowModule) -> Result<LowModule, AllocError>
    ensures { IfOk result (λ done. done ≡ shape.runtime_code code) }
{
    let mut funcs = Items::new(alloc);
    for func in code.funcs.as_slice() {
        funcs.push(runtime_func(alloc, func)?)?;
    }
    Ok(LowModule { funcs })
}
