//! A module with its checks.
ghost use Rattle.std.specs.Prelude.{◌≡◌, ◌++◌, IfOk, map};
ghost use Rattle.ir_forms.specs.Numbers.{in_turn, joined};
ghost use Rattle.check_insert.specs.Shape as shape;
ghost use Rattle.check_insert.specs.Shape.{checked_op, checked_region, checked_func};

use crate::free::first_free;
use crate::guarded::insertion;
use ir_forms::{Func, Module, Op, Region, copy_op, copy_params, copy_types};
use lists::Items;
use std::alloc::{AllocError, Global};

/// The operations, each behind its insertion, and the next free number.
#[cycle(walk)]
fn checked_ops(alloc: Global, ops: &[Op], free: u32) -> Result<(Items<Op>, u32), AllocError>
    ensures { IfOk result (λ done. (joined (in_turn (map checked_op ops.now) free).0, (in_turn (map checked_op ops.now) free).1) ≡ done) }
{
    let mut all = Items::new(alloc);
    let mut last = free;
    for op in ops {
        last = add_checked(alloc, op, last, &mut all)?;
    }
    Ok((all, last))
}

/// Adds an operation behind its insertion, and gives the next free number.
#[cycle(walk)]
fn add_checked(alloc: Global, op: &Op, free: u32, all: &mut Items<Op>) -> Result<u32, AllocError>
    ensures { IfOk result (λ last. (all.new ≡ all.old ++ (checked_op op.now free).0) × (last ≡ (checked_op op.now free).1)) }
{
    let made = insertion(alloc, op, free)?;
    let last = made.free;
    all.append(made.ops)?;
    let (regions, last) = checked_regions(alloc, op.regions.as_slice(), last)?;
    all.push(copy_op(alloc, op, regions)?)?;
    Ok(last)
}

#[cycle(walk)]
fn checked_regions(
    alloc: Global,
    regions: &[Region],
    free: u32,
) -> Result<(Items<Region>, u32), AllocError>
    ensures { IfOk result (λ done. in_turn (map checked_region regions.now) free ≡ done) }
{
    let mut all = Items::new(alloc);
    let mut last = free;
    for region in regions {
        let (checked, next) = checked_region(alloc, region, last)?;
        all.push(checked)?;
        last = next;
    }
    Ok((all, last))
}

#[cycle(walk)]
fn checked_region(alloc: Global, region: &Region, free: u32) -> Result<(Region, u32), AllocError>
    ensures { IfOk result (λ done. checked_region region.now free ≡ done) }
{
    let params = copy_params(alloc, region.params.as_slice())?;
    let (ops, last) = checked_ops(alloc, region.ops.as_slice(), free)?;
    Ok((Region { params, ops }, last))
}

fn checked_func(alloc: Global, func: &Func) -> Result<Func, AllocError>
    ensures { IfOk result (λ done. done ≡ checked_func func.now) }
{
    let free = u32::try_from(first_free(func)).ok().ok_or(AllocError)?;
    let name = Items::from_slice(alloc, func.name.as_slice())?;
    let params = copy_params(alloc, func.params.as_slice())?;
    let results = copy_types(alloc, func.results.as_slice())?;
    let (body, _) = checked_region(alloc, &func.body, free)?;
    Ok(Func {
        name,
        params,
        results,
        body,
        at: func.at,
    })
}

/// The module with its checks, whose values are numbered behind those of their functions. A function whose values pass
/// 2^32 is want of memory.
pub fn checked(alloc: Global, program: &Module) -> Result<Module, AllocError>
    ensures { IfOk result (λ done. done ≡ shape.checked program.now) }
{
    let mut funcs = Items::new(alloc);
    for func in program.funcs.as_slice() {
        funcs.push(checked_func(alloc, func)?)?;
    }
    Ok(Module { funcs })
}
