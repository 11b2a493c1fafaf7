//! The functions of a loop.
ghost use Rattle.std.specs.Prelude.{◌≡◌, ◌++◌, ◌∷◌, [], take, drop, IfOk, OnOk};
ghost use Rattle.ir_forms.specs.declared.ops.Op.{out-Op};
ghost use Rattle.parallel_for.specs.Shape as shape;
ghost use Rattle.parallel_for.specs.Shape.{body_func, loop_funcs, lowers_of, planned, replacement, return_at, steps_of, uppers_of};

use ir_forms::{Attr, Func, Op, OpKind, Region, ValueNo, copy_params};
use lists::Items;
use loop_blocks::{Options, Plan, block_func, dispatch_func, serial_loop, split_loop};
use made_funcs::{Taken, Values, captures_of};
use made_ops::Insertion;
use std::alloc::{AllocError, Global};

/// The first of these values, as many as this or all.
fn upto(values: &[ValueNo], count: u32) -> &[ValueNo]
    ensures { result.now ≡ take count values.now }
{
    &values[..(count as usize).min(values.len())]
}

/// All but the first of these values.
fn after(values: &[ValueNo], count: u32) -> &[ValueNo]
    ensures { result.now ≡ drop count values.now }
{
    &values[(count as usize).min(values.len())..]
}

/// The lower bounds of a loop whose operands stand in these groups.
fn lowers_of<'a>(groups: &[u32], operands: &'a [ValueNo]) -> &'a [ValueNo]
    ensures { result.now ≡ lowers_of groups.now operands.now }
{
    match groups {
        [lowers, ..] => upto(operands, *lowers),
        _ => &[],
    }
}

/// Its upper bounds.
fn uppers_of<'a>(groups: &[u32], operands: &'a [ValueNo]) -> &'a [ValueNo]
    ensures { result.now ≡ uppers_of groups.now operands.now }
{
    match groups {
        [lowers, uppers, ..] => upto(after(operands, *lowers), *uppers),
        _ => &[],
    }
}

/// Its steps.
fn steps_of<'a>(groups: &[u32], operands: &'a [ValueNo]) -> &'a [ValueNo]
    ensures { result.now ≡ steps_of groups.now operands.now }
{
    match groups {
        [lowers, uppers, steps, ..] => upto(after(after(operands, *lowers), *uppers), *steps),
        _ => &[],
    }
}

/// The loop of this number, whose region has become this.
pub(crate) fn planned(
    alloc: Global,
    taken: &Taken<'_>,
    values: &Values,
    number: usize,
    op: &Op,
    region: &Region,
) -> Result<Plan, AllocError>
    ensures { IfOk result (λ plan. plan ≡ planned taken.now values.now number (out-Op op.now) region.now) }
{
    let used = captures_of(alloc, region)?;
    let captured = values.typed(alloc, &used)?;
    let groups = op.groups.as_slice();
    let operands = op.operands.as_slice();
    let lowers = Items::from_slice(alloc, lowers_of(groups, operands))?;
    let uppers = Items::from_slice(alloc, uppers_of(groups, operands))?;
    let steps = Items::from_slice(alloc, steps_of(groups, operands))?;
    let body = taken.made_name(alloc, b"aio.body.", number)?;
    let block = taken.made_name(alloc, b"aio.block.", number)?;
    let dispatch = taken.made_name(alloc, b"aio.dispatch.", number)?;
    Ok(Plan {
        at: op.at,
        lowers,
        uppers,
        steps,
        captured,
        body: Items::from_vec(body),
        block: Items::from_vec(block),
        dispatch: Items::from_vec(dispatch),
    })
}

/// The end of a function that gives nothing.
fn return_at(alloc: Global, at: u32) -> Op
    ensures { result ≡ return_at at }
{
    Op {
        kind: OpKind::FuncReturn,
        at,
        operands: Items::new(alloc),
        groups: Items::new(alloc),
        written: Items::new(alloc),
        results: Items::new(alloc),
        types: Items::new(alloc),
        attr: Attr::None,
        regions: Items::new(alloc),
    }
}

/// The function of an iteration.
fn body_func(alloc: Global, plan: &Plan, region: Region) -> Result<Func, AllocError>
    ensures { IfOk result (λ func. func ≡ body_func plan.now region) }
{
    let Region { params, ops } = region;
    let mut params = params;
    let mut ops = ops;
    params.append(copy_params(alloc, plan.captured.as_slice())?)?;
    ops.push(return_at(alloc, plan.at))?;
    Ok(Func {
        name: Items::from_slice(alloc, plan.body.as_slice())?,
        params,
        results: Items::new(alloc),
        body: Region {
            params: Items::new(alloc),
            ops,
        },
        at: plan.at,
    })
}

/// The functions of a loop; a serial one has no blocks.
pub(crate) fn loop_funcs(
    alloc: Global,
    split: bool,
    plan: &Plan,
    region: Region,
) -> Result<Items<Func>, AllocError>
    ensures { IfOk result (λ funcs. funcs ≡ loop_funcs split plan.now region) }
{
    let mut funcs = Items::new(alloc);
    funcs.push(body_func(alloc, plan, region)?)?;
    if split {
        funcs.push(block_func(alloc, plan)?)?;
        funcs.push(dispatch_func(alloc, plan)?)?;
    }
    Ok(funcs)
}

/// Adds what stands in the place of a loop.
fn replace(
    alloc: Global,
    made: &mut Insertion,
    options: Options,
    split: bool,
    plan: &Plan,
) -> Result<(), AllocError>
    ensures { OnOk result (made.new ≡ shape.replaces options split plan.now made.old) }
{
    if split {
        split_loop(alloc, made, options, plan)
    } else {
        serial_loop(alloc, made, plan)
    }
}

/// What stands in the place of a loop, whose values are numbered from here on.
pub(crate) fn replacement(
    alloc: Global,
    options: Options,
    split: bool,
    plan: &Plan,
    free: u32,
) -> Result<Insertion, AllocError>
    ensures { IfOk result (λ made. made ≡ replacement options split plan.now free) }
{
    let mut made = Insertion::begin(alloc, plan.at, free);
    replace(alloc, &mut made, options, split, plan)?;
    Ok(made)
}
