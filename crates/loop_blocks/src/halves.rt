//! The function that hands on blocks, half by half.
ghost use Rattle.std.specs.Prelude.{◌≡◌, ◌∷◌, [], IfOk, OnOk};
ghost use Rattle.made_ops.specs.Made.{inside};
ghost use Rattle.loop_blocks.specs.Halves.{dispatch_args, dispatch_func, dispatch_func_of, dispatch_ops, goes_on, halves, halving, hands_on, launch_of, launches, middle, range_taken, while_of};
ghost use Rattle.loop_blocks.specs.Made.{closed_with, message, region_of};

use crate::blocks::{block_args, index, push_shared, take_told, truth_func};
use crate::making::{act, call, close_with, give, give_back, hold, message, one_type};
use crate::told::{Plan, Told};
use ir_forms::{Attr, Func, NumTy, Op, OpKind, Pred, Region, Ty, ValueNo};
use lists::Items;
use made_ops::{Insertion, Operand};
use std::alloc::{AllocError, Global};

/// A range of blocks that is handed on: the group, the first block, and the end.
#[derive(Clone, Copy)]
pub struct Range {
    pub group: ValueNo,
    pub first: ValueNo,
    pub end: ValueNo,
}

/// The arguments for a range of blocks.
pub(crate) fn dispatch_args(
    alloc: Global,
    range: Range,
    told: &Told,
) -> Result<Items<(ValueNo, Ty)>, AllocError>
    ensures { IfOk result (λ args. args ≡ dispatch_args range told.now) }
{
    let mut args = Items::new(alloc);
    args.push((range.group, Ty::Group))?;
    args.push((range.first, Ty::Index))?;
    args.push((range.end, Ty::Index))?;
    push_shared(alloc, &mut args, told)?;
    Ok(args)
}

/// Adds the call for a range of blocks, and asserts its answer.
fn hand_on(
    alloc: Global,
    made: &mut Insertion,
    dispatch: &[u8],
    range: Range,
    told: &Told,
) -> Result<(), AllocError>
    ensures { OnOk result (made.new ≡ hands_on dispatch.now range told.now made.old) }
{
    let args = dispatch_args(alloc, range, told)?;
    let ok = call(alloc, made, dispatch, args.as_slice())?;
    made.assert(alloc, message().as_bytes(), ok)?;
    act(alloc, made, OpKind::AsyncYield, &[], Items::new(alloc))
}

/// Adds a launch that has this token and this region.
fn add_launch(
    alloc: Global,
    made: &mut Insertion,
    token: ValueNo,
    inner: Insertion,
) -> Result<(), AllocError>
    ensures { OnOk result (launch_of token (closed_with [] made.old inner) ≡ (token, made.new)) }
{
    let region = close_with(made, Items::new(alloc), inner);
    let mut regions = Items::new(alloc);
    regions.push(region)?;
    let groups = Items::from_slice(alloc, &[0, 0])?;
    let results = Items::from_slice(alloc, &[token])?;
    let types = one_type(alloc, Ty::Token)?;
    made.ops.push(Op {
        kind: OpKind::AsyncExecute,
        at: made.at,
        operands: Items::new(alloc),
        groups,
        written: Items::new(alloc),
        results,
        types,
        attr: Attr::None,
        regions,
    })
}

/// Adds the launch of a range of blocks.
fn launch(
    alloc: Global,
    made: &mut Insertion,
    dispatch: &[u8],
    range: Range,
    told: &Told,
) -> Result<ValueNo, AllocError>
    ensures { IfOk result (λ value. launches (hands_on dispatch.now range told.now) made.old ≡ (value, made.new)) }
{
    let token = made.take_value()?;
    let mut inner = made.inside(alloc)?;
    hand_on(alloc, &mut inner, dispatch, range, told)?;
    add_launch(alloc, made, token, inner)?;
    Ok(token)
}

/// Adds whether a range has more than one block, as the end of a loop's condition.
fn go_on(
    alloc: Global,
    made: &mut Insertion,
    first: ValueNo,
    end: ValueNo,
) -> Result<(), AllocError>
    ensures { OnOk result (made.new ≡ goes_on first end made.old) }
{
    let blocks = index(
        alloc,
        made,
        OpKind::ArithSubi,
        Operand::Value(end),
        Operand::Value(first),
    )?;
    let several = made.compare(
        alloc,
        Pred::Sgt,
        NumTy::Index,
        Operand::Value(blocks),
        Operand::Number(1),
    )?;
    let written = one_type(alloc, Ty::Index)?;
    act(alloc, made, OpKind::ScfCondition, &[several, end], written)
}

/// Adds the first block of the upper half of a range.
fn middle(
    alloc: Global,
    made: &mut Insertion,
    first: ValueNo,
    end: ValueNo,
) -> Result<ValueNo, AllocError>
    ensures { IfOk result (λ value. middle first end made.old ≡ (value, made.new)) }
{
    let blocks = index(
        alloc,
        made,
        OpKind::ArithSubi,
        Operand::Value(end),
        Operand::Value(first),
    )?;
    let half = index(
        alloc,
        made,
        OpKind::ArithDivui,
        Operand::Value(blocks),
        Operand::Number(2),
    )?;
    index(
        alloc,
        made,
        OpKind::ArithAddi,
        Operand::Value(first),
        Operand::Value(half),
    )
}

/// Adds the launch of the upper half of a range, and gives the end of the lower half.
fn halve(
    alloc: Global,
    made: &mut Insertion,
    dispatch: &[u8],
    range: Range,
    told: &Told,
) -> Result<(), AllocError>
    ensures { OnOk result (made.new ≡ halves dispatch.now range told.now made.old) }
{
    let mid = middle(alloc, made, range.first, range.end)?;
    let upper = Range {
        group: range.group,
        first: mid,
        end: range.end,
    };
    let token = launch(alloc, made, dispatch, upper, told)?;
    let operands = Items::from_slice(alloc, &[token, range.group])?;
    let written = one_type(alloc, Ty::Token)?;
    give(
        alloc,
        made,
        OpKind::AsyncAddToGroup,
        operands,
        written,
        Ty::Index,
        Attr::None,
    )?;
    made.end_region(alloc, NumTy::Index, mid)
}

/// The region that was made inside, whose parameter is the end of a range.
fn close_range(
    alloc: Global,
    made: &mut Insertion,
    end: ValueNo,
    inner: Insertion,
) -> Result<Region, AllocError>
    ensures { IfOk result (λ region. closed_with ((end, Ty.Index) ∷ []) made.old inner ≡ (region, made.new)) }
{
    let mut params = Items::new(alloc);
    params.push((end, Ty::Index))?;
    Ok(close_with(made, params, inner))
}

/// The region that tells whether a range has more than one block.
fn condition(
    alloc: Global,
    made: &mut Insertion,
    first: ValueNo,
    end: ValueNo,
) -> Result<Region, AllocError>
    ensures { IfOk result (λ region. region_of ((end, Ty.Index) ∷ []) (goes_on first end) made.old ≡ (region, made.new)) }
{
    let mut inner = made.inside(alloc)?;
    go_on(alloc, &mut inner, first, end)?;
    close_range(alloc, made, end, inner)
}

/// The region that hands on the upper half of a range.
fn turn(
    alloc: Global,
    made: &mut Insertion,
    dispatch: &[u8],
    range: Range,
    told: &Told,
) -> Result<Region, AllocError>
    ensures { IfOk result (λ region. region_of ((range.end, Ty.Index) ∷ []) (halves dispatch.now range told.now) made.old ≡ (region, made.new)) }
{
    let mut inner = made.inside(alloc)?;
    halve(alloc, &mut inner, dispatch, range, told)?;
    close_range(alloc, made, range.end, inner)
}

/// Adds the loop that hands on the upper halves of a range.
fn halve_all(
    alloc: Global,
    made: &mut Insertion,
    dispatch: &[u8],
    range: Range,
    told: &Told,
) -> Result<(), AllocError>
    ensures { OnOk result (made.new ≡ (halving dispatch.now range told.now made.old).1) }
{
    let left = made.take_value()?;
    let end = made.take_value()?;
    let before = condition(alloc, made, range.first, end)?;
    let end = made.take_value()?;
    let rest = Range {
        group: range.group,
        first: range.first,
        end,
    };
    let after = turn(alloc, made, dispatch, rest, told)?;
    let mut regions = Items::new(alloc);
    regions.push(before)?;
    regions.push(after)?;
    let written = one_type(alloc, Ty::Index)?;
    hold(
        alloc,
        made,
        OpKind::ScfWhile,
        &[range.end],
        written,
        left,
        Ty::Index,
        regions,
    )
}

/// Adds what hands on a range of blocks: the loop, and the first block.
#[tactic(auto, unfolding(crate::specs::Halves::dispatch_ops))]
fn add_dispatch(
    alloc: Global,
    made: &mut Insertion,
    dispatch: &[u8],
    block: &[u8],
    range: Range,
    told: &Told,
) -> Result<(), AllocError>
    ensures { OnOk result (made.new ≡ dispatch_ops dispatch.now block.now range told.now made.old) }
{
    halve_all(alloc, made, dispatch, range, told)?;
    let args = block_args(alloc, range.first, told)?;
    let answer = call(alloc, made, block, args.as_slice())?;
    give_back(alloc, made, answer)
}

/// The parameters for a range of blocks.
#[tactic(auto, unfolding(crate::specs::Halves::range_taken))]
fn take_range(made: &mut Insertion) -> Result<Range, AllocError>
    ensures { IfOk result (λ range. range_taken made.old ≡ (range, made.new)) }
{
    let group = made.take_value()?;
    let first = made.take_value()?;
    let end = made.take_value()?;
    Ok(Range { group, first, end })
}

/// The function that hands on blocks, from its parameters.
#[tactic(auto, unfolding(crate::specs::Halves::dispatch_func_of))]
fn dispatch_func_of(
    alloc: Global,
    plan: &Plan,
    range: Range,
    told: &Told,
    made: Insertion,
) -> Result<Func, AllocError>
    ensures { IfOk result (λ func. func ≡ dispatch_func_of plan.now range told.now made) }
{
    let mut made = made;
    let dispatch = plan.dispatch.as_slice();
    add_dispatch(
        alloc,
        &mut made,
        dispatch,
        plan.block.as_slice(),
        range,
        told,
    )?;
    let params = dispatch_args(alloc, range, told)?;
    truth_func(alloc, dispatch, params, made)
}

/// The function that hands on blocks.
pub fn dispatch_func(alloc: Global, plan: &Plan) -> Result<Func, AllocError>
    ensures { IfOk result (λ func. func ≡ dispatch_func plan.now) }
{
    let mut made = Insertion::begin(alloc, plan.at, 0);
    let range = take_range(&mut made)?;
    let told = take_told(alloc, &mut made, plan)?;
    dispatch_func_of(alloc, plan, range, &told, made)
}
