//! What stands in the place of a parallel loop.
ghost use Rattle.std.specs.Prelude.{◌≡◌, ◌++◌, ◌∷◌, [], IfOk, OnOk};
ghost use Rattle.made_ops.specs.Made.{constant, truth, yielding};
ghost use Rattle.loop_blocks.specs.Loops.{all_turns, chooses_blocks, nested, one_block, product, product_from, runs_blocks, serial_loop, several_blocks, split_loop, told_of};

use crate::blocks::{block_args, block_size, index, rounded_up};
use crate::halves::{Range, dispatch_args};
use crate::making::{Course, TRUTH, act, call, end_loop, give, message, take_carried, try_body};
use crate::options::Options;
use crate::told::{Plan, Told};
use ir_forms::{Attr, NumTy, OpKind, Pred, Region, Ty, ValueNo, copy_params};
use lists::Items;
use made_ops::{Insertion, Operand};
use std::alloc::{AllocError, Global};

// ---- a split loop

/// Adds the turns of each dimension, and gives them behind these.
fn push_turns(
    alloc: Global,
    made: &mut Insertion,
    lowers: &[ValueNo],
    uppers: &[ValueNo],
    steps: &[ValueNo],
    all: &mut Items<ValueNo>,
) -> Result<(), AllocError>
    ensures { OnOk result ((all.new ≡ all.old ++ (all_turns lowers.now uppers.now steps.now made.old).0) × (made.new ≡ (all_turns lowers.now uppers.now steps.now made.old).1)) }
{
    let [lower, lowers @ ..] = lowers else {
        return Ok(());
    };
    let [upper, uppers @ ..] = uppers else {
        return Ok(());
    };
    let [step, steps @ ..] = steps else {
        return Ok(());
    };
    all.push(made.turns(alloc, *lower, *upper, *step)?)?;
    push_turns(alloc, made, lowers, uppers, steps, all)
}

/// Adds the product of numbers, from left to right.
fn product(alloc: Global, made: &mut Insertion, numbers: &[ValueNo]) -> Result<ValueNo, AllocError>
    ensures { IfOk result (λ value. product numbers.now made.old ≡ (value, made.new)) }
{
    let [first, more @ ..] = numbers else {
        return made.constant(alloc, NumTy::Index, 1);
    };
    let mut product = *first;
    for number in more {
        product = index(
            alloc,
            made,
            OpKind::ArithMuli,
            Operand::Value(product),
            Operand::Value(*number),
        )?;
    }
    Ok(product)
}

/// Adds the call for one block alone.
fn one_block(
    alloc: Global,
    made: &mut Insertion,
    block: &[u8],
    told: &Told,
) -> Result<ValueNo, AllocError>
    ensures { IfOk result (λ value. one_block block.now told.now made.old ≡ (value, made.new)) }
{
    let zero = made.constant(alloc, NumTy::Index, 0)?;
    let args = block_args(alloc, zero, told)?;
    call(alloc, made, block, args.as_slice())
}

/// Adds the call for several blocks, all but the first of which are elements of a group.
fn several_blocks(
    alloc: Global,
    made: &mut Insertion,
    dispatch: &[u8],
    count: ValueNo,
    told: &Told,
) -> Result<ValueNo, AllocError>
    ensures { IfOk result (λ value. several_blocks dispatch.now count told.now made.old ≡ (value, made.new)) }
{
    let others = index(
        alloc,
        made,
        OpKind::ArithSubi,
        Operand::Value(count),
        Operand::Number(1),
    )?;
    let operands = Items::from_slice(alloc, &[others])?;
    let group = give(
        alloc,
        made,
        OpKind::AsyncCreateGroup,
        operands,
        Items::new(alloc),
        Ty::Group,
        Attr::None,
    )?;
    let first = made.constant(alloc, NumTy::Index, 0)?;
    let range = Range {
        group,
        first,
        end: count,
    };
    let args = dispatch_args(alloc, range, told)?;
    let ok = call(alloc, made, dispatch, args.as_slice())?;
    act(
        alloc,
        made,
        OpKind::AsyncAwaitAll,
        &[group],
        Items::new(alloc),
    )?;
    Ok(ok)
}

/// The region of one block alone.
fn one_region(
    alloc: Global,
    made: &mut Insertion,
    block: &[u8],
    told: &Told,
) -> Result<Region, AllocError>
    ensures { IfOk result (λ region. yielding truth (one_block block.now told.now) made.old ≡ (region, made.new)) }
{
    let mut inner = made.inside(alloc)?;
    let answer = one_block(alloc, &mut inner, block, told)?;
    inner.end_region(alloc, TRUTH, answer)?;
    Ok(made.close(alloc, inner))
}

/// The region of several blocks.
fn several_region(
    alloc: Global,
    made: &mut Insertion,
    dispatch: &[u8],
    count: ValueNo,
    told: &Told,
) -> Result<Region, AllocError>
    ensures { IfOk result (λ region. yielding truth (several_blocks dispatch.now count told.now) made.old ≡ (region, made.new)) }
{
    let mut inner = made.inside(alloc)?;
    let answer = several_blocks(alloc, &mut inner, dispatch, count, told)?;
    inner.end_region(alloc, TRUTH, answer)?;
    Ok(made.close(alloc, inner))
}

/// What the blocks of a loop are told.
fn told_of(
    alloc: Global,
    plan: &Plan,
    turns: &[ValueNo],
    trip: ValueNo,
    size: ValueNo,
) -> Result<Told, AllocError>
    ensures { IfOk result (λ told. told ≡ told_of plan.now turns.now trip size) }
{
    let lowers = Items::from_slice(alloc, plan.lowers.as_slice())?;
    let steps = Items::from_slice(alloc, plan.steps.as_slice())?;
    let turns = Items::from_slice(alloc, turns)?;
    let captured = copy_params(alloc, plan.captured.as_slice())?;
    Ok(Told {
        size,
        trip,
        lowers,
        steps,
        turns,
        captured,
    })
}

/// Adds the choice between one block and several.
fn choose_blocks(
    alloc: Global,
    made: &mut Insertion,
    plan: &Plan,
    count: ValueNo,
    told: &Told,
) -> Result<ValueNo, AllocError>
    ensures { IfOk result (λ value. chooses_blocks plan.now count told.now made.old ≡ (value, made.new)) }
{
    let is_one = made.compare(
        alloc,
        Pred::Eq,
        NumTy::Index,
        Operand::Value(count),
        Operand::Number(1),
    )?;
    let value = made.take_value()?;
    let one = one_region(alloc, made, plan.block.as_slice(), told)?;
    let several = several_region(alloc, made, plan.dispatch.as_slice(), count, told)?;
    made.choose(alloc, TRUTH, is_one, value, one, several)?;
    Ok(value)
}

/// Adds the iterations of a loop that has some, in blocks.
#[tactic(auto, unfolding(crate::specs::Loops::runs_blocks))]
fn run_blocks(
    alloc: Global,
    made: &mut Insertion,
    options: Options,
    plan: &Plan,
    turns: &[ValueNo],
    trip: ValueNo,
) -> Result<ValueNo, AllocError>
    ensures { IfOk result (λ value. runs_blocks options plan.now turns.now trip made.old ≡ (value, made.new)) }
{
    let size = block_size(alloc, made, options.workers, options.least, trip)?;
    let count = rounded_up(alloc, made, Operand::Value(trip), Operand::Value(size))?;
    let told = told_of(alloc, plan, turns, trip, size)?;
    choose_blocks(alloc, made, plan, count, &told)
}

/// The region of a loop that has iterations.
fn blocks_region(
    alloc: Global,
    made: &mut Insertion,
    options: Options,
    plan: &Plan,
    turns: &[ValueNo],
    trip: ValueNo,
) -> Result<Region, AllocError>
    ensures { IfOk result (λ region. yielding truth (runs_blocks options plan.now turns.now trip) made.old ≡ (region, made.new)) }
{
    let mut inner = made.inside(alloc)?;
    let answer = run_blocks(alloc, &mut inner, options, plan, turns, trip)?;
    inner.end_region(alloc, TRUTH, answer)?;
    Ok(made.close(alloc, inner))
}

/// The region of a loop that has none.
fn none_region(alloc: Global, made: &mut Insertion) -> Result<Region, AllocError>
    ensures { IfOk result (λ region. yielding truth (constant truth 1) made.old ≡ (region, made.new)) }
{
    let mut inner = made.inside(alloc)?;
    let answer = inner.constant(alloc, TRUTH, 1)?;
    inner.end_region(alloc, TRUTH, answer)?;
    Ok(made.close(alloc, inner))
}

/// Adds a split loop: its iterations in blocks, where it has any.
pub fn split_loop(
    alloc: Global,
    made: &mut Insertion,
    options: Options,
    plan: &Plan,
) -> Result<(), AllocError>
    ensures { OnOk result (made.new ≡ split_loop options plan.now made.old) }
{
    let mut turns = Items::new(alloc);
    push_turns(
        alloc,
        made,
        plan.lowers.as_slice(),
        plan.uppers.as_slice(),
        plan.steps.as_slice(),
        &mut turns,
    )?;
    let trip = product(alloc, made, turns.as_slice())?;
    let some = made.compare(
        alloc,
        Pred::Sgt,
        NumTy::Index,
        Operand::Value(trip),
        Operand::Number(0),
    )?;
    let value = made.take_value()?;
    let blocks = blocks_region(alloc, made, options, plan, turns.as_slice(), trip)?;
    let none = none_region(alloc, made)?;
    made.choose(alloc, TRUTH, some, value, blocks, none)?;
    made.assert(alloc, message().as_bytes(), value)
}

// ---- a serial loop

/// Adds loops over the dimensions that are left, within those that have these variables.
fn nest(
    alloc: Global,
    made: &mut Insertion,
    body: &[u8],
    captured: &[(ValueNo, Ty)],
    lowers: &[ValueNo],
    uppers: &[ValueNo],
    steps: &[ValueNo],
    variables: &[ValueNo],
    ok: ValueNo,
) -> Result<ValueNo, AllocError>
    ensures { IfOk result (λ value. nested body.now captured.now lowers.now uppers.now steps.now variables.now ok made.old ≡ (value, made.new)) }
{
    let [lower, lowers @ ..] = lowers else {
        return try_body(alloc, made, body, captured, variables, ok);
    };
    let [upper, uppers @ ..] = uppers else {
        return try_body(alloc, made, body, captured, variables, ok);
    };
    let [step, steps @ ..] = steps else {
        return try_body(alloc, made, body, captured, variables, ok);
    };
    let course = Course {
        lower: *lower,
        upper: *upper,
        step: *step,
        first: ok,
    };
    let carried = take_carried(made)?;
    let mut inner = made.inside(alloc)?;
    let within = with_value(alloc, variables, carried.variable)?;
    let answer = nest(
        alloc,
        &mut inner,
        body,
        captured,
        lowers,
        uppers,
        steps,
        within.as_slice(),
        carried.ok,
    )?;
    inner.end_region(alloc, TRUTH, answer)?;
    end_loop(alloc, made, course, carried, inner)?;
    Ok(carried.last)
}

/// These values, and one behind them.
fn with_value(
    alloc: Global,
    values: &[ValueNo],
    value: ValueNo,
) -> Result<Items<ValueNo>, AllocError>
    ensures { IfOk result (λ all. all ≡ values.now ++ value ∷ []) }
{
    let mut all = Items::from_slice(alloc, values)?;
    all.push(value)?;
    Ok(all)
}

/// Adds a serial loop: one loop for each dimension, the first one outermost.
pub fn serial_loop(alloc: Global, made: &mut Insertion, plan: &Plan) -> Result<(), AllocError>
    ensures { OnOk result (made.new ≡ serial_loop plan.now made.old) }
{
    let ok = made.constant(alloc, TRUTH, 1)?;
    let answer = nest(
        alloc,
        made,
        plan.body.as_slice(),
        plan.captured.as_slice(),
        plan.lowers.as_slice(),
        plan.uppers.as_slice(),
        plan.steps.as_slice(),
        &[],
        ok,
    )?;
    made.assert(alloc, message().as_bytes(), answer)
}
