//! Blocks of iterations: how many a block has, and the function of a block.
ghost use Rattle.std.specs.Prelude.{◌≡◌, ◌++◌, ◌∷◌, [], drop, IfOk, OnOk};
ghost use Rattle.made_ops.specs.Made as made_specs;
ghost use Rattle.made_ops.specs.Made.{and_then, truth, yields};
ghost use Rattle.loop_blocks.specs.Blocks as blocks;
ghost use Rattle.loop_blocks.specs.Blocks.{at_number, block_args, block_count, block_func, block_func_of, block_ops, block_size, iteration, numbers, rounded_up, shared, told, truth_func, variables};
ghost use Rattle.loop_blocks.specs.Made.{carries, course, returns};

use crate::making::{
    Course, TRUTH, end_loop, give_back, push_indexes, push_typed, renew, take_carried, take_each,
    try_body,
};
use crate::told::{Plan, Told};
use ir_forms::{Func, NumTy, OpKind, Region, Ty, ValueNo, Width};
use lists::Items;
use made_ops::{Insertion, Operand};
use std::alloc::{AllocError, Global};

/// Adds an operation on two numbers.
pub(crate) fn index(
    alloc: Global,
    made: &mut Insertion,
    kind: OpKind,
    left: Operand,
    right: Operand,
) -> Result<ValueNo, AllocError>
    ensures { IfOk result (λ value. made_specs.binary kind NumTy.Index left right made.old ≡ (value, made.new)) }
{
    made.binary(alloc, kind, NumTy::Index, left, right)
}

/// Adds a quotient, rounded up.
pub(crate) fn rounded_up(
    alloc: Global,
    made: &mut Insertion,
    number: Operand,
    divisor: Operand,
) -> Result<ValueNo, AllocError>
    ensures { IfOk result (λ value. rounded_up number divisor made.old ≡ (value, made.new)) }
{
    let sum = index(alloc, made, OpKind::ArithAddi, number, divisor)?;
    let less = index(
        alloc,
        made,
        OpKind::ArithSubi,
        Operand::Value(sum),
        Operand::Number(1),
    )?;
    index(
        alloc,
        made,
        OpKind::ArithDivui,
        Operand::Value(less),
        divisor,
    )
}

/// Adds how many iterations a block has.
pub(crate) fn block_size(
    alloc: Global,
    made: &mut Insertion,
    workers: u32,
    least: u32,
    trip: ValueNo,
) -> Result<ValueNo, AllocError>
    ensures { IfOk result (λ value. block_size workers least trip made.old ≡ (value, made.new)) }
{
    let blocks = Operand::Number(4 * workers as u64);
    let share = rounded_up(alloc, made, Operand::Value(trip), blocks)?;
    let size = index(
        alloc,
        made,
        OpKind::ArithMaxui,
        Operand::Value(share),
        Operand::Number(least as u64),
    )?;
    index(
        alloc,
        made,
        OpKind::ArithMinui,
        Operand::Value(trip),
        Operand::Value(size),
    )
}

// ---- what a block is told

/// Adds what all blocks are told.
pub(crate) fn push_shared(
    alloc: Global,
    args: &mut Items<(ValueNo, Ty)>,
    told: &Told,
) -> Result<(), AllocError>
    ensures { OnOk result (args.new ≡ args.old ++ shared told.now) }
{
    args.push((told.size, Ty::Index))?;
    args.push((told.trip, Ty::Index))?;
    push_indexes(args, told.lowers.as_slice())?;
    push_indexes(args, told.steps.as_slice())?;
    push_indexes(args, told.turns.as_slice())?;
    push_typed(alloc, args, told.captured.as_slice())
}

/// The arguments for a block of this number.
pub(crate) fn block_args(
    alloc: Global,
    block: ValueNo,
    told: &Told,
) -> Result<Items<(ValueNo, Ty)>, AllocError>
    ensures { IfOk result (λ args. args ≡ block_args block told.now) }
{
    let mut args = Items::new(alloc);
    args.push((block, Ty::Index))?;
    push_shared(alloc, &mut args, told)?;
    Ok(args)
}

/// The parameters for what all blocks of a loop are told.
pub(crate) fn take_told(
    alloc: Global,
    made: &mut Insertion,
    plan: &Plan,
) -> Result<Told, AllocError>
    ensures { IfOk result (λ taken. told plan.now made.old ≡ (taken, made.new)) }
{
    let size = made.take_value()?;
    let trip = made.take_value()?;
    let lowers = take_each(alloc, made, plan.lowers.as_slice())?;
    let steps = take_each(alloc, made, plan.lowers.as_slice())?;
    let turns = take_each(alloc, made, plan.lowers.as_slice())?;
    let captured = renew(alloc, made, plan.captured.as_slice())?;
    Ok(Told {
        size,
        trip,
        lowers,
        steps,
        turns,
        captured,
    })
}

// ---- one iteration of a block

/// Adds the numbers in the dimensions that have these turns, from the last one on, and what is left of a linear number.
fn numbers(
    alloc: Global,
    made: &mut Insertion,
    turns: &[ValueNo],
    number: ValueNo,
) -> Result<(ValueNo, Items<ValueNo>), AllocError>
    ensures { IfOk result (λ found. numbers turns.now number made.old ≡ (found, made.new)) }
{
    let [first, more @ ..] = turns else {
        return Ok((number, Items::new(alloc)));
    };
    let (rest, later) = numbers(alloc, made, more, number)?;
    let (rest, number) = split_number(alloc, made, rest, *first)?;
    let mut all = Items::from_slice(alloc, &[number])?;
    all.append(later)?;
    Ok((rest, all))
}

/// Adds the quotient and the rest of a number by the turns of a dimension.
fn split_number(
    alloc: Global,
    made: &mut Insertion,
    number: ValueNo,
    turns: ValueNo,
) -> Result<(ValueNo, ValueNo), AllocError>
    ensures { IfOk result (λ found. blocks.split_number number turns made.old ≡ (found, made.new)) }
{
    let rest = index(
        alloc,
        made,
        OpKind::ArithRemui,
        Operand::Value(number),
        Operand::Value(turns),
    )?;
    let quotient = index(
        alloc,
        made,
        OpKind::ArithDivui,
        Operand::Value(number),
        Operand::Value(turns),
    )?;
    Ok((quotient, rest))
}

/// Adds the variable of a number.
fn at_number(
    alloc: Global,
    made: &mut Insertion,
    lower: ValueNo,
    step: ValueNo,
    number: ValueNo,
) -> Result<ValueNo, AllocError>
    ensures { IfOk result (λ value. at_number lower step number made.old ≡ (value, made.new)) }
{
    let distance = index(
        alloc,
        made,
        OpKind::ArithMuli,
        Operand::Value(number),
        Operand::Value(step),
    )?;
    index(
        alloc,
        made,
        OpKind::ArithAddi,
        Operand::Value(lower),
        Operand::Value(distance),
    )
}

/// Adds the variables of numbers, and gives them behind these.
fn push_variables(
    alloc: Global,
    made: &mut Insertion,
    lowers: &[ValueNo],
    steps: &[ValueNo],
    numbers: &[ValueNo],
    all: &mut Items<ValueNo>,
) -> Result<(), AllocError>
    ensures { OnOk result ((all.new ≡ all.old ++ (variables lowers.now steps.now numbers.now made.old).0) × (made.new ≡ (variables lowers.now steps.now numbers.now made.old).1)) }
{
    let [lower, lowers @ ..] = lowers else {
        return Ok(());
    };
    let [step, steps @ ..] = steps else {
        return Ok(());
    };
    let [number, numbers @ ..] = numbers else {
        return Ok(());
    };
    all.push(at_number(alloc, made, *lower, *step, *number)?)?;
    push_variables(alloc, made, lowers, steps, numbers, all)
}

/// These values without the first one.
fn but_first(values: &[ValueNo]) -> &[ValueNo]
    ensures { result.now ≡ drop 1 values.now }
{
    match values {
        [] => &[],
        [_, more @ ..] => more,
    }
}

/// Adds the iteration of this linear number.
#[tactic(auto, unfolding(crate::specs::Blocks::iteration))]
fn iterate(
    alloc: Global,
    made: &mut Insertion,
    body: &[u8],
    told: &Told,
    number: ValueNo,
    ok: ValueNo,
) -> Result<ValueNo, AllocError>
    ensures { IfOk result (λ value. iteration body.now told.now number ok made.old ≡ (value, made.new)) }
{
    let turns = but_first(told.turns.as_slice());
    let (first, later) = numbers(alloc, made, turns, number)?;
    let mut all = Items::from_slice(alloc, &[first])?;
    all.append(later)?;
    let mut variables = Items::new(alloc);
    push_variables(
        alloc,
        made,
        told.lowers.as_slice(),
        told.steps.as_slice(),
        all.as_slice(),
        &mut variables,
    )?;
    try_body(
        alloc,
        made,
        body,
        told.captured.as_slice(),
        variables.as_slice(),
        ok,
    )
}

/// Adds an iteration as what a region gives.
fn yield_iteration(
    alloc: Global,
    made: &mut Insertion,
    body: &[u8],
    told: &Told,
    number: ValueNo,
    ok: ValueNo,
) -> Result<(), AllocError>
    ensures { OnOk result (made.new ≡ and_then (iteration body.now told.now number ok) (yields truth) made.old) }
{
    let answer = iterate(alloc, made, body, told, number, ok)?;
    made.end_region(alloc, TRUTH, answer)
}

// ---- the function of a block

/// Adds the loop over the iterations of a block.
fn iterate_all(
    alloc: Global,
    made: &mut Insertion,
    body: &[u8],
    told: &Told,
    range: Course,
) -> Result<ValueNo, AllocError>
    ensures { IfOk result (λ value. carries range (iteration body.now told.now) made.old ≡ (value, made.new)) }
{
    let carried = take_carried(made)?;
    let mut inner = made.inside(alloc)?;
    yield_iteration(alloc, &mut inner, body, told, carried.variable, carried.ok)?;
    end_loop(alloc, made, range, carried, inner)?;
    Ok(carried.last)
}

/// Adds the first number of a block and the one behind its last.
fn block_range(
    alloc: Global,
    made: &mut Insertion,
    block: ValueNo,
    told: &Told,
) -> Result<Course, AllocError>
    ensures { IfOk result (λ range. blocks.block_range block told.now made.old ≡ (range, made.new)) }
{
    let size = Operand::Value(told.size);
    let lower = index(alloc, made, OpKind::ArithMuli, Operand::Value(block), size)?;
    let next = index(alloc, made, OpKind::ArithAddi, Operand::Value(lower), size)?;
    let upper = index(
        alloc,
        made,
        OpKind::ArithMinui,
        Operand::Value(next),
        Operand::Value(told.trip),
    )?;
    let step = made.constant(alloc, NumTy::Index, 1)?;
    let first = made.constant(alloc, TRUTH, 1)?;
    Ok(Course {
        lower,
        upper,
        step,
        first,
    })
}

/// Adds the iterations of a block.
#[tactic(auto, unfolding(crate::specs::Blocks::block_ops))]
fn add_block(
    alloc: Global,
    made: &mut Insertion,
    body: &[u8],
    block: ValueNo,
    told: &Told,
) -> Result<(), AllocError>
    ensures { OnOk result (made.new ≡ block_ops body.now block told.now made.old) }
{
    let range = block_range(alloc, made, block, told)?;
    let answer = iterate_all(alloc, made, body, told, range)?;
    give_back(alloc, made, answer)
}

/// A function that gives a truth, with what was made in it.
pub(crate) fn truth_func(
    alloc: Global,
    name: &[u8],
    params: Items<(ValueNo, Ty)>,
    made: Insertion,
) -> Result<Func, AllocError>
    ensures { IfOk result (λ func. func ≡ truth_func name.now params made) }
{
    let name = Items::from_slice(alloc, name)?;
    let mut results = Items::new(alloc);
    results.push(Ty::Int(Width::W1))?;
    let Insertion { ops, at, .. } = made;
    Ok(Func {
        name,
        params,
        results,
        body: Region {
            params: Items::new(alloc),
            ops,
        },
        at,
    })
}

/// The function of a block, from its parameters.
#[tactic(auto, unfolding(crate::specs::Blocks::block_func_of))]
fn block_func_of(
    alloc: Global,
    plan: &Plan,
    block: ValueNo,
    told: &Told,
    made: Insertion,
) -> Result<Func, AllocError>
    ensures { IfOk result (λ func. func ≡ block_func_of plan.now block told.now made) }
{
    let mut made = made;
    add_block(alloc, &mut made, plan.body.as_slice(), block, told)?;
    let params = block_args(alloc, block, told)?;
    truth_func(alloc, plan.block.as_slice(), params, made)
}

/// The function of a block.
pub fn block_func(alloc: Global, plan: &Plan) -> Result<Func, AllocError>
    ensures { IfOk result (λ func. func ≡ block_func plan.now) }
{
    let mut made = Insertion::begin(alloc, plan.at, 0);
    let block = made.take_value()?;
    let told = take_told(alloc, &mut made, plan)?;
    block_func_of(alloc, plan, block, &told, made)
}
