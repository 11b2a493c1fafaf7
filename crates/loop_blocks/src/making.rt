//! Operations that are made: calls, and loops that carry a truth.
ghost use Rattle.std.specs.Prelude.{◌≡◌, ◌++◌, ◌∷◌, [], IfOk, OnOk};
ghost use Rattle.ir_forms.specs.declared.ops.Op.{roll-Op};
ghost use Rattle.made_ops.specs.Made.{acts, gives, made_op, placed, truth, type_of};
ghost use Rattle.loop_blocks.specs.Made.{asks, calls, carried, carried_params, closed_with, each_taken, indexes, loop_with, message, renewed, returns, tries, tries_body, types_in, values_in};

use ir_forms::{Attr, NumTy, Op, OpKind, Region, Ty, ValueNo, Width, copy_type};
use lists::Items;
use made_ops::{Insertion, Operand};
use std::alloc::{AllocError, Global};

/// The type of a truth.
pub(crate) const TRUTH: NumTy = NumTy::Int(Width::W1);

/// What is asserted of a loop says this where it fails.
pub(crate) fn message() -> &'static str
    ensures { result.now ≡ message }
{
    "parallel loop failed"
}

// ---- values and their types

/// As many values as there are of these.
pub(crate) fn take_each(
    alloc: Global,
    made: &mut Insertion,
    values: &[ValueNo],
) -> Result<Items<ValueNo>, AllocError>
    ensures { IfOk result (λ taken. each_taken values.now made.old ≡ (taken, made.new)) }
{
    let mut taken = Items::new(alloc);
    for _value in values {
        taken.push(made.take_value()?)?;
    }
    Ok(taken)
}

/// Values with the types of these.
pub(crate) fn renew(
    alloc: Global,
    made: &mut Insertion,
    values: &[(ValueNo, Ty)],
) -> Result<Items<(ValueNo, Ty)>, AllocError>
    ensures { IfOk result (λ taken. renewed values.now made.old ≡ (taken, made.new)) }
{
    let mut taken = Items::new(alloc);
    for value in values {
        let number = made.take_value()?;
        taken.push((number, copy_type(alloc, &value.1)?))?;
    }
    Ok(taken)
}

fn values_in(alloc: Global, args: &[(ValueNo, Ty)]) -> Result<Items<ValueNo>, AllocError>
    ensures { IfOk result (λ values. values ≡ values_in args.now) }
{
    let mut values = Items::new(alloc);
    for arg in args {
        values.push(arg.0)?;
    }
    Ok(values)
}

fn types_in(alloc: Global, args: &[(ValueNo, Ty)]) -> Result<Items<Ty>, AllocError>
    ensures { IfOk result (λ types. types ≡ types_in args.now) }
{
    let mut types = Items::new(alloc);
    for arg in args {
        types.push(copy_type(alloc, &arg.1)?)?;
    }
    Ok(types)
}

/// Adds values that are numbers of turns, bounds or steps.
pub(crate) fn push_indexes(
    args: &mut Items<(ValueNo, Ty)>,
    values: &[ValueNo],
) -> Result<(), AllocError>
    ensures { OnOk result (args.new ≡ args.old ++ indexes values.now) }
{
    for value in values {
        args.push((*value, Ty::Index))?;
    }
    Ok(())
}

/// Adds values with their types.
pub(crate) fn push_typed(
    alloc: Global,
    args: &mut Items<(ValueNo, Ty)>,
    values: &[(ValueNo, Ty)],
) -> Result<(), AllocError>
    ensures { OnOk result (args.new ≡ args.old ++ values.now) }
{
    for value in values {
        let ty = copy_type(alloc, &value.1)?;
        args.push((value.0, ty))?;
    }
    Ok(())
}

/// This type alone.
pub(crate) fn one_type(alloc: Global, ty: Ty) -> Result<Items<Ty>, AllocError>
    ensures { IfOk result (λ types. types ≡ ty ∷ []) }
{
    let mut types = Items::new(alloc);
    types.push(ty)?;
    Ok(types)
}

// ---- operations

/// Adds an operation with a result of this type.
pub(crate) fn give(
    alloc: Global,
    made: &mut Insertion,
    kind: OpKind,
    operands: Items<ValueNo>,
    written: Items<Ty>,
    ty: Ty,
    attr: Attr,
) -> Result<ValueNo, AllocError>
    ensures { IfOk result (λ value. gives kind operands written ty attr made.old ≡ (value, made.new)) }
{
    let types = one_type(alloc, ty)?;
    let value = made.take_value()?;
    let results = Items::from_slice(alloc, &[value])?;
    made.ops.push(Op {
        kind,
        at: made.at,
        operands,
        groups: Items::new(alloc),
        written,
        results,
        types,
        attr,
        regions: Items::new(alloc),
    })?;
    Ok(value)
}

/// Adds an operation without a result.
pub(crate) fn act(
    alloc: Global,
    made: &mut Insertion,
    kind: OpKind,
    operands: &[ValueNo],
    written: Items<Ty>,
) -> Result<(), AllocError>
    ensures { OnOk result (made.new ≡ acts kind operands.now written Attr.None made.old) }
{
    let operands = Items::from_slice(alloc, operands)?;
    made.ops.push(Op {
        kind,
        at: made.at,
        operands,
        groups: Items::new(alloc),
        written,
        results: Items::new(alloc),
        types: Items::new(alloc),
        attr: Attr::None,
        regions: Items::new(alloc),
    })
}

/// Adds an operation that has this result and these regions.
pub(crate) fn hold(
    alloc: Global,
    made: &mut Insertion,
    kind: OpKind,
    operands: &[ValueNo],
    written: Items<Ty>,
    value: ValueNo,
    ty: Ty,
    regions: Items<Region>,
) -> Result<(), AllocError>
    ensures { OnOk result (made.new ≡ placed (made_op kind operands.now written (value ∷ []) (ty ∷ []) Attr.None regions made.old) made.old) }
{
    let types = one_type(alloc, ty)?;
    let operands = Items::from_slice(alloc, operands)?;
    let results = Items::from_slice(alloc, &[value])?;
    made.ops.push(Op {
        kind,
        at: made.at,
        operands,
        groups: Items::new(alloc),
        written,
        results,
        types,
        attr: Attr::None,
        regions,
    })
}

/// Adds a call, which tells a truth.
fn ask(
    alloc: Global,
    made: &mut Insertion,
    kind: OpKind,
    name: &[u8],
    args: &[(ValueNo, Ty)],
) -> Result<ValueNo, AllocError>
    ensures { IfOk result (λ value. asks kind name.now args.now made.old ≡ (value, made.new)) }
{
    let operands = values_in(alloc, args)?;
    let written = types_in(alloc, args)?;
    let name = Attr::Callee(Items::from_slice(alloc, name)?);
    give(
        alloc,
        made,
        kind,
        operands,
        written,
        Ty::Int(Width::W1),
        name,
    )
}

/// Adds a call of a function that gives a truth.
pub(crate) fn call(
    alloc: Global,
    made: &mut Insertion,
    name: &[u8],
    args: &[(ValueNo, Ty)],
) -> Result<ValueNo, AllocError>
    ensures { IfOk result (λ value. calls name.now args.now made.old ≡ (value, made.new)) }
{
    ask(alloc, made, OpKind::FuncCall, name, args)
}

/// Adds one more iteration: whether it succeeds, and all those before it did.
#[tactic(auto, unfolding(crate::specs::Made::tries_body))]
pub(crate) fn try_body(
    alloc: Global,
    made: &mut Insertion,
    name: &[u8],
    captured: &[(ValueNo, Ty)],
    variables: &[ValueNo],
    ok: ValueNo,
) -> Result<ValueNo, AllocError>
    ensures { IfOk result (λ value. tries_body name.now captured.now variables.now ok made.old ≡ (value, made.new)) }
{
    let mut args = Items::new(alloc);
    push_indexes(&mut args, variables)?;
    push_typed(alloc, &mut args, captured)?;
    let answer = ask(alloc, made, OpKind::AioTryCall, name, args.as_slice())?;
    made.binary(
        alloc,
        OpKind::ArithAndi,
        TRUTH,
        Operand::Value(ok),
        Operand::Value(answer),
    )
}

/// Adds the end of a function that gives a truth.
pub(crate) fn give_back(
    alloc: Global,
    made: &mut Insertion,
    value: ValueNo,
) -> Result<(), AllocError>
    ensures { OnOk result (made.new ≡ returns value made.old) }
{
    let written = one_type(alloc, Ty::Int(Width::W1))?;
    act(alloc, made, OpKind::FuncReturn, &[value], written)
}

// ---- regions

/// The region of what was made in it.
pub(crate) fn close_with(
    made: &mut Insertion,
    params: Items<(ValueNo, Ty)>,
    inner: Insertion,
) -> Region
    ensures { closed_with params made.old inner ≡ (result, made.new) }
{
    let Insertion { ops, free, .. } = inner;
    made.free = free;
    Region { params, ops }
}

/// The values of a loop that carries a truth: what it gives, and its variable and the truth so far in a turn.
#[derive(Clone, Copy)]
pub struct Carried {
    pub last: ValueNo,
    pub variable: ValueNo,
    pub ok: ValueNo,
}

/// The bounds and the step of a loop that carries a truth, and with which truth it begins.
#[derive(Clone, Copy)]
pub struct Course {
    pub lower: ValueNo,
    pub upper: ValueNo,
    pub step: ValueNo,
    pub first: ValueNo,
}

/// Takes the values of a loop that carries a truth.
#[tactic(auto, unfolding(crate::specs::Made::carried))]
pub(crate) fn take_carried(made: &mut Insertion) -> Result<Carried, AllocError>
    ensures { IfOk result (λ values. carried made.old ≡ (values, made.new)) }
{
    let last = made.take_value()?;
    let variable = made.take_value()?;
    let ok = made.take_value()?;
    Ok(Carried { last, variable, ok })
}

/// Adds a loop that carries a truth, from what was made in it.
pub(crate) fn end_loop(
    alloc: Global,
    made: &mut Insertion,
    course: Course,
    carried: Carried,
    inner: Insertion,
) -> Result<(), AllocError>
    ensures { OnOk result (loop_with course carried (closed_with (carried_params carried) made.old inner) ≡ (carried.last, made.new)) }
{
    let mut params = Items::new(alloc);
    params.push((carried.variable, Ty::Index))?;
    params.push((carried.ok, Ty::Int(Width::W1)))?;
    let region = close_with(made, params, inner);
    let mut regions = Items::new(alloc);
    regions.push(region)?;
    let Course {
        lower,
        upper,
        step,
        first,
    } = course;
    hold(
        alloc,
        made,
        OpKind::ScfFor,
        &[lower, upper, step, first],
        Items::new(alloc),
        carried.last,
        Ty::Int(Width::W1),
        regions,
    )
}
