//! What an operation is given.
ghost use Rattle.std.specs.Prelude.{◌≡◌, ◌++◌, take, drop, length, IfOk};
ghost use Rattle.check_insert.specs.Shape as shape;
ghost use Rattle.check_insert.specs.Shape.{operand_at, number_type, rank, ranges, ranges_of};

use ir_forms::{NumTy, Ty, ValueNo};
use lists::Items;
use made_ops::Operand;
use std::alloc::{AllocError, Global};

/// A dimension of a parallel loop.
#[derive(Clone, Copy)]
pub struct Range {
    pub lower: ValueNo,
    pub upper: ValueNo,
    pub step: ValueNo,
}

/// The type of the numbers that an operation works on.
pub(crate) fn number_type(types: &[Ty]) -> NumTy
    ensures { result ≡ number_type types.now }
{
    match types.first() {
        Some(Ty::Int(width)) => NumTy::Int(*width),
        _ => NumTy::Index,
    }
}

/// One of the operands; one that is missing reads as 0.
pub(crate) fn operand_at(operands: &[ValueNo], at: usize) -> Operand
    ensures { result ≡ operand_at operands.now at }
{
    match operands.get(at) {
        Some(value) => Operand::Value(*value),
        None => Operand::Number(0),
    }
}

/// How many dimensions a buffer has.
pub(crate) fn rank(types: &[Ty]) -> usize
    ensures { result ≡ rank types.now }
{
    match types.first() {
        Some(Ty::Memref(memref)) => memref.dims.len(),
        _ => 0,
    }
}

/// The first of these values, as many as this or all.
fn upto(values: &[ValueNo], count: usize) -> &[ValueNo]
    ensures { result.now ≡ take count values.now }
{
    &values[..count.min(values.len())]
}

/// All but the first of these values.
pub(crate) fn after(values: &[ValueNo], count: usize) -> &[ValueNo]
    ensures { result.now ≡ drop count values.now }
{
    &values[count.min(values.len())..]
}

fn ranges(
    alloc: Global,
    lowers: &[ValueNo],
    uppers: &[ValueNo],
    steps: &[ValueNo],
) -> Result<Items<Range>, AllocError>
    ensures { IfOk result (λ list. list ≡ ranges lowers.now uppers.now steps.now) }
{
    let mut list = Items::new(alloc);
    for (at, lower) in lowers.iter().enumerate() {
        let Some(upper) = uppers.get(at) else {
            return Ok(list);
        };
        let Some(step) = steps.get(at) else {
            return Ok(list);
        };
        list.push(Range {
            lower: *lower,
            upper: *upper,
            step: *step,
        })?;
    }
    Ok(list)
}

/// The ranges of a parallel loop, whose operands are lower bounds, upper bounds and steps in groups.
pub(crate) fn ranges_of(
    alloc: Global,
    groups: &[u32],
    operands: &[ValueNo],
) -> Result<Items<Range>, AllocError>
    ensures { IfOk result (λ list. list ≡ ranges_of groups.now operands.now) }
{
    match groups {
        [lowers, uppers, steps, ..] => {
            let rest = after(operands, *lowers as usize);
            ranges(
                alloc,
                upto(operands, *lowers as usize),
                upto(rest, *uppers as usize),
                upto(after(rest, *uppers as usize), *steps as usize),
            )
        }
        _ => Ok(Items::new(alloc)),
    }
}
