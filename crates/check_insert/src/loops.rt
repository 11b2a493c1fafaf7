//! Assertions before loops.
ghost use Rattle.std.specs.Prelude.{◌≡◌, [], OnOk, IfOk};
ghost use Rattle.check_insert.specs.Shape.{check_between, check_bounds, check_range, check_ranges, check_turns, each};

use crate::check::{check, check_most};
use crate::parts::Range;
use crate::sizes::check_products;
use ir_forms::{NumTy, Pred};
use lists::Items;
use made_ops::{Insertion, Operand};
use std::alloc::{AllocError, Global};

/// No loop has more turns, and no group more elements.
pub(crate) const MOST_ELEMENTS: u64 = 1 << 31;

/// The bits of -2^62, below which no bound lies.
const LEAST_BOUND: u64 = 0xc000_0000_0000_0000;

/// 2^62, above which no bound and no step lies.
const GREATEST_BOUND: u64 = 1 << 62;

/// Asserts that a number lies from this one to the greatest bound.
#[tactic(auto, unfolding(crate::specs::Shape::check_between))]
fn check_between(
    alloc: Global,
    made: &mut Insertion,
    text: &[u8],
    least: u64,
    number: Operand,
) -> Result<(), AllocError>
    ensures { OnOk result (made.new ≡ check_between text.now least number made.old) }
{
    check(
        alloc,
        made,
        text,
        Pred::Sge,
        NumTy::Index,
        number,
        Operand::Number(least),
    )?;
    check(
        alloc,
        made,
        text,
        Pred::Sle,
        NumTy::Index,
        number,
        Operand::Number(GREATEST_BOUND),
    )
}

/// Asserts that a loop's bounds and its step are in range.
pub(crate) fn check_bounds(
    alloc: Global,
    made: &mut Insertion,
    text: &[u8],
    lower: Operand,
    upper: Operand,
    step: Operand,
) -> Result<(), AllocError>
    ensures { OnOk result (made.new ≡ check_bounds text.now lower upper step made.old) }
{
    check_between(alloc, made, text, LEAST_BOUND, lower)?;
    check_between(alloc, made, text, LEAST_BOUND, upper)?;
    check_between(alloc, made, text, 1, step)
}

fn check_all_bounds(
    alloc: Global,
    made: &mut Insertion,
    text: &[u8],
    ranges: &[Range],
) -> Result<(), AllocError>
    ensures { OnOk result (made.new ≡ each (check_range text.now) ranges.now made.old) }
{
    for range in ranges {
        check_bounds(
            alloc,
            made,
            text,
            Operand::Value(range.lower),
            Operand::Value(range.upper),
            Operand::Value(range.step),
        )?;
    }
    Ok(())
}

/// Adds the turns of each dimension, and asserts that there aren't too many.
fn check_turns(
    alloc: Global,
    made: &mut Insertion,
    text: &[u8],
    ranges: &[Range],
) -> Result<Items<Operand>, AllocError>
    ensures { IfOk result (λ turns. check_turns text.now [] ranges.now made.old ≡ (turns, made.new)) }
{
    let mut all = Items::new(alloc);
    for range in ranges {
        let turns = Operand::Value(made.turns(alloc, range.lower, range.upper, range.step)?);
        check_most(alloc, made, text, MOST_ELEMENTS, turns)?;
        all.push(turns)?;
    }
    Ok(all)
}

/// Asserts that the dimensions of a parallel loop are in range, and its turns not too many.
pub(crate) fn check_ranges(
    alloc: Global,
    made: &mut Insertion,
    text: &[u8],
    ranges: &[Range],
) -> Result<(), AllocError>
    ensures { OnOk result (made.new ≡ check_ranges text.now ranges.now made.old) }
{
    check_all_bounds(alloc, made, text, ranges)?;
    let turns = check_turns(alloc, made, text, ranges)?;
    check_products(alloc, made, text, MOST_ELEMENTS, turns.as_slice())
}
