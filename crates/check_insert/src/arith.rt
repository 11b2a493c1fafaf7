//! Assertions before arithmetic.
ghost use Rattle.std.specs.Prelude.{◌≡◌, OnOk};
ghost use Rattle.check_insert.specs.Shape.{check_divisor, check_quotient};

use crate::check::check;
use ir_forms::{NumTy, OpKind, Pred, Width};
use made_ops::{Insertion, Operand, least, minus_one};
use std::alloc::{AllocError, Global};

pub(crate) fn check_divisor(
    alloc: Global,
    made: &mut Insertion,
    text: &[u8],
    ty: NumTy,
    divisor: Operand,
) -> Result<(), AllocError>
    ensures { OnOk result (made.new ≡ check_divisor text.now ty divisor made.old) }
{
    check(alloc, made, text, Pred::Ne, ty, divisor, Operand::Number(0))
}

/// Asserts that the divisor isn't 0, and isn't -1 where the least number is divided.
#[tactic(auto, unfolding(crate::specs::Shape::check_quotient))]
pub(crate) fn check_quotient(
    alloc: Global,
    made: &mut Insertion,
    text: &[u8],
    ty: NumTy,
    dividend: Operand,
    divisor: Operand,
) -> Result<(), AllocError>
    ensures { OnOk result (made.new ≡ check_quotient text.now ty dividend divisor made.old) }
{
    let truth = NumTy::Int(Width::W1);
    let divides = made.compare(alloc, Pred::Ne, ty, divisor, Operand::Number(0))?;
    let above_least = made.compare(alloc, Pred::Ne, ty, dividend, Operand::Number(least(ty)))?;
    let keeps_sign = made.compare(alloc, Pred::Ne, ty, divisor, Operand::Number(minus_one(ty)))?;
    let fits = made.binary(
        alloc,
        OpKind::ArithOri,
        truth,
        Operand::Value(above_least),
        Operand::Value(keeps_sign),
    )?;
    let holds = made.binary(
        alloc,
        OpKind::ArithAndi,
        truth,
        Operand::Value(divides),
        Operand::Value(fits),
    )?;
    made.assert(alloc, text, holds)
}
