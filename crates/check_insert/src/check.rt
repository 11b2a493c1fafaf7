//! One assertion.
ghost use Rattle.std.specs.Prelude.{◌≡◌, OnOk};
ghost use Rattle.check_insert.specs.Shape.{check, check_most};

use ir_forms::{NumTy, Pred};
use made_ops::{Insertion, Operand};
use std::alloc::{AllocError, Global};

/// Asserts that two numbers compare so.
pub(crate) fn check(
    alloc: Global,
    made: &mut Insertion,
    text: &[u8],
    pred: Pred,
    ty: NumTy,
    left: Operand,
    right: Operand,
) -> Result<(), AllocError>
    ensures { OnOk result (made.new ≡ check text.now pred ty left right made.old) }
{
    let holds = made.compare(alloc, pred, ty, left, right)?;
    made.assert(alloc, text, holds)
}

/// Asserts that a number is at most this.
pub(crate) fn check_most(
    alloc: Global,
    made: &mut Insertion,
    text: &[u8],
    limit: u64,
    number: Operand,
) -> Result<(), AllocError>
    ensures { OnOk result (made.new ≡ check_most text.now limit number made.old) }
{
    check(
        alloc,
        made,
        text,
        Pred::Ule,
        NumTy::Index,
        number,
        Operand::Number(limit),
    )
}
