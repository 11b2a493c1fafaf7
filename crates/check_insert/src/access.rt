//! Assertions before an access to a buffer.
ghost use Rattle.std.specs.Prelude.{◌≡◌, OnOk};
ghost use Rattle.check_insert.specs.Shape.{check_access, check_index, check_indexes};

use crate::check::check;
use ir_forms::{MemTy, NumTy, Pred, Ty, ValueNo};
use made_ops::{Insertion, Operand};
use std::alloc::{AllocError, Global};

/// Asserts that the index is below the buffer's dimension of this number.
#[tactic(auto, unfolding(crate::specs::Shape::check_index))]
fn check_index(
    alloc: Global,
    made: &mut Insertion,
    text: &[u8],
    memref: &MemTy,
    buffer: ValueNo,
    dimension: u64,
    index: ValueNo,
) -> Result<(), AllocError>
    ensures { OnOk result (made.new ≡ check_index text.now memref.now buffer dimension index made.old) }
{
    let size = made.dimension(alloc, memref, buffer, dimension)?;
    check(
        alloc,
        made,
        text,
        Pred::Ult,
        NumTy::Index,
        Operand::Value(index),
        Operand::Value(size),
    )
}

fn check_indexes(
    alloc: Global,
    made: &mut Insertion,
    text: &[u8],
    memref: &MemTy,
    buffer: ValueNo,
    indexes: &[ValueNo],
) -> Result<(), AllocError>
    ensures { OnOk result (made.new ≡ check_indexes text.now memref.now buffer 0 memref.now.dims indexes.now made.old) }
{
    let dims = memref.dims.as_slice();
    for (dimension, index) in indexes.iter().enumerate() {
        let Some(_size) = dims.get(dimension) else {
            return Ok(());
        };
        check_index(alloc, made, text, memref, buffer, dimension as u64, *index)?;
    }
    Ok(())
}

/// Asserts that each index of an access is below its dimension. The buffer stands before the indexes.
pub(crate) fn check_access(
    alloc: Global,
    made: &mut Insertion,
    text: &[u8],
    written: &[Ty],
    operands: &[ValueNo],
) -> Result<(), AllocError>
    ensures { OnOk result (made.new ≡ check_access text.now written.now operands.now made.old) }
{
    match (written.first(), operands.split_first()) {
        (Some(Ty::Memref(memref)), Some((buffer, indexes))) => {
            check_indexes(alloc, made, text, memref, *buffer, indexes)
        }
        _ => Ok(()),
    }
}
