//! Assertions before an allocation, and of products.
ghost use Rattle.std.specs.Prelude.{◌≡◌, OnOk, IfOk};
ghost use Rattle.check_insert.specs.Shape as shape;
ghost use Rattle.check_insert.specs.Shape.{asked_sizes, check_given, check_products, check_sizes, each, most_cells, sizes};

use crate::check::check_most;
use ir_forms::{Dim, NumTy, OpKind, Ty, ValueNo};
use lists::Items;
use made_ops::{Insertion, Operand};
use std::alloc::{AllocError, Global};

/// No allocation has more cells, and no dimension is greater.
const MOST_CELLS: u64 = 1 << 24;

/// The sizes of an allocation: each `?` takes the next of the operands.
fn sizes(alloc: Global, dims: &[Dim], operands: &[ValueNo]) -> Result<Items<Operand>, AllocError>
    ensures { IfOk result (λ list. list ≡ sizes dims.now operands.now) }
{
    let mut list = Items::new(alloc);
    let mut rest = operands;
    for dim in dims {
        match (dim, rest) {
            (Dim::Fixed(size), _) => list.push(Operand::Number(*size as u64))?,
            (Dim::Dynamic, []) => list.push(Operand::Number(0))?,
            (Dim::Dynamic, [size, more @ ..]) => {
                list.push(Operand::Value(*size))?;
                rest = more;
            }
        }
    }
    Ok(list)
}

/// The sizes that an allocation of this type asks for.
pub(crate) fn asked_sizes(
    alloc: Global,
    types: &[Ty],
    operands: &[ValueNo],
) -> Result<Items<Operand>, AllocError>
    ensures { IfOk result (λ list. list ≡ asked_sizes types.now operands.now) }
{
    match types.first() {
        Some(Ty::Memref(memref)) => sizes(alloc, memref.dims.as_slice(), operands),
        _ => Ok(Items::new(alloc)),
    }
}

fn check_given(
    alloc: Global,
    made: &mut Insertion,
    text: &[u8],
    size: Operand,
) -> Result<(), AllocError>
    ensures { OnOk result (made.new ≡ check_given text.now most_cells size made.old) }
{
    match size {
        Operand::Value(_) => check_most(alloc, made, text, MOST_CELLS, size),
        Operand::Number(_) => Ok(()),
    }
}

fn check_all_given(
    alloc: Global,
    made: &mut Insertion,
    text: &[u8],
    sizes: &[Operand],
) -> Result<(), AllocError>
    ensures { OnOk result (made.new ≡ each (check_given text.now most_cells) sizes.now made.old) }
{
    for size in sizes {
        check_given(alloc, made, text, *size)?;
    }
    Ok(())
}

/// Asserts that each product of the first numbers is at most this, from the first number itself on.
pub(crate) fn check_products(
    alloc: Global,
    made: &mut Insertion,
    text: &[u8],
    limit: u64,
    numbers: &[Operand],
) -> Result<(), AllocError>
    ensures { OnOk result (made.new ≡ check_products text.now limit numbers.now made.old) }
{
    let [first, rest @ ..] = numbers else {
        return Ok(());
    };
    check_most(alloc, made, text, limit, *first)?;
    let mut product = *first;
    for number in rest {
        product = Operand::Value(made.binary(
            alloc,
            OpKind::ArithMuli,
            NumTy::Index,
            product,
            *number,
        )?);
        check_most(alloc, made, text, limit, product)?;
    }
    Ok(())
}

/// Asserts that an allocation's sizes are in range.
pub(crate) fn check_sizes(
    alloc: Global,
    made: &mut Insertion,
    text: &[u8],
    sizes: &[Operand],
) -> Result<(), AllocError>
    ensures { OnOk result (made.new ≡ check_sizes text.now sizes.now made.old) }
{
    check_all_given(alloc, made, text, sizes)?;
    check_products(alloc, made, text, MOST_CELLS, sizes)
}
