//! Cells of buffers and sizes of allocations.
ghost use Rattle.std.specs.Prelude.{◌≡◌, ◌∷◌, ℕ, List, None, Some, IfOk, MatchOption, slice_get};
ghost use Rattle.ir_forms.specs.declared.types.Dim.{Dim};
ghost use Rattle.ir_forms.specs.Shapes.{product, most_cells};
ghost use Rattle.source_meaning.specs.Parts.{dims_of};
ghost use Rattle.source_meaning.specs.Values.{values_at};
ghost use Rattle.source_meaning.specs.Rows.{cell_from, sizes, product_within};
ghost use Rattle.source_meaning.specs.Steps.{numbers};
ghost use Rattle.source_tasks.specs.Numbers.{capped};

use crate::env::Env;
use ir_forms::{Dim, Ty, ValueNo};
use lists::Items;
use std::alloc::{AllocError, Global};

/// All buffers together have at most so many cells.
const MOST_CELLS: u64 = 16_777_216;

/// The number of the cell with these indices, row by row; none where an index isn't below its dimension.
pub(crate) fn cell_of(env: &Env, dims: &[u32], indices: &[ValueNo]) -> Option<u64>
    ensures { MatchOption result (cell_from 0 dims.now (numbers (values_at env.now indices.now)) ≡ None) (λ c. (i : ℕ) × (cell_from 0 dims.now (numbers (values_at env.now indices.now)) ≡ Some i) × (c ≡ capped i)) }
{
    let mut dims = dims;
    let mut indices = indices;
    let mut cell = 0u64;
    loop {
        let Some((dim, more_dims)) = dims.split_first() else {
            return Some(cell);
        };
        let Some((name, more)) = indices.split_first() else {
            return Some(cell);
        };
        let size = *dim as u64;
        let index = env.number_of(*name);
        if index >= size {
            return None;
        }
        cell = cell.saturating_mul(size).saturating_add(index);
        dims = more_dims;
        indices = more;
    }
}

/// The dimensions of a buffer of the first of these types.
pub(crate) fn dims_of(types: &[Ty]) -> &[Dim]
    ensures { result.now ≡ dims_of (slice_get types.now 0) }
{
    match types.first() {
        Some(Ty::Memref(memory)) => memory.dims.as_slice(),
        _ => &[],
    }
}

/// The size of a dimension, and the numbers that are left for those behind it.
fn size_of(dim: Dim, given: &[u64]) -> (u64, &[u64])
    ensures { (dims : List Dim) → sizes (dim ∷ dims) given.now ≡ result.0 ∷ sizes dims result.1.now }
{
    match dim {
        Dim::Fixed(size) => (size as u64, given),
        Dim::Dynamic => match given.split_first() {
            Some((size, more)) => (*size, more),
            None => (0, given),
        },
    }
}

/// The sizes of an allocation: each `?` takes the next of the numbers.
pub(crate) fn sizes(alloc: Global, dims: &[Dim], given: &[u64]) -> Result<Items<u64>, AllocError>
    ensures { IfOk result (λ all. all ≡ sizes dims.now given.now) }
{
    let mut given = given;
    let mut all = Items::new(alloc);
    for dim in dims {
        let (size, more) = size_of(*dim, given);
        all.push(size)?;
        given = more;
    }
    Ok(all)
}

/// The sizes and their product, if none of them and no product up to one passes the limit on cells.
pub(crate) fn fit_sizes(
    alloc: Global,
    sizes: &[u64],
) -> Result<Option<(Items<u32>, u32)>, AllocError>
    ensures { IfOk result (λ fit. MatchOption fit (product_within most_cells sizes.now ≡ None) (λ f. (f.0 ≡ sizes.now) × (product_within most_cells sizes.now ≡ Some f.1))) }
{
    let mut dims = Items::new(alloc);
    let mut cells = 1u64;
    for size in sizes {
        let more = cells.saturating_mul(*size);
        if *size > MOST_CELLS || more > MOST_CELLS {
            return Ok(None);
        }
        dims.push(*size as u32)?;
        cells = more;
    }
    Ok(Some((dims, cells as u32)))
}
