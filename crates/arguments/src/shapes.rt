//! How many cells a buffer has.
ghost use Rattle.std.specs.Prelude.{◌≡◌, ◌+◌, min, MatchOption, ◌<◌, ◌≤◌, IfSome};
ghost use Rattle.ir_forms.specs.Shapes.{product, most_cells};

/// The product of the sizes, or one more than the limit on cells where it is greater.
#[tactic(auto, using(crate::proofs::Products::product_step))]
fn capped_product(dims: &[u32]) -> u64
    ensures { result ≡ min (product dims.now) (most_cells + 1) }
{
    let mut cells: u64 = 1;
    for dim in dims {
        cells = (cells * *dim as u64).min(16_777_217);
    }
    cells
}

/// How many cells a buffer of these sizes has, where they aren't too many.
pub(crate) fn cell_count(dims: &[u32]) -> Option<u32>
    ensures { MatchOption result (most_cells < product dims.now) (λ n. (n ≡ product dims.now) × (n ≤ most_cells)) }
{
    let cells = capped_product(dims);
    if cells <= 16_777_216 {
        Some(cells as u32)
    } else {
        None
    }
}
