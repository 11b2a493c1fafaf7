//! The first number that no value of a function has.
ghost use Rattle.std.specs.Prelude.{◌≡◌, max, map};
ghost use Rattle.ir_forms.specs.declared.ops.Op.{Op};
ghost use Rattle.ir_forms.specs.declared.ops.Region.{Region};
ghost use Rattle.check_insert.specs.Shape.{above, above_op, above_region, above_params, greatest, first_free};

use ir_forms::{Func, Op, Region, Ty, ValueNo};

fn above(values: &[ValueNo], least: u64) -> u64
    ensures { result ≡ max least (above values.now) }
{
    let mut most = least;
    for value in values {
        most = most.max(value.0 as u64 + 1);
    }
    most
}

fn above_params(params: &[(ValueNo, Ty)], least: u64) -> u64
    ensures { result ≡ max least (above_params params.now) }
{
    let mut most = least;
    for param in params {
        most = most.max(param.0.0 as u64 + 1);
    }
    most
}

#[cycle(free)]
fn above_op(op: &Op, least: u64) -> u64
    ensures { result ≡ max least (above_op op.now) }
{
    let mut most = above(op.results.as_slice(), least);
    for region in op.regions.as_slice() {
        most = above_region(region, most);
    }
    most
}

#[cycle(free)]
fn above_region(region: &Region, least: u64) -> u64
    ensures { result ≡ max least (above_region region.now) }
{
    let mut most = above_params(region.params.as_slice(), least);
    for op in region.ops.as_slice() {
        most = above_op(op, most);
    }
    most
}

/// One more than the greatest number of a value that the function defines.
pub(crate) fn first_free(func: &Func) -> u64
    ensures { result ≡ first_free func.now }
{
    above_region(&func.body, above_params(func.params.as_slice(), 0))
}
