//! The values that a function defines, in the order of the text.
ghost use Rattle.std.specs.Prelude.{◌≡◌, ◌++◌, OnOk};
ghost use Rattle.source_meaning.specs.Parts.{names_of};
ghost use Rattle.value_numbers.specs.Numbers.{values_in, values_inside, values_of};

use ir_forms::{Func, Op, Region, Ty, ValueNo};
use std::alloc::AllocError;

/// Puts the values that a function defines behind these.
pub(crate) fn collect_func(func: &Func, values: &mut Vec<ValueNo>) -> Result<(), AllocError>
    ensures { OnOk result (values.new.items ≡ values.old.items ++ values_of func.now) }
{
    collect_params(func.params.as_slice(), values)?;
    collect_region(&func.body, values)?;
    Ok(())
}

fn collect_params(params: &[(ValueNo, Ty)], values: &mut Vec<ValueNo>) -> Result<(), AllocError>
    ensures { OnOk result (values.new.items ≡ values.old.items ++ names_of params.now) }
{
    for param in params {
        values.push(param.0)?;
    }
    Ok(())
}

#[cycle(collects)]
fn collect_region(region: &Region, values: &mut Vec<ValueNo>) -> Result<(), AllocError>
    ensures { OnOk result (values.new.items ≡ values.old.items ++ values_inside region.now) }
{
    collect_params(region.params.as_slice(), values)?;
    for op in region.ops.as_slice() {
        collect_op(op, values)?;
    }
    Ok(())
}

#[cycle(collects)]
fn collect_op(op: &Op, values: &mut Vec<ValueNo>) -> Result<(), AllocError>
    ensures { OnOk result (values.new.items ≡ values.old.items ++ values_in op.now) }
{
    values.extend_from_slice(op.results.as_slice())?;
    for region in op.regions.as_slice() {
        collect_region(region, values)?;
    }
    Ok(())
}
