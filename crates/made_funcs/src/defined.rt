//! What a function defines.
ghost use Rattle.std.specs.Prelude.{◌≡◌, ◌++◌, OnOk};
ghost use Rattle.made_funcs.specs.Values.{typed, values_in, values_inside, values_of};

use ir_forms::{Func, Op, Region, Ty, ValueNo, copy_type};
use lists::Items;
use std::alloc::{AllocError, Global};

/// Puts the values of a function with their types behind these.
pub(crate) fn push_values(
    alloc: Global,
    func: &Func,
    values: &mut Items<(ValueNo, Ty)>,
) -> Result<(), AllocError>
    ensures { OnOk result (values.new ≡ values.old ++ values_of func.now) }
{
    push_params(alloc, func.params.as_slice(), values)?;
    push_inside(alloc, &func.body, values)
}

fn push_params(
    alloc: Global,
    params: &[(ValueNo, Ty)],
    values: &mut Items<(ValueNo, Ty)>,
) -> Result<(), AllocError>
    ensures { OnOk result (values.new ≡ values.old ++ params.now) }
{
    for param in params {
        let ty = copy_type(alloc, &param.1)?;
        values.push((param.0, ty))?;
    }
    Ok(())
}

fn push_results(
    alloc: Global,
    results: &[ValueNo],
    types: &[Ty],
    values: &mut Items<(ValueNo, Ty)>,
) -> Result<(), AllocError>
    ensures { OnOk result (values.new ≡ values.old ++ typed results.now types.now) }
{
    let mut rest = types;
    for result in results {
        match rest {
            [] => values.push((*result, Ty::Untyped))?,
            [ty, more @ ..] => {
                let ty = copy_type(alloc, ty)?;
                values.push((*result, ty))?;
                rest = more;
            }
        }
    }
    Ok(())
}

#[cycle(defines)]
fn push_inside(
    alloc: Global,
    region: &Region,
    values: &mut Items<(ValueNo, Ty)>,
) -> Result<(), AllocError>
    ensures { OnOk result (values.new ≡ values.old ++ values_inside region.now) }
{
    push_params(alloc, region.params.as_slice(), values)?;
    for op in region.ops.as_slice() {
        push_defined(alloc, op, values)?;
    }
    Ok(())
}

#[cycle(defines)]
fn push_defined(alloc: Global, op: &Op, values: &mut Items<(ValueNo, Ty)>) -> Result<(), AllocError>
    ensures { OnOk result (values.new ≡ values.old ++ values_in op.now) }
{
    push_results(alloc, op.results.as_slice(), op.types.as_slice(), values)?;
    for region in op.regions.as_slice() {
        push_inside(alloc, region, values)?;
    }
    Ok(())
}
