//! Other numbers for the values of a function, written in place.
ghost use Rattle.std.specs.Prelude.{◌≡◌, map};
ghost use Rattle.source_meaning.specs.Renaming.{renamed_func, renamed_op, renamed_ops, renamed_params, renamed_region, renamed_values};
ghost use Rattle.value_numbers.specs.Places.{place_at};

use crate::places::placed;
use indexmap::IndexMap;
use ir_forms::{Func, Op, Region, Ty, ValueNo};

/// Gives each value of a function its place as its number.
pub(crate) fn rename_func(func: &mut Func, places: &IndexMap<u32, u32>)
    ensures { func.new ≡ renamed_func (place_at places.now) func.old }
{
    rename_params(func.params.as_mut_slice(), places);
    rename_region(&mut func.body, places);
}

fn rename_params(params: &mut [(ValueNo, Ty)], places: &IndexMap<u32, u32>)
    ensures { params.new ≡ renamed_params (place_at places.now) params.old }
{
    for i in 0..params.len() {
        params[i].0 = placed(params[i].0, places);
    }
}

fn rename_values(values: &mut [ValueNo], places: &IndexMap<u32, u32>)
    ensures { values.new ≡ renamed_values (place_at places.now) values.old }
{
    for i in 0..values.len() {
        values[i] = placed(values[i], places);
    }
}

#[cycle(renames)]
fn rename_region(region: &mut Region, places: &IndexMap<u32, u32>)
    ensures { region.new ≡ renamed_region (place_at places.now) region.old }
{
    rename_params(region.params.as_mut_slice(), places);
    rename_ops(region.ops.as_mut_slice(), places);
}

#[cycle(renames)]
fn rename_ops(ops: &mut [Op], places: &IndexMap<u32, u32>)
    ensures { ops.new ≡ renamed_ops (place_at places.now) ops.old }
{
    for i in 0..ops.len() {
        rename_op(&mut ops[i], places);
    }
}

#[cycle(renames)]
fn rename_op(op: &mut Op, places: &IndexMap<u32, u32>)
    ensures { op.new ≡ renamed_op (place_at places.now) op.old }
{
    rename_values(op.operands.as_mut_slice(), places);
    rename_values(op.results.as_mut_slice(), places);
    rename_regions(op.regions.as_mut_slice(), places);
}

#[cycle(renames)]
fn rename_regions(regions: &mut [Region], places: &IndexMap<u32, u32>)
    ensures { regions.new ≡ map (renamed_region (place_at places.now)) regions.old }
{
    for i in 0..regions.len() {
        rename_region(&mut regions[i], places);
    }
}
