//! What a region uses from outside.
ghost use Rattle.std.specs.Prelude.{◌≡◌, map, IfOk, OnOk};
ghost use Rattle.made_funcs.specs.Values.{values_in, values_inside};
ghost use Rattle.made_funcs.specs.Captures.{captures, numbers, uses_in, uses_inside, with_all, without_all};

use ir_forms::{Op, Region, Ty, ValueNo};
use lists::Items;
use std::alloc::{AllocError, Global};
use std::collections::BTreeSet;

fn add_operands(used: &mut BTreeSet<u32>, operands: &[ValueNo]) -> Result<(), AllocError>
    ensures { OnOk result (used.new.keys ≡ with_all used.old.keys (numbers operands.now)) }
{
    for operand in operands {
        used.insert(operand.0)?;
    }
    Ok(())
}

#[cycle(uses)]
fn add_used(used: &mut BTreeSet<u32>, op: &Op) -> Result<(), AllocError>
    ensures { OnOk result (used.new.keys ≡ with_all used.old.keys (uses_in op.now)) }
{
    add_operands(used, op.operands.as_slice())?;
    for region in op.regions.as_slice() {
        add_used_inside(used, region)?;
    }
    Ok(())
}

#[cycle(uses)]
fn add_used_inside(used: &mut BTreeSet<u32>, region: &Region) -> Result<(), AllocError>
    ensures { OnOk result (used.new.keys ≡ with_all used.old.keys (uses_inside region.now)) }
{
    for op in region.ops.as_slice() {
        add_used(used, op)?;
    }
    Ok(())
}

fn remove_params(used: &mut BTreeSet<u32>, params: &[(ValueNo, Ty)])
    ensures { used.new.keys ≡ without_all used.old.keys (map (λ p. p.0.0) params.now) }
{
    for param in params {
        used.remove(&param.0.0);
    }
}

fn remove_results(used: &mut BTreeSet<u32>, results: &[ValueNo])
    ensures { used.new.keys ≡ without_all used.old.keys (numbers results.now) }
{
    for result in results {
        used.remove(&result.0);
    }
}

#[cycle(removes)]
fn remove_defined(used: &mut BTreeSet<u32>, op: &Op)
    ensures { used.new.keys ≡ without_all used.old.keys (map (λ p. p.0.0) (values_in op.now)) }
{
    remove_results(used, op.results.as_slice());
    for region in op.regions.as_slice() {
        remove_defined_inside(used, region);
    }
}

#[cycle(removes)]
fn remove_defined_inside(used: &mut BTreeSet<u32>, region: &Region)
    ensures { used.new.keys ≡ without_all used.old.keys (map (λ p. p.0.0) (values_inside region.now)) }
{
    remove_params(used, region.params.as_slice());
    for op in region.ops.as_slice() {
        remove_defined(used, op);
    }
}

fn listed(alloc: Global, used: &BTreeSet<u32>) -> Result<Vec<u32>, AllocError>
    ensures { IfOk result (λ list. list.items ≡ used.now.keys) }
{
    let mut list = Vec::new(alloc);
    for value in used {
        list.push(*value)?;
    }
    Ok(list)
}

/// The numbers of the values that the operations of a region use and that aren't defined in it, in their order.
pub fn captures_of(alloc: Global, region: &Region) -> Result<Vec<u32>, AllocError>
    ensures { IfOk result (λ list. list.items ≡ captures region.now) }
{
    let mut used = BTreeSet::new(alloc);
    add_used_inside(&mut used, region)?;
    remove_defined_inside(&mut used, region);
    listed(alloc, &used)
}
