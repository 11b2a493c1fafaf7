//! Parts of the acts: groups, missing regions.
ghost use Rattle.std.specs.Prelude.{◌≡◌, OnOk};
ghost use Rattle.module_grammar.specs.State.{ungrouped, with_else};

use ir_forms::{OpKind, Region};
use lists::Items;
use std::alloc::{AllocError, Global};

/// How many of these operands stand in none of the groups.
pub fn ungrouped(operands: u64, groups: &[u32]) -> u64
    ensures { result ≡ ungrouped operands groups.now }
{
    let mut rest = operands;
    for group in groups {
        rest = rest.saturating_sub(u64::from(*group));
    }
    rest
}

/// A missing `else` is a second region without operations.
pub fn add_else(alloc: Global, kind: OpKind, regions: &mut Items<Region>) -> Result<(), AllocError>
    ensures { OnOk result (regions.new ≡ with_else kind regions.old) }
{
    if kind == OpKind::ScfIf && regions.len() == 1 {
        regions.push(Region {
            params: Items::new(alloc),
            ops: Items::new(alloc),
        })
    } else {
        Ok(())
    }
}
