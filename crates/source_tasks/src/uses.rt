//! The values that functions use.
ghost use Rattle.std.specs.Prelude.{◌≡◌, ◌++◌, ◌≤◌, map, IfOk, OnOk};
ghost use Rattle.source_meaning.specs.Parts.{uses_of};
ghost use Rattle.source_tasks.specs.Uses.{marked, table_of, mark_of, uses_in, uses_under_op};

use ir_forms::{Func, Op, Region, ValueNo};
use lists::Items;
use std::alloc::{AllocError, Global};

/// Adds the operands of an operation, and of those in its regions.
#[cycle(uses)]
fn note_op(uses: &mut Items<ValueNo>, alloc: Global, op: &Op) -> Result<(), AllocError>
    ensures { OnOk result (uses.new ≡ uses.old ++ uses_under_op op.now) }
{
    let own = Items::from_slice(alloc, op.operands.as_slice())?;
    uses.append(own)?;
    for region in op.regions.as_slice() {
        note_region(uses, alloc, region)?;
    }
    Ok(())
}

#[cycle(uses)]
fn note_region(uses: &mut Items<ValueNo>, alloc: Global, region: &Region) -> Result<(), AllocError>
    ensures { OnOk result (uses.new ≡ uses.old ++ uses_in region.now) }
{
    for op in region.ops.as_slice() {
        note_op(uses, alloc, op)?;
    }
    Ok(())
}

/// All operands in a function.
#[tactic(auto, using(crate::proofs::UseLemmas::func_uses))]
fn uses_of(alloc: Global, func: &Func) -> Result<Items<ValueNo>, AllocError>
    ensures { IfOk result (λ uses. uses ≡ uses_of func.now) }
{
    let mut uses = Items::new(alloc);
    note_region(&mut uses, alloc, &func.body)?;
    Ok(uses)
}

/// Gives a number its mark.
#[tactic(auto, using(crate::proofs::Marks::marked_within))]
fn mark(marks: &mut Vec<bool>, place: usize) -> Result<(), AllocError>
    ensures { OnOk result (marks.new.items ≡ marked marks.old.items place) }
{
    while marks.len() <= place {
        marks.push(false)?;
    }
    marks[place] = true;
    Ok(())
}

/// A table with a mark for each number of these values.
fn table_of(alloc: Global, uses: &[ValueNo]) -> Result<Items<bool>, AllocError>
    ensures { IfOk result (λ table. table ≡ table_of uses.now) }
{
    let mut marks = Vec::new(alloc);
    for value in uses {
        mark(&mut marks, value.0 as usize)?;
    }
    Ok(Items::from_vec(marks))
}

/// The mark of a number; one that the table doesn't hold has none.
pub(crate) fn mark_of(marks: &[bool], place: usize) -> bool
    ensures { result ≡ mark_of marks.now place }
{
    match marks.get(place) {
        Some(mark) => *mark,
        None => false,
    }
}

/// The tables of all functions.
pub(crate) fn tables_of(alloc: Global, funcs: &[Func]) -> Result<Vec<Items<bool>>, AllocError>
    ensures { IfOk result (λ tables. tables.items ≡ map (λ f. table_of (uses_of f)) funcs.now) }
{
    let mut tables = Vec::new(alloc);
    for func in funcs {
        let uses = uses_of(alloc, func)?;
        tables.push(table_of(alloc, uses.as_slice())?)?;
    }
    Ok(tables)
}
