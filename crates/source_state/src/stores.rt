//! Buffers by their names.
ghost use Rattle.std.specs.Prelude.{◌≡◌, ◌≤◌, [], cond, slice_set, replicate, IfOk, OnOk};
ghost use Rattle.ir_forms.specs.Names.{same_made};
ghost use Rattle.ir_forms.specs.declared.names.MadeName.{MadeName};
ghost use Rattle.ir_forms.specs.Shapes.{most_cells};
ghost use Rattle.source_meaning.specs.Start.{stored, stores_of, cells_in_all};
ghost use Rattle.source_state.specs.Seen.{made_of, cells_of, found, found_before};

use crate::names::Name;
use ir_forms::ArgValue;
use lists::Items;
use std::alloc::{AllocError, Global};
use std::collections::BTreeMap;

/// The cells of a buffer. One that isn't there has none.
pub(crate) fn cells_at<'a>(buffers: &'a BTreeMap<Name, Items<u64>>, name: &Name) -> &'a [u64]
    ensures { result.now ≡ cells_of buffers.now.entries (made_of name.now) }
{
    match buffers.get(name) {
        Some(cells) => cells.as_slice(),
        None => &[],
    }
}

/// Sets a cell, if there is one of this number.
fn set_cell(cells: &mut Items<u64>, at: usize, number: u64)
    ensures { cells.new ≡ slice_set cells.old at number }
{
    if at < cells.len() {
        cells.set(at, number);
    }
}

/// Writes a cell of a buffer, if it is there.
pub(crate) fn write_cell(
    buffers: &mut BTreeMap<Name, Items<u64>>,
    name: &Name,
    at: usize,
    number: u64,
)
    ensures { (b : MadeName) → cells_of buffers.new.entries b ≡ cond (same_made (made_of name.now) b) (slice_set (cells_of buffers.old.entries b) at number) (cells_of buffers.old.entries b) }
{
    if let Some(cells) = buffers.get_mut(name) {
        set_cell(cells, at, number);
    }
}

/// So many cells, each of them 0.
pub(crate) fn zeros(alloc: Global, cells: u32) -> Result<Items<u64>, AllocError>
    ensures { IfOk result (λ all. all ≡ replicate cells 0) }
{
    Ok(Items::from_vec(vec![in alloc; 0u64; cells as usize]?))
}

/// Adds the buffer of the parameter at this place, if its argument is one, and answers how many cells
/// it has.
fn add_argument(
    alloc: Global,
    buffers: &mut BTreeMap<Name, Items<u64>>,
    at: u32,
    arg: &ArgValue,
) -> Result<u32, AllocError>
    requires { cells_in_all (stored at arg.now) ≤ most_cells }
    ensures cells { OnOk result ((b : MadeName) → cells_of buffers.new.entries b ≡ found_before (stored at arg.now) b (cells_of buffers.old.entries b)) }
    ensures used { IfOk result (λ used. used ≡ cells_in_all (stored at arg.now)) }
{
    match arg {
        ArgValue::Number(_) => Ok(0),
        ArgValue::Cells { values, .. } => {
            let cells = Items::from_slice(alloc, values.as_slice())?;
            let count = cells.len() as u32;
            buffers.insert(Name::Argument(at), cells)?;
            Ok(count)
        }
    }
}

/// Adds the buffers among these arguments, and answers how many cells they have.
pub(crate) fn add_arguments(
    alloc: Global,
    buffers: &mut BTreeMap<Name, Items<u64>>,
    args: &[ArgValue],
) -> Result<u32, AllocError>
    requires empty { buffers.old.entries ≡ [] }
    requires fits { cells_in_all (stores_of 0 args.now) ≤ most_cells }
    ensures cells { OnOk result ((b : MadeName) → cells_of buffers.new.entries b ≡ found (stores_of 0 args.now) b) }
    ensures used { IfOk result (λ used. used ≡ cells_in_all (stores_of 0 args.now)) }
{
    if args.len() > 4_294_967_295 {
        return Err(AllocError);
    }
    let mut used: u32 = 0;
    let mut at = args.len();
    while at > 0 {
        at -= 1;
        match args.get(at) {
            Some(arg) => used += add_argument(alloc, buffers, at as u32, arg)?,
            None => unreachable!(),
        }
    }
    Ok(used)
}
