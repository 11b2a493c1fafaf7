//! The edges between blocks.
ghost use Rattle.std.specs.Prelude.{◌≡◌, OnOk, IfOk, ◌++◌, map};
ghost use Rattle.low_forms.specs.Registers.{every};
ghost use Rattle.low_forms.specs.Edges.{blocks_of, suspend_edges, edges_of, edges_from, edges_in, edges, predecessors, has_one_before, is_uncritical, no_critical_edge, none_is_start, none_to_start};
ghost use Rattle.low_forms.specs.Rows.{row_of};

use crate::code::{LowFunc, Target, Term};
use crate::row::Targets;
use crate::table::low_row;
use lists::Items;
use std::alloc::{AllocError, Global};

fn blocks_of(alloc: Global, targets: &[Target]) -> Result<Items<usize>, AllocError>
    ensures { IfOk result (λ list. list ≡ blocks_of targets.now) }
{
    let mut list = Items::new(alloc);
    for target in targets {
        list.push(target.block.0 as usize)?;
    }
    Ok(list)
}

/// The edges of a suspend, from all its targets.
fn suspend_edges(
    alloc: Global,
    is_first: bool,
    blocks: &[usize],
) -> Result<Items<usize>, AllocError>
    ensures { IfOk result (λ list. list ≡ suspend_edges is_first blocks.now) }
{
    match blocks {
        [first, second, _more @ ..] => {
            if is_first {
                Items::from_slice(alloc, &[*first, *second])
            } else {
                Items::from_slice(alloc, &[*second])
            }
        }
        _ => Ok(Items::new(alloc)),
    }
}

/// The blocks to which edges lead from the end of a block.
fn edges_from(alloc: Global, is_first: bool, term: &Term) -> Result<Items<usize>, AllocError>
    ensures { IfOk result (λ list. list ≡ edges_from is_first term.now) }
{
    let all = blocks_of(alloc, term.targets.as_slice())?;
    match low_row(term.instr.kind).targets {
        Targets::Suspend => suspend_edges(alloc, is_first, all.as_slice()),
        _ => Ok(all),
    }
}

/// By block, where its edges lead, in the order of its targets; those of a suspend without the way to its end.
pub fn edges(alloc: Global, func: &LowFunc) -> Result<Vec<Items<usize>>, AllocError>
    ensures { IfOk result (λ lists. lists.items ≡ edges func.now) }
{
    let mut lists = Vec::new(alloc);
    let mut is_first = true;
    for block in func.blocks.as_slice() {
        lists.push(edges_from(alloc, is_first, &block.term)?)?;
        is_first = false;
    }
    Ok(lists)
}

/// Whether no edge leads to the first block.
fn none_is_start(blocks: &[usize]) -> bool
    ensures { result ≡ none_is_start blocks.now }
{
    for block in blocks {
        if *block == 0 {
            return false;
        }
    }
    true
}

pub(crate) fn none_to_start(edges: &[Items<usize>]) -> bool
    ensures { result ≡ every none_is_start edges.now }
{
    for blocks in edges {
        if !none_is_start(blocks.as_slice()) {
            return false;
        }
    }
    true
}
