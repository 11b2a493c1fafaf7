//! The blocks from which edges lead to a block.
ghost use Rattle.std.specs.Prelude.{◌≡◌, OnOk, IfOk, [], ◌∷◌, ◌++◌, replicate};
ghost use Rattle.low_flow.specs.Lists.{list_at};
ghost use Rattle.liveness.specs.Flow.{with_edge, with_edges, with_all, before};

use lists::Items;
use std::alloc::{AllocError, Global};

/// As many empty lists.
fn empty_lists(alloc: Global, len: usize) -> Result<Vec<Items<usize>>, AllocError>
    ensures { IfOk result (λ lists. lists.items ≡ replicate len []) }
{
    let mut lists = Vec::new(alloc);
    for _turn in 0..len {
        lists.push(Items::new(alloc))?;
    }
    Ok(lists)
}

fn add(list: &mut Items<usize>, from: usize) -> Result<(), AllocError>
    ensures { OnOk result (list.new ≡ list.old ++ from ∷ []) }
{
    list.push(from)
}

fn note(lists: &mut Vec<Items<usize>>, from: usize, to: usize) -> Result<(), AllocError>
    ensures { OnOk result (lists.new.items ≡ with_edge from to lists.old.items) }
{
    if to < lists.len() {
        add(&mut lists[to], from)?;
    }
    Ok(())
}

fn note_all(lists: &mut Vec<Items<usize>>, from: usize, targets: &[usize]) -> Result<(), AllocError>
    ensures { OnOk result (lists.new.items ≡ with_edges from targets.now lists.old.items) }
{
    for to in targets {
        note(lists, from, *to)?;
    }
    Ok(())
}

/// By block, from where edges lead to it, from each block as often as edges do.
pub fn before(alloc: Global, edges: &[Items<usize>]) -> Result<Vec<Items<usize>>, AllocError>
    ensures { IfOk result (λ lists. lists.items ≡ before edges.now) }
{
    let mut lists = empty_lists(alloc, edges.len())?;
    for (from, targets) in edges.iter().enumerate() {
        note_all(&mut lists, from, targets.as_slice())?;
    }
    Ok(lists)
}

/// The list at a place; one that is missing is empty.
#[tactic(auto, using(crate::proofs::ListLemmas::at_read, crate::proofs::ListLemmas::at_beyond))]
pub fn list_at(lists: &[Items<usize>], place: usize) -> &[usize]
    ensures { result.now ≡ list_at lists.now place }
{
    if place < lists.len() {
        lists[place].as_slice()
    } else {
        &[]
    }
}
