//! Critical edges, by counting the edges that lead to each block, up to two.
ghost use Rattle.std.specs.Prelude.{◌≡◌, IfOk, slice_get};
ghost use Rattle.low_forms.specs.Registers.{every};
ghost use Rattle.low_forms.specs.Edges.{is_uncritical};
ghost use Rattle.low_forms.specs.Counting.{count_at, with_edge, with_edges, counted, has_one, is_uncritical_by};

use lists::Items;
use std::alloc::{AllocError, Global};

fn noted(counts: &[u8], block: usize) -> Option<u8>
    ensures { result ≡ slice_get counts.now block }
{
    counts.get(block).copied()
}

#[tactic(auto, using(crate::proofs::CountLemmas::count_some, crate::proofs::CountLemmas::count_none))]
fn count_at(counts: &[u8], block: usize) -> u8
    ensures { result ≡ count_at counts.now block }
{
    match noted(counts, block) {
        Some(count) => count,
        None => 0,
    }
}

fn note_edge(counts: &mut Vec<u8>, block: usize)
    ensures { counts.new.items ≡ with_edge block counts.old.items }
{
    if block < counts.len() {
        let count = count_at(counts, block);
        if count < 2 {
            counts[block] = count + 1;
        }
    }
}

fn note_edges(counts: &mut Vec<u8>, blocks: &[usize])
    ensures { counts.new.items ≡ with_edges blocks.now counts.old.items }
{
    for block in blocks {
        note_edge(counts, *block);
    }
}

/// How many edges lead to each block, up to two.
fn count_edges(alloc: Global, edges: &[Items<usize>]) -> Result<Vec<u8>, AllocError>
    ensures { IfOk result (λ counts. counts.items ≡ counted edges.now) }
{
    let mut counts = vec![in alloc; 0u8; edges.len()]?;
    for blocks in edges {
        note_edges(&mut counts, blocks.as_slice());
    }
    Ok(counts)
}

fn has_one(counts: &[u8], block: usize) -> bool
    ensures { result ≡ has_one counts.now block }
{
    block < counts.len() && count_at(counts, block) < 2
}

fn all_have_one(counts: &[u8], blocks: &[usize]) -> bool
    ensures { result ≡ every (has_one counts.now) blocks.now }
{
    for block in blocks {
        if !has_one(counts, *block) {
            return false;
        }
    }
    true
}

fn is_uncritical(counts: &[u8], blocks: &[usize]) -> bool
    ensures { result ≡ is_uncritical_by counts.now blocks.now }
{
    blocks.len() < 2 || all_have_one(counts, blocks)
}

fn all_uncritical(counts: &[u8], edges: &[Items<usize>]) -> bool
    ensures { result ≡ every (is_uncritical_by counts.now) edges.now }
{
    for blocks in edges {
        if !is_uncritical(counts, blocks.as_slice()) {
            return false;
        }
    }
    true
}

/// Whether no edge is critical.
#[tactic(auto, using(crate::proofs::CountLemmas::uncritical_same))]
pub(crate) fn no_critical_edge(alloc: Global, edges: &[Items<usize>]) -> Result<bool, AllocError>
    ensures { IfOk result (λ is. is ≡ every (is_uncritical edges.now) edges.now) }
{
    let counts = count_edges(alloc, edges)?;
    Ok(all_uncritical(&counts, edges))
}
