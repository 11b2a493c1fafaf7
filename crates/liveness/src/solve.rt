//! The search for what is live over edges: a block waits as long as the sets of the blocks behind it have changed.
ghost use Rattle.std.specs.Prelude.{◌≡◌, ◌≢◌, ◌<◌, ◌≤◌, ◌+◌, ℕ, IfOk, OnOk, MatchBool, MatchOption, [], ◌∷◌, ◌++◌, false, length, replicate, slice_set};
ghost use Rattle.bit_sets.specs.Members.{is_in, union};
ghost use Rattle.low_flow.specs.Lists.{list_at};
ghost use Rattle.low_forms.specs.Edges.{edges};
ghost use Rattle.liveness.specs.Flow.{set_at, over, joined, countdown};
ghost use Rattle.liveness.specs.Visits.{most_of};
ghost use Rattle.liveness.specs.State.{AreSets, IsState, IsSolution, Visits, AreBefore, to_do};

use crate::before::{before, list_at};
use crate::steps::Steps;
use crate::walk::back_through;
use bit_sets::BitSet;
use lists::Items;
use low_forms::LowFunc;
use std::alloc::{AllocError, Global};
use std::collections::VecDeque;
use std::sync::ledger::Ledger;

#[tactic(auto, using(crate::proofs::ListLemmas::set_read, crate::proofs::ListLemmas::set_beyond))]
fn holds(sets: &[BitSet], block: usize, number: usize) -> bool
    ensures { result ≡ is_in (set_at sets.now block) number }
{
    if block < sets.len() {
        sets[block].contains(number)
    } else {
        false
    }
}

/// Whether a register is live over an edge to one of these blocks.
pub(crate) fn is_over(sets: &[BitSet], blocks: &[usize], number: usize) -> bool
    ensures { result ≡ over sets.now number blocks.now }
{
    for block in blocks {
        if holds(sets, *block, number) {
            return true;
        }
    }
    false
}

/// Adds the set of a block.
fn add_set(set: &mut BitSet, sets: &[BitSet], block: usize)
    requires { (c : ℕ) → c < length sets.now → length (set_at sets.now c) ≡ length set.old }
    ensures union { set.new ≡ union set.old (set_at sets.now block) }
    ensures len { length set.new ≡ length set.old }
{
    if block < sets.len() {
        let _grows = set.unite(&sets[block]);
    }
}

/// What is live over an edge to one of these blocks.
fn over_edges(
    alloc: Global,
    sets: &[BitSet],
    blocks: &[usize],
    registers: usize,
) -> Result<BitSet, AllocError>
    requires { (c : ℕ) → c < length sets.now → length (set_at sets.now c) ≡ registers }
    ensures { IfOk result (λ set. set ≡ joined sets.now blocks.now (replicate registers false)) }
{
    let mut set = BitSet::new(alloc, registers)?;
    for block in blocks {
        add_set(&mut set, sets, *block);
    }
    Ok(set)
}

/// Adds a set to that of a block, and tells whether that has grown.
fn unite_at(sets: &mut Vec<BitSet>, block: usize, more: &BitSet) -> bool
    requires inside { block < length sets.old.items }
    requires long { length (set_at sets.old.items block) ≡ length more.now }
    ensures sets { sets.new.items ≡ slice_set sets.old.items block (union (set_at sets.old.items block) more.now) }
    ensures changes { MatchBool result (union (set_at sets.old.items block) more.now ≢ set_at sets.old.items block) (union (set_at sets.old.items block) more.now ≡ set_at sets.old.items block) }
{
    sets[block].unite(more)
}

/// Adds to the set of a block what is live over an edge to it by the sets of the blocks behind it, and tells whether the
/// set has grown.
fn visit(
    alloc: Global,
    func: &LowFunc,
    targets: &[Items<usize>],
    sets: &mut Vec<BitSet>,
    block: usize,
) -> Result<bool, AllocError>
    requires targets { targets.now ≡ edges func.now }
    requires sets { AreSets func.now sets.old.items }
    requires within { block < length func.now.blocks }
    ensures { IfOk result (λ grows. Visits func.now sets.old.items sets.new.items block grows) }
{
    let mut set = over_edges(alloc, sets, list_at(targets, block), func.regs.len())?;
    let blocks = func.blocks.as_slice();
    back_through(&mut set, &blocks[block]);
    Ok(unite_at(sets, block, &set))
}

fn wait_all(waiting: &mut VecDeque<usize>, blocks: &[usize]) -> Result<(), AllocError>
    ensures { OnOk result (waiting.new.items ≡ waiting.old.items ++ blocks.now) }
{
    for block in blocks {
        waiting.push_back(*block)?;
    }
    Ok(())
}

/// Visits a block; where its set has grown, the blocks before it wait.
fn step(
    alloc: Global,
    func: &LowFunc,
    targets: &[Items<usize>],
    before: &[Items<usize>],
    sets: &mut Vec<BitSet>,
    waiting: &mut VecDeque<usize>,
    block: usize,
) -> Result<(), AllocError>
    requires targets { targets.now ≡ edges func.now }
    requires before { AreBefore func.now before.now }
    requires state { IsState func.now sets.old.items (block ∷ waiting.old.items) }
    ensures state { OnOk result (IsState func.now sets.new.items waiting.new.items) }
    ensures less { OnOk result (to_do before.now sets.new.items waiting.new.items ≤ to_do before.now sets.old.items waiting.old.items) }
{
    if visit(alloc, func, targets, sets, block)? {
        wait_all(waiting, list_at(before, block))?;
        return Ok(());
    }
    Ok(())
}

fn next(waiting: &mut VecDeque<usize>) -> Option<usize>
    ensures { MatchOption result (waiting.old.items ≡ []) (λ block. waiting.old.items ≡ block ∷ waiting.new.items) }
{
    waiting.pop_front()
}

fn run<L: Ledger>(
    alloc: Global,
    func: &LowFunc,
    targets: &[Items<usize>],
    before: &[Items<usize>],
    sets: &mut Vec<BitSet>,
    waiting: &mut VecDeque<usize>,
    steps: &mut Steps<L>,
) -> Result<(), AllocError>
    requires targets { targets.now ≡ edges func.now }
    requires before { AreBefore func.now before.now }
    requires state { IsState func.now sets.old.items waiting.old.items }
    ensures solution { OnOk result (IsSolution func.now sets.new.items) }
    ensures visits { steps.new ≤ steps.old + to_do before.now sets.old.items waiting.old.items }
{
    while let Some(block) = next(waiting) {
        steps.take();
        step(alloc, func, targets, before, sets, waiting, block)?;
    }
    Ok(())
}

fn all_blocks(alloc: Global, len: usize) -> Result<VecDeque<usize>, AllocError>
    ensures { IfOk result (λ waiting. waiting.items ≡ countdown len) }
{
    let mut waiting = VecDeque::new(alloc);
    for behind in 0..len {
        waiting.push_back(len - 1 - behind)?;
    }
    Ok(waiting)
}

fn empty_sets(alloc: Global, len: usize, registers: usize) -> Result<Vec<BitSet>, AllocError>
    ensures { IfOk result (λ sets. sets.items ≡ replicate len (replicate registers false)) }
{
    let mut sets = Vec::new(alloc);
    for _turn in 0..len {
        sets.push(BitSet::new(alloc, registers)?)?;
    }
    Ok(sets)
}

/// By block, what is live over an edge to it.
pub(crate) fn solve<L: Ledger>(
    alloc: Global,
    func: &LowFunc,
    targets: &[Items<usize>],
    steps: &mut Steps<L>,
) -> Result<Vec<BitSet>, AllocError>
    requires { targets.now ≡ edges func.now }
    ensures solution { IfOk result (λ sets. IsSolution func.now sets.items) }
    ensures visits { steps.new ≤ steps.old + most_of func.now }
{
    let before = before(alloc, targets)?;
    let mut sets = empty_sets(alloc, func.blocks.len(), func.regs.len())?;
    let mut waiting = all_blocks(alloc, func.blocks.len())?;
    run(
        alloc,
        func,
        targets,
        &before,
        &mut sets,
        &mut waiting,
        steps,
    )?;
    Ok(sets)
}
