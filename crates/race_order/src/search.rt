//! The first race of a trace.
ghost use Rattle.std.specs.Prelude.{◌≡◌, ◌<◌, ◌≤◌, ◌^◌, ◌+◌, ℕ, cond, nat_le, not, ◌&&◌, Some, Option, IfOk, OnOk, length, slice_get};
ghost use Rattle.ir_forms.specs.Names.{Path as Names, same_path};
ghost use Rattle.ir_forms.specs.declared.names.TraceEntry.{TraceEntry as EntryOf};
ghost use Rattle.race_order.specs.Clocks.{HasEmpty, Grows};
ghost use Rattle.race_order.specs.Known.{Sight, knows_nothing, after_entry};
ghost use Rattle.race_order.specs.Marks.{AreMarked};
ghost use Rattle.race_order.specs.Race.{IsAt, IsAnswer};
ghost use Rattle.race_order.specs.Sights.{number_in, sight, Shows, AreNumbers, Holds, AreNumbered};
ghost use Rattle.race_order.specs.Touch.{touch_of, alike, IsEarliest, races_by, touched as touched_by};

use crate::clocks;
use crate::keys::task_key;
use crate::marks::{Marks, is_clear, mark, no_marks};
use crate::table::Table;
use crate::tasks::{Tasks, start, step};
use crate::touches::{Touch, are_alike, touched};
use ir_forms::{Trace, TraceEntry};
use std::alloc::{AllocError, Global};

/// The entry at this place.
fn entry(trace: &Trace, place: usize) -> &TraceEntry
    requires { place < length trace.now.entries }
    ensures { slice_get trace.now.entries place ≡ Some result.now }
{
    match trace.entries.get(place) {
        Some(entry) => entry,
        None => unreachable!(),
    }
}

/// Numbers each task by the last place of an entry of its own, counted from 1.
fn number_tasks(alloc: Global, trace: &Trace) -> Result<Table, AllocError>
    ensures { IfOk result (λ numbers. AreNumbered trace.now.entries (length trace.now.entries) (number_in numbers)) }
{
    let mut numbers = Table::new(alloc);
    for place in 0..trace.entries.len() {
        let key = task_key(alloc, &entry(trace, place).task)?;
        numbers.set(key, place + 1)?;
    }
    Ok(numbers)
}

/// How many levels a tree needs for this many numbers and 0.
fn depth_for(len: usize) -> u32
    ensures within { len < 2 ^ result }
    ensures deep { result ≤ 64 }
{
    for depth in 0..64u32 {
        if len < 2usize.pow(depth) {
            return depth;
        }
    }
    64
}

/// Whether an entry with this rank in its task races with a later one that has this touch, and whose task has this clock.
fn is_racing(
    alloc: Global,
    tasks: &Tasks,
    nodes: &[(usize, usize)],
    earlier: &TraceEntry,
    rank: usize,
    later: &TraceEntry,
    touch: &Touch,
) -> Result<bool, AllocError>
    ghost s: { Sight }
    requires holds { Holds s tasks.now nodes.now }
    requires numbers { AreNumbers tasks.now.depth (number_in tasks.now.numbers) }
    ensures { IfOk result (λ racing. racing ≡ races_by (s.knows later.now.task) earlier.now rank later.now (touch_of touch.now)) }
{
    if earlier.task.as_slice() == later.task.as_slice() {
        return Ok(false);
    }
    let seen = touched(alloc, &earlier.action)?;
    if !are_alike(&seen, touch) {
        return Ok(false);
    }
    let key = task_key(alloc, &earlier.task)?;
    let before = task_key(alloc, &later.task)?;
    let known = tasks.known(nodes, &before, &key);
    Ok(rank > known)
}

/// The first entry that races with the one at this place, which has this touch.
fn earliest(
    alloc: Global,
    trace: &Trace,
    place: usize,
    tasks: &Tasks,
    nodes: &[(usize, usize)],
    touch: &Touch,
) -> Result<Option<usize>, AllocError>
    ghost s: { Sight }
    requires within { place < length trace.now.entries }
    requires same { s ≡ sight trace.now.entries place }
    requires holds { Holds s tasks.now nodes.now }
    requires numbers { AreNumbers tasks.now.depth (number_in tasks.now.numbers) }
    requires touch { (e : EntryOf) → IsAt trace.now.entries place e → Some (touch_of touch.now) ≡ touched_by e.action }
    ensures { IfOk result (λ found. IsEarliest trace.now.entries place found) }
{
    let later = entry(trace, place);
    let mut ranks = Table::new(alloc);
    for at in 0..place {
        let earlier = entry(trace, at);
        let key = task_key(alloc, &earlier.task)?;
        let rank = ranks.get(&key) + 1;
        if is_racing(alloc, tasks, nodes, earlier, rank, later, touch)? {
            return Ok(Some(at));
        }
        ranks.set(key, rank)?;
    }
    Ok(None)
}

/// The first entry that races with the one at this place. The earlier ones are gone through only where the marks don't
/// tell that none does.
fn race_with(
    alloc: Global,
    trace: &Trace,
    place: usize,
    tasks: &Tasks,
    nodes: &[(usize, usize)],
    marks: &Marks,
) -> Result<Option<usize>, AllocError>
    requires within { place < length trace.now.entries }
    requires holds { Holds (sight trace.now.entries place) tasks.now nodes.now }
    requires numbers { AreNumbers tasks.now.depth (number_in tasks.now.numbers) }
    requires marked { AreMarked trace.now.entries place (number_in tasks.now.numbers) tasks.now.depth nodes.now marks.now }
    ensures { IfOk result (λ found. IsEarliest trace.now.entries place found) }
{
    let later = entry(trace, place);
    match touched(alloc, &later.action)? {
        None => Ok(None),
        Some(touch) => {
            let key = task_key(alloc, &later.task)?;
            let clock = tasks.clocks.get(&key);
            if is_clear(marks, nodes, tasks.depth, &touch, clock) {
                Ok(None)
            } else {
                earliest(alloc, trace, place, tasks, nodes, &touch)
            }
        }
    }
}

/// Marks what the entry at this place touches, past which the tables stand.
fn note(
    alloc: Global,
    trace: &Trace,
    place: usize,
    tasks: &Tasks,
    nodes: &mut Vec<(usize, usize)>,
    marks: &mut Marks,
) -> Result<(), AllocError>
    requires within { place < length trace.now.entries }
    requires holds { Holds (sight trace.now.entries (place + 1)) tasks.now nodes.old.items }
    requires numbers { AreNumbers tasks.now.depth (number_in tasks.now.numbers) }
    requires numbered { (i : ℕ) (e : EntryOf) → IsAt trace.now.entries i e → 0 < number_in tasks.now.numbers e.task }
    requires marked { AreMarked trace.now.entries place (number_in tasks.now.numbers) tasks.now.depth nodes.old.items marks.old }
    ensures grows { OnOk result (Grows nodes.old.items nodes.new.items) }
    ensures marked { OnOk result (AreMarked trace.now.entries (place + 1) (number_in tasks.now.numbers) tasks.now.depth nodes.new.items marks.new) }
{
    let entry = entry(trace, place);
    match touched(alloc, &entry.action)? {
        None => Ok(()),
        Some(touch) => {
            let key = task_key(alloc, &entry.task)?;
            let number = tasks.numbers.get(&key);
            let rank = tasks.taken.get(&key);
            mark(marks, nodes, tasks.depth, touch, number, rank)?;
            Ok(())
        }
    }
}

/// Goes past the entry at this place.
fn pass(
    alloc: Global,
    trace: &Trace,
    place: usize,
    tasks: &mut Tasks,
    nodes: &mut Vec<(usize, usize)>,
) -> Result<(), AllocError>
    ghost s: { Sight }
    requires within { place < length trace.now.entries }
    requires holds { Holds s tasks.old nodes.old.items }
    requires numbers { AreNumbers tasks.old.depth (number_in tasks.old.numbers) }
    requires numbered { (i : ℕ) (e : EntryOf) → IsAt trace.now.entries i e → 0 < number_in tasks.old.numbers e.task }
    requires few { (p : Names) → s.knows p p + 1 < 2 ^ 64 }
    requires few_taken { (p : Names) → s.taken p + 1 < 2 ^ 64 }
    ensures holds { OnOk result ((e : EntryOf) → IsAt trace.now.entries place e → Holds (after_entry e s) tasks.new nodes.new.items) }
    ensures same { OnOk result ((tasks.new.depth ≡ tasks.old.depth) × (tasks.new.numbers ≡ tasks.old.numbers)) }
    ensures grows { OnOk result (Grows nodes.old.items nodes.new.items) }
{
    let entry = entry(trace, place);
    step(alloc, tasks, nodes, entry)?;
    Ok(())
}

/// The first race, in tables that stand before the first entry.
fn search(
    alloc: Global,
    trace: &Trace,
    tasks: &mut Tasks,
    nodes: &mut Vec<(usize, usize)>,
    marks: &mut Marks,
) -> Result<Option<(usize, usize)>, AllocError>
    requires holds { Holds knows_nothing tasks.old nodes.old.items }
    requires marked { AreMarked trace.now.entries 0 (number_in tasks.old.numbers) tasks.old.depth nodes.old.items marks.old }
    requires numbers { AreNumbers tasks.old.depth (number_in tasks.old.numbers) }
    requires numbered { (i : ℕ) (e : EntryOf) → IsAt trace.now.entries i e → 0 < number_in tasks.old.numbers e.task }
    ensures { IfOk result (λ race. IsAnswer trace.now.entries race) }
{
    for place in 0..trace.entries.len() {
        match race_with(alloc, trace, place, tasks, nodes, marks)? {
            Some(first) => return Ok(Some((first, place))),
            None => {
                pass(alloc, trace, place, tasks, nodes)?;
                note(alloc, trace, place, tasks, nodes, marks)?;
            }
        }
    }
    Ok(None)
}

/// A clock of no count alone.
fn no_clocks(alloc: Global) -> Result<Vec<(usize, usize)>, AllocError>
    ensures { IfOk result (λ nodes. HasEmpty nodes.items) }
{
    let mut nodes = Vec::new(alloc);
    nodes.push((0, 0))?;
    Ok(nodes)
}

/// The first race of a trace: of the pairs of entries in conflict that nothing orders, the one with the least later
/// entry, and there with the least earlier one. None exactly where the trace is ordered. Entries count from 0. Fails
/// where memory is short.
///
/// An entry takes a few look-ups and a few nodes for each level of the trees, of which there are as many as the trace's
/// length has bits; an await takes more where two clocks differ at many tasks, at most one node for each task. An access
/// is compared with one clock of the cell, at most one step for each task that touched it. An await of a group goes through
/// all adds so far, and entering a loop takes a step for each iteration, whatever the trace holds of it. So a trace is
/// at worst gone through in its length times the number of tasks, adds and iterations.
pub fn first_race(alloc: Global, trace: &Trace) -> Result<Option<(usize, usize)>, AllocError>
    ensures { IfOk result (λ race. IsAnswer trace.now.entries race) }
{
    let numbers = number_tasks(alloc, trace)?;
    let mut nodes = no_clocks(alloc)?;
    let depth = depth_for(trace.entries.len());
    let mut tasks = start(alloc, depth, numbers);
    let mut marks = no_marks(alloc);
    search(alloc, trace, &mut tasks, &mut nodes, &mut marks)
}
