//! Places for awaiting tasks, which all objects share: one that a task leaves is spare.
ghost use Rattle.std.specs.Prelude.{◌≡◌, ◌<◌, ◌≤◌, ◌∷◌, ◌++◌, [], ◌+◌, ◌-◌, ◌^◌, length, IfOk, OnOk, OnErr};
ghost use Rattle.async_objects.specs.Reserved.{grown};

use crate::reserved::WokenList;
use ir_forms::TaskNo;
use std::alloc::{AllocError, Global};
use std::collections::LinkedList;
use std::mem;

/// So many places fit into no memory.
const MOST_PLACES: u64 = (1 << 62) - 1;

/// A place for this task: a spare one, or a new one where there is none.
pub(crate) fn place_for(
    alloc: Global,
    spare: &mut LinkedList<TaskNo>,
    task: TaskNo,
) -> Result<LinkedList<TaskNo>, AllocError>
    ensures place { IfOk result (λ place. place ≡ task ∷ []) }
    ensures spare { OnOk result (length spare.new ≡ length spare.old - 1) }
    ensures err { OnErr result ((spare.old ≡ []) × (spare.new ≡ [])) }
{
    if spare.is_empty() {
        let mut place = LinkedList::new(alloc);
        place.push_back(task)?;
        return Ok(place);
    }
    let Ok(rest) = spare.split_off(1) else {
        unreachable!()
    };
    let mut place = mem::replace(spare, rest);
    match place.front_mut() {
        Some(front) => *front = task,
        None => unreachable!(),
    }
    Ok(place)
}

/// So many spare places.
pub(crate) fn spare_places(alloc: Global, count: u32) -> Result<LinkedList<TaskNo>, AllocError>
    ensures { IfOk result (λ spare. length spare ≡ count) }
{
    let mut spare = LinkedList::new(alloc);
    for _turn in 0..count {
        spare.push_back(TaskNo(0))?;
    }
    Ok(spare)
}

/// A place for this task, where `places` tells how many there are in all.
pub(crate) fn take_place(
    alloc: Global,
    spare: &mut LinkedList<TaskNo>,
    places: &mut u64,
    task: TaskNo,
) -> Result<LinkedList<TaskNo>, AllocError>
    requires { places.old < 2 ^ 62 }
    ensures place { IfOk result (λ place. place ≡ task ∷ []) }
    ensures spare { OnOk result (length spare.new + 1 + places.old ≡ length spare.old + places.new) }
    ensures places { (places.old ≤ places.new) × (places.new < 2 ^ 62) }
    ensures err { OnErr result ((spare.old ≡ []) × (spare.new ≡ []) × (places.new ≡ places.old)) }
{
    if spare.is_empty() {
        if *places >= MOST_PLACES {
            return Err(AllocError);
        }
        let place = place_for(alloc, spare, task)?;
        *places += 1;
        return Ok(place);
    }
    place_for(alloc, spare, task)
}

/// Makes places spare again.
pub(crate) fn give_back(places: &mut LinkedList<TaskNo>, spare: &mut LinkedList<TaskNo>)
    requires { length spare.old + length places.old < 2 ^ 63 }
    ensures places { places.new ≡ [] }
    ensures spare { length spare.new ≡ length spare.old + length places.old }
{
    match spare.append(places) {
        Ok(()) => {}
        Err(_) => unreachable!(),
    }
}

/// Makes the task of this place the last awaiter.
pub(crate) fn add_last(awaiters: &mut LinkedList<TaskNo>, place: LinkedList<TaskNo>)
    requires { length awaiters.old + length place < 2 ^ 63 }
    ensures { awaiters.new ≡ awaiters.old ++ place }
{
    let mut place = place;
    match awaiters.append(&mut place) {
        Ok(()) => {}
        Err(_) => unreachable!(),
    }
}

/// Moves awaiting tasks to the list of woken ones, in order.
pub(crate) fn wake(
    awaiters: &mut LinkedList<TaskNo>,
    spare: &mut LinkedList<TaskNo>,
    woken: &mut WokenList,
)
    requires room { length awaiters.old ≤ woken.old.room }
    requires places { length spare.old + length awaiters.old < 2 ^ 63 }
    ensures awaiters { awaiters.new ≡ [] }
    ensures spare { length spare.new ≡ length spare.old + length awaiters.old }
    ensures woken { woken.new ≡ grown awaiters.old woken.old }
{
    for task in awaiters.iter() {
        woken.push(*task);
    }
    give_back(awaiters, spare);
}
