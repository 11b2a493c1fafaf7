//! What calls do to objects that are kept in slots, and to the places of awaiting tasks.
ghost use Rattle.std.specs.Prelude.{◌≡◌, ◌<◌, ◌≤◌, ◌∷◌, [], ◌+◌, ◌-◌, ◌^◌, Bool, true, false, length, OnOk, OnErr};
ghost use Rattle.async_objects.specs.Reserved.{grown};
ghost use Rattle.async_objects.specs.Objects.{object_at, put, is_open, is_unset, is_error, counted_down, all_counted_down, set_open, with_added};
ghost use Rattle.async_objects.specs.Counts.{count_at, less, all_less, freed, live, IsThere};
ghost use Rattle.async_objects.specs.Sound.{Fits, awaiting};
ghost use Rattle.async_objects.specs.Kept.{with_kept, lowered, all_lowered, joined, CanCount};
ghost use Rattle.async_objects.specs.Tables.{IsDropped};

use crate::awaiters::{give_back, wake};
use crate::kinds::{Dropped, State};
use crate::reserved::{FreedList, WokenList};
use crate::slots::Slots;
use ir_forms::{ObjNo, TaskNo};
use lists::Items;
use std::alloc::AllocError;
use std::collections::LinkedList;
use std::mem;

/// Sets a token or a value and wakes its awaiters. Gives the groups that waited for it.
pub(crate) fn set_open(
    slots: &mut Slots,
    spare: &mut LinkedList<TaskNo>,
    o: ObjNo,
    state: State,
    woken: &mut WokenList,
) -> Items<ObjNo>
    requires there { IsThere slots.old.counts o }
    requires places { length spare.old + awaiting slots.old.objects < 2 ^ 63 }
    requires room { length (object_at slots.old.objects o).awaiters ≤ woken.old.room }
    ensures groups { result ≡ (object_at slots.old.objects o).memberships }
    ensures slots { slots.new ≡ with_kept (set_open state o slots.old.objects) slots.old }
    ensures woken { woken.new ≡ grown (object_at slots.old.objects o).awaiters woken.old }
    ensures places { length spare.new + awaiting slots.new.objects ≡ length spare.old + awaiting slots.old.objects }
{
    let none = Items::new(slots.allocator());
    let object = slots.object_mut(o);
    object.state = state;
    wake(&mut object.awaiters, spare, woken);
    mem::replace(&mut object.memberships, none)
}

/// Counts a group down: one more of its elements is set. Where it is thereby done, its awaiters wake.
fn count_down(
    slots: &mut Slots,
    spare: &mut LinkedList<TaskNo>,
    group: ObjNo,
    failed: bool,
    woken: &mut WokenList,
)
    requires there { IsThere slots.old.counts group }
    requires counts { CanCount (object_at slots.old.objects group) }
    requires places { length spare.old + awaiting slots.old.objects < 2 ^ 63 }
    requires room { length (counted_down failed group slots.old.objects).tasks ≤ woken.old.room }
    ensures slots { slots.new ≡ with_kept (counted_down failed group slots.old.objects).objects slots.old }
    ensures woken { woken.new ≡ grown (counted_down failed group slots.old.objects).tasks woken.old }
    ensures places { length spare.new + awaiting slots.new.objects ≡ length spare.old + awaiting slots.old.objects }
{
    let object = slots.object_mut(group);
    object.members.count(failed);
    if object.is_done() {
        wake(&mut object.awaiters, spare, woken);
    }
}

/// Drops so many references to an object, which is taken out with the last of them.
pub(crate) fn lower(slots: &mut Slots, spare: &mut LinkedList<TaskNo>, o: ObjNo, n: u64) -> Dropped
    requires there { IsThere slots.old.counts o }
    requires within { n ≤ count_at slots.old.counts o.0 }
    requires places { length spare.old + awaiting slots.old.objects < 2 ^ 63 }
    ensures dropped { IsDropped result n (count_at slots.old.counts o.0) }
    ensures slots { slots.new ≡ lowered o n slots.old }
    ensures places { length spare.new + awaiting slots.new.objects ≡ length spare.old + awaiting slots.old.objects }
{
    let count = slots.count(o);
    if n < count {
        slots.set_count(o, count - n);
        return Dropped::Left;
    }
    let mut object = slots.take_out(o);
    give_back(&mut object.awaiters, spare);
    Dropped::Last
}

/// Counts these groups down, in order.
pub(crate) fn count_down_all(
    slots: &mut Slots,
    spare: &mut LinkedList<TaskNo>,
    groups: &[ObjNo],
    failed: bool,
    woken: &mut WokenList,
)
    requires fits { Fits groups.now groups.now slots.old.objects slots.old.counts }
    requires known { length slots.old.objects ≡ length slots.old.counts }
    requires places { length spare.old + awaiting slots.old.objects < 2 ^ 63 }
    requires room { length (all_counted_down failed groups.now slots.old.objects).tasks ≤ woken.old.room }
    ensures slots { slots.new ≡ with_kept (all_counted_down failed groups.now slots.old.objects).objects slots.old }
    ensures woken { woken.new ≡ grown (all_counted_down failed groups.now slots.old.objects).tasks woken.old }
    ensures places { length spare.new + awaiting slots.new.objects ≡ length spare.old + awaiting slots.old.objects }
    ensures fits { Fits [] groups.now slots.new.objects slots.new.counts }
    ensures known { length slots.new.objects ≡ length slots.new.counts }
{
    for group in groups {
        count_down(slots, spare, *group, failed, woken);
    }
}

/// Drops a reference to each of these, in order. Those without a reference are taken out, and listed.
pub(crate) fn lower_all(
    slots: &mut Slots,
    spare: &mut LinkedList<TaskNo>,
    groups: &[ObjNo],
    gone: &mut FreedList,
)
    requires fits { Fits [] groups.now slots.old.objects slots.old.counts }
    requires known { length slots.old.objects ≡ length slots.old.counts }
    requires places { length spare.old + awaiting slots.old.objects < 2 ^ 63 }
    requires room { length (freed (all_less groups.now) slots.old.counts) ≤ gone.old.room }
    ensures slots { slots.new ≡ all_lowered groups.now slots.old }
    ensures gone { gone.new ≡ grown (freed (all_less groups.now) slots.old.counts) gone.old }
    ensures places { length spare.new + awaiting slots.new.objects ≡ length spare.old + awaiting slots.old.objects }
    ensures fits { Fits [] [] slots.new.objects slots.new.counts }
    ensures known { length slots.new.objects ≡ length slots.new.counts }
    ensures live { live slots.new.counts ≤ live slots.old.counts }
{
    for group in groups {
        lower_one(slots, spare, *group, gone);
    }
}

/// Drops a reference to an object. Without a reference it is taken out, and listed.
pub(crate) fn lower_one(
    slots: &mut Slots,
    spare: &mut LinkedList<TaskNo>,
    o: ObjNo,
    gone: &mut FreedList,
)
    requires there { IsThere slots.old.counts o }
    requires places { length spare.old + awaiting slots.old.objects < 2 ^ 63 }
    requires room { length (freed (less o 1 ∷ []) slots.old.counts) ≤ gone.old.room }
    ensures slots { slots.new ≡ lowered o 1 slots.old }
    ensures gone { gone.new ≡ grown (freed (less o 1 ∷ []) slots.old.counts) gone.old }
    ensures places { length spare.new + awaiting slots.new.objects ≡ length spare.old + awaiting slots.old.objects }
{
    match lower(slots, spare, o, 1) {
        Dropped::Last => gone.push(o),
        Dropped::Left => {}
    }
}

/// Adds an element that isn't set to a group, which waits for it. Without memory nothing has changed.
pub(crate) fn join(slots: &mut Slots, element: ObjNo, group: ObjNo) -> Result<(), AllocError>
    requires element { IsThere slots.old.counts element }
    requires group { IsThere slots.old.counts group }
    requires apart { group.0 ≡ element.0 → ⊥ }
    requires added { (object_at slots.old.objects group).members.added < 2 ^ 64 - 1 }
    requires count { count_at slots.old.counts group.0 < 2 ^ 64 - 1 }
    ensures ok { OnOk result (slots.new ≡ joined element group slots.old) }
    ensures err { OnErr result (slots.new ≡ slots.old) }
{
    slots.object_mut(element).memberships.push(group)?;
    slots.object_mut(group).members.add();
    let count = slots.count(group);
    slots.set_count(group, count + 1);
    Ok(())
}

/// Adds an element that is set to a group, and counts it at once.
pub(crate) fn add_set(
    slots: &mut Slots,
    spare: &mut LinkedList<TaskNo>,
    group: ObjNo,
    failed: bool,
    woken: &mut WokenList,
)
    requires there { IsThere slots.old.counts group }
    requires added { (object_at slots.old.objects group).members.added < 2 ^ 64 - 1 }
    requires counts { CanCount (with_added (object_at slots.old.objects group)) }
    requires known { length slots.old.objects ≡ length slots.old.counts }
    requires places { length spare.old + awaiting slots.old.objects < 2 ^ 63 }
    requires room { length (counted_down failed group (put slots.old.objects group (with_added (object_at slots.old.objects group)))).tasks ≤ woken.old.room }
    ensures slots { slots.new ≡ with_kept (counted_down failed group (put slots.old.objects group (with_added (object_at slots.old.objects group)))).objects slots.old }
    ensures woken { woken.new ≡ grown (counted_down failed group (put slots.old.objects group (with_added (object_at slots.old.objects group)))).tasks woken.old }
    ensures places { length spare.new + awaiting slots.new.objects ≡ length spare.old + awaiting slots.old.objects }
{
    slots.object_mut(group).members.add();
    count_down(slots, spare, group, failed, woken);
}
