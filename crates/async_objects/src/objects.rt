//! The table of the objects of a run.
ghost use Rattle.std.specs.Prelude.{◌≡◌, ◌<◌, ◌≤◌, ◌∷◌, [], ◌+◌, ◌-◌, ◌^◌, true, false, length, IfOk, IfErr, OnErr};
ghost use Rattle.async_objects.specs.Reserved.{grown};
ghost use Rattle.async_objects.specs.Objects.{object_at, is_done, is_group, is_open, is_unset, state_of, takes_more, stored, set_to, added};
ghost use Rattle.async_objects.specs.Counts.{count_at, put_count, live, less, more, all_changed, freed, set_changes, is_there, IsThere};
ghost use Rattle.async_objects.specs.Sound.{awaiting, pending, IsSound};
ghost use Rattle.async_objects.specs.Tables.{with_objects, with_created, with_set, with_element, with_less, with_more, CreateCause, AddCause, IsAwaited, IsDropped, CanDrop, CanRelease};

use crate::awaiters::{add_last, give_back, spare_places, take_place};
use crate::effects::{add_set, count_down_all, join, lower, lower_all, lower_one, set_open};
use crate::kinds::{AddError, Awaited, CreateError, Dropped, Kind, State, Val};
use crate::object::Object;
use crate::reserved::{FreedList, WokenList};
use crate::slots::Slots;
use ir_forms::{ObjNo, TaskNo};
use std::alloc::{AllocError, Global};
use std::collections::LinkedList;
use std::marker::Model;

/// Tokens, values and groups by number, in the order of making, and how many references each has. A
/// number is never given twice.
#[derive(Drop)]
pub struct Objects {
    limit: u32,
    waiters: u32,
    slots: Slots,
    /// Places for awaiting tasks that no task has.
    spare: LinkedList<TaskNo>,
    /// How many places there are in all.
    places: u64,
}

impl Model for Objects {
    ghost use Rattle.std.specs.Prelude.{◌≡◌, ◌≤◌, ◌<◌, ◌+◌, ◌^◌, length};
    ghost use Rattle.async_objects.specs.Counts.{live};
    ghost use Rattle.async_objects.specs.Sound.{awaiting, IsSound};
    ghost use Rattle.async_objects.specs.Tables.{Table};

    ghost Value = { Table };

    ghost view = { λ t. record { limit = t.limit; room = t.slots.room; waiters = t.waiters; objects = t.slots.objects; counts = t.slots.counts } };

    ghost invariant = { λ t. IsSound t.slots.objects t.slots.counts × (live t.slots.counts ≤ t.limit) × (length t.spare + awaiting t.slots.objects ≡ t.places) × (t.waiters ≤ t.places) × (t.places < 2 ^ 62) };
}

impl Objects {
    /// An empty table, for so many objects at a time. Places are reserved for `room` objects and for
    /// `waiters` awaiting tasks.
    ///
    /// # Errors
    ///
    /// Where memory runs out.
    pub fn new(alloc: Global, limit: u32, room: u32, waiters: u32) -> Result<Objects, AllocError>
        requires { room ≤ limit }
        ensures { IfOk result (λ table. table ≡ record { limit = limit; room = room; waiters = waiters; objects = []; counts = [] }) }
    {
        let spare = spare_places(alloc, waiters)?;
        let slots = Slots::new(alloc, room)?;
        Ok(Objects {
            limit,
            waiters,
            slots,
            spare,
            places: waiters as u64,
        })
    }

    /// Makes an object.
    ///
    /// # Errors
    ///
    /// Where as many objects are there as may be. With places left none comes of memory.
    pub fn create(&mut self, kind: Kind) -> Result<ObjNo, CreateError>
        requires { length self.old.objects < 2 ^ 32 - 1 }
        ensures created { IfOk result (λ o. (o.0 ≡ length self.old.objects) × (live self.old.counts < self.old.limit) × (self.new ≡ with_created kind self.old)) }
        ensures refused { IfErr result (λ why. CreateCause why self.old × (self.new ≡ self.old)) }
    {
        let live = self.slots.live();
        if live >= self.limit {
            return Err(CreateError::ObjectsFull { live });
        }
        let o = ObjNo(self.slots.made());
        let object = Object::new(self.slots.allocator(), kind);
        if self.slots.push(object, kind.first_count()).is_err() {
            return Err(CreateError::OutOfMemory);
        }
        Ok(o)
    }

    /// Sets a token or a value. Its awaiters wake, then each group that waits for it counts down, in the
    /// order of membership, and wakes its awaiters where it is thereby done. Each of these groups loses
    /// a reference, and the object its own. What has no reference left is taken out.
    pub fn set(&mut self, o: ObjNo, state: State, woken: &mut WokenList, gone: &mut FreedList)
        requires there { IsThere self.old.counts o }
        requires opened { is_open (object_at self.old.objects o) ≡ true }
        requires state { is_unset state ≡ false }
        requires woken { length (set_to state o self.old.objects).tasks ≤ woken.old.room }
        requires gone { length (freed (set_changes o self.old.objects) self.old.counts) ≤ gone.old.room }
        ensures table { self.new ≡ with_set state o self.old }
        ensures woken { woken.new ≡ grown (set_to state o self.old.objects).tasks woken.old }
        ensures gone { gone.new ≡ grown (freed (set_changes o self.old.objects) self.old.counts) gone.old }
    {
        let groups = set_open(&mut self.slots, &mut self.spare, o, state, woken);
        count_down_all(
            &mut self.slots,
            &mut self.spare,
            groups.as_slice(),
            state.is_error(),
            woken,
        );
        lower_all(&mut self.slots, &mut self.spare, groups.as_slice(), gone);
        lower_one(&mut self.slots, &mut self.spare, o, gone);
    }

    /// Whether an object was made and not taken out.
    pub fn is_there(&self, o: ObjNo) -> bool
        ensures { result ≡ is_there self.now.counts o }
    {
        self.slots.count(o) > 0
    }

    /// What an object is.
    pub fn kind(&self, o: ObjNo) -> Kind
        requires { IsThere self.now.counts o }
        ensures { result ≡ (object_at self.now.objects o).kind }
    {
        self.slots.object(o).kind
    }

    /// How many references an object has; one that isn't there has none.
    pub fn count(&self, o: ObjNo) -> u64
        ensures { result ≡ count_at self.now.counts o.0 }
    {
        self.slots.count(o)
    }

    /// How many groups wait for an object.
    pub fn groups(&self, o: ObjNo) -> usize
        requires { IsThere self.now.counts o }
        ensures { result ≡ length (object_at self.now.objects o).memberships }
    {
        self.slots.object(o).memberships.len()
    }

    /// How many tasks await objects.
    pub fn waiting(&self) -> u64
        ensures { result ≡ awaiting self.now.objects }
    {
        self.places - self.spare.len() as u64
    }

    /// How many elements of a group aren't set yet. A token or a value has none.
    pub fn pending(&self, o: ObjNo) -> u64
        requires { IsThere self.now.counts o }
        ensures { result ≡ pending (object_at self.now.objects o) }
    {
        let members = self.slots.object(o).members;
        members.added.saturating_sub(members.done)
    }

    /// How an object stands. A group is in error where an element failed.
    pub fn state(&self, o: ObjNo) -> State
        requires { IsThere self.now.counts o }
        ensures { result ≡ state_of (object_at self.now.objects o) }
    {
        self.slots.object(o).state()
    }

    /// Whether a token or value is set, or as many elements of a group as its size.
    pub fn is_done(&self, o: ObjNo) -> bool
        requires { IsThere self.now.counts o }
        ensures { result ≡ is_done (object_at self.now.objects o) }
    {
        self.slots.object(o).is_done()
    }

    /// Stores a payload in an object that isn't set.
    pub fn store(&mut self, o: ObjNo, payload: Val)
        requires there { IsThere self.old.counts o }
        requires unset { state_of (object_at self.old.objects o) ≡ State.Unset }
        ensures { self.new ≡ with_objects (stored o payload self.old.objects) self.old }
    {
        self.slots.object_mut(o).payload = Some(payload);
    }

    /// The payload of an object, if one was stored.
    pub fn load(&self, o: ObjNo) -> Option<Val>
        requires { IsThere self.now.counts o }
        ensures { result ≡ (object_at self.now.objects o).payload }
    {
        self.slots.object(o).payload
    }

    /// Has a task wait for an object, as its last awaiter, unless it is done.
    ///
    /// # Errors
    ///
    /// Where memory runs out, and no place is reserved.
    pub fn await_on(&mut self, o: ObjNo, task: TaskNo) -> Result<Awaited, AllocError>
        requires { IsThere self.old.counts o }
        ensures awaited { IfOk result (λ answer. IsAwaited answer o task self.old self.new) }
        ensures err { OnErr result ((self.new ≡ self.old) × (self.old.waiters ≤ awaiting self.old.objects)) }
    {
        if self.slots.object(o).is_done() {
            return Ok(Awaited::Ready);
        }
        let place = take_place(
            self.slots.allocator(),
            &mut self.spare,
            &mut self.places,
            task,
        )?;
        add_last(&mut self.slots.object_mut(o).awaiters, place);
        Ok(Awaited::Parked)
    }

    /// Adds an element to a group, and tells how many it had. An element that is set counts at once, and
    /// the group's awaiters wake where it is thereby done.
    ///
    /// # Errors
    ///
    /// Where the group has as many elements as its size, and where memory runs out.
    pub fn add_to_group(
        &mut self,
        element: ObjNo,
        group: ObjNo,
        woken: &mut WokenList,
    ) -> Result<u64, AddError>
        requires element { IsThere self.old.counts element }
        requires single { is_group (object_at self.old.objects element).kind ≡ false }
        requires group { IsThere self.old.counts group }
        requires grouped { is_group (object_at self.old.objects group).kind ≡ true }
        requires count { count_at self.old.counts group.0 < 2 ^ 64 - 1 }
        requires woken { length (added element group self.old.objects).tasks ≤ woken.old.room }
        ensures added { IfOk result (λ rank. (rank ≡ (object_at self.old.objects group).members.added) × (takes_more (object_at self.old.objects group) ≡ true) × (self.new ≡ with_element element group self.old) × (woken.new ≡ grown (added element group self.old.objects).tasks woken.old)) }
        ensures refused { IfErr result (λ why. AddCause why (object_at self.old.objects group) × (self.new ≡ self.old) × (woken.new ≡ woken.old)) }
    {
        let rank = self.slots.object(group).rank()?;
        let state = self.slots.object(element).state;
        if !matches!(state, State::Unset) {
            add_set(
                &mut self.slots,
                &mut self.spare,
                group,
                state.is_error(),
                woken,
            );
            return Ok(rank);
        }
        if join(&mut self.slots, element, group).is_err() {
            return Err(AddError::OutOfMemory);
        }
        Ok(rank)
    }

    /// Adds so many references to an object.
    pub fn add_ref(&mut self, o: ObjNo, n: u64)
        requires there { IsThere self.old.counts o }
        requires fits { count_at self.old.counts o.0 + n < 2 ^ 64 }
        ensures { self.new ≡ with_more o n self.old }
    {
        let count = self.slots.count(o);
        self.slots.set_count(o, count + n);
    }

    /// Drops so many references to an object. It is taken out with the last of them.
    pub fn drop_ref(&mut self, o: ObjNo, n: u64) -> Dropped
        requires { CanDrop n (count_at self.old.counts o.0) (object_at self.old.objects o) }
        ensures dropped { IsDropped result n (count_at self.old.counts o.0) }
        ensures table { self.new ≡ with_less o n self.old }
    {
        lower(&mut self.slots, &mut self.spare, o, n)
    }

    /// Takes an object out, with all its references.
    pub fn release(&mut self, o: ObjNo)
        requires there { IsThere self.old.counts o }
        requires free { CanRelease (object_at self.old.objects o) }
        ensures { self.new ≡ with_less o (count_at self.old.counts o.0) self.old }
    {
        let mut object = self.slots.take_out(o);
        give_back(&mut object.awaiters, &mut self.spare);
    }

    /// How many objects were made.
    pub fn made(&self) -> u32
        ensures { result ≡ length self.now.objects }
    {
        self.slots.made()
    }

    /// How many objects are there.
    pub fn live(&self) -> u32
        ensures live { result ≡ live self.now.counts }
        ensures most { live self.now.counts ≤ self.now.limit }
        ensures sound { IsSound self.now.objects self.now.counts }
    {
        self.slots.live()
    }
}
