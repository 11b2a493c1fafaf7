//! Objects by number, in memory that grows with those that are there and not with those that were.
ghost use Rattle.std.specs.Prelude.{◌≡◌, ◌<◌, ◌≤◌, ◌+◌, ◌*◌, ◌-◌, ◌^◌, ◌++◌, ◌∷◌, [], length, slice_get, Some, IfOk, OnOk, OnErr, MatchOption, vec_len, vec_capacity};
ghost use Rattle.std.specs.Borrow.{Lends, sem};
ghost use Rattle.std.specs.List.{filter};
ghost use Rattle.async_objects.specs.contracts.slots.Slots.{the_row};
ghost use Rattle.async_objects.specs.contracts.object.Object.{the_row as object_row};
ghost use Rattle.async_objects.specs.Objects.{blank, object_at, put};
ghost use Rattle.async_objects.specs.Counts.{count_at, put_count, live, IsThere};
ghost use Rattle.async_objects.specs.Slots.{AreRising, count_in, place_in, live_in, IsSwept};

use crate::object::Object;
use ir_forms::ObjNo;
use std::alloc::{AllocError, Global};
use std::marker::Model;
use std::mem;

/// An object with its number and its count. Once its count is 0 it is blank, and goes with the next
/// sweep.
#[derive(Drop)]
pub(crate) struct Slot {
    pub(crate) number: u32,
    pub(crate) count: u64,
    pub(crate) object: Object,
}

/// The objects that are there, by rising number, and how many were made.
#[derive(Drop)]
pub(crate) struct Slots {
    alloc: Global,
    slots: Vec<Slot>,
    made: u32,
    live: u32,
    room: u32,
}

impl Model for Slots {
    ghost use Rattle.std.specs.Prelude.{◌≡◌, ◌≤◌, ◌*◌, vec_capacity};
    ghost use Rattle.async_objects.specs.Slots.{Kept, AreRising, AreBlank, listed, object_in, count_in, live_in};

    ghost Value = { Kept };

    ghost view = { λ s. record { objects = listed s.made (object_in s.slots.items); counts = listed s.made (count_in s.slots.items); room = s.room } };

    ghost invariant = { λ s. AreRising 0 s.made s.slots.items × AreBlank s.slots.items × (s.live ≡ live_in s.slots.items) × (2 * s.room ≤ vec_capacity s.slots) };
}

/// The place at which the slot of this number stands, if it stands anywhere.
fn search(slots: &[Slot], made: u32, number: u32) -> usize
    requires rising { AreRising 0 made slots.now }
    requires some { 0 < length slots.now }
    ensures place { place_in slots.now number < length slots.now → result ≡ place_in slots.now number }
    ensures within { result < length slots.now }
{
    let mut low = 0;
    let mut high = slots.len();
    while low + 1 < high {
        let middle = low + (high - low) / 2;
        if slots[middle].number <= number {
            low = middle;
        } else {
            high = middle;
        }
    }
    low
}

/// The place of the slot of this number, which has a count.
#[tactic(auto, using(crate::proofs::SlotLemmas::place_there))]
fn place_of(slots: &[Slot], made: u32, number: u32) -> usize
    requires rising { AreRising 0 made slots.now }
    requires there { 0 < count_in slots.now number }
    ensures place { result ≡ place_in slots.now number }
    ensures within { result < length slots.now }
{
    search(slots, made, number)
}

/// The count of the slot of this number; one that is missing has none.
fn count_of(slots: &[Slot], made: u32, number: u32) -> u64
    requires { AreRising 0 made slots.now }
    ensures { result ≡ count_in slots.now number }
{
    if slots.is_empty() {
        return 0;
    }
    let slot = &slots[search(slots, made, number)];
    if slot.number == number { slot.count } else { 0 }
}

/// Makes a place for one more slot. Where most objects have gone, their slots go too.
fn make_place(slots: &mut Vec<Slot>, live: u32) -> Result<(), AllocError>
    requires { live ≡ live_in slots.old.items }
    ensures ok { OnOk result (vec_len slots.new < vec_capacity slots.new) }
    ensures slots { IsSwept slots.old.items slots.new.items }
    ensures capacity { vec_capacity slots.old ≤ vec_capacity slots.new }
    ensures err { OnErr result (vec_capacity slots.old ≤ 2 * live) }
{
    if slots.len() < slots.capacity() {
        return Ok(());
    }
    if 2 * (live as usize) < slots.len() {
        slots.retain(|slot| slot.count > 0);
        return Ok(());
    }
    slots.reserve(1)
}

impl Slots {
    /// No objects, and room for so many.
    pub(crate) fn new(alloc: Global, room: u32) -> Result<Slots, AllocError>
        ensures { IfOk result (λ slots. (slots.objects ≡ []) × (slots.counts ≡ []) × (slots.room ≡ room)) }
    {
        let slots = Vec::with_capacity(alloc, 2 * (room as usize))?;
        Ok(Slots {
            alloc,
            slots,
            made: 0,
            live: 0,
            room,
        })
    }

    pub(crate) fn allocator(&self) -> Global {
        self.alloc
    }

    /// How many objects were made.
    pub(crate) fn made(&self) -> u32
        ensures { result ≡ length self.now.objects }
    {
        self.made
    }

    /// How many objects are there.
    pub(crate) fn live(&self) -> u32
        ensures { result ≡ live self.now.counts }
    {
        self.live
    }

    /// Adds an object with this count.
    pub(crate) fn push(&mut self, object: Object, count: u64) -> Result<(), AllocError>
        requires made { length self.old.objects < 2 ^ 32 - 1 }
        requires count { 0 < count }
        ensures ok { OnOk result (self.new ≡ record self.old { objects = self.old.objects ++ object ∷ []; counts = self.old.counts ++ count ∷ [] }) }
        ensures err { OnErr result ((self.new ≡ self.old) × (self.old.room ≤ live self.old.counts)) }
    {
        make_place(&mut self.slots, self.live)?;
        self.slots.push_reserved(Slot {
            number: self.made,
            count,
            object,
        });
        self.made += 1;
        self.live += 1;
        Ok(())
    }

    /// The object of this number.
    pub(crate) fn object(&self, o: ObjNo) -> &Object
        requires { IsThere self.now.counts o }
        ensures { result.now ≡ object_at self.now.objects o }
    {
        let at = place_of(self.slots.as_slice(), self.made, o.0);
        &self.slots[at].object
    }

    /// Lends the object of this number, to be changed in place.
    pub(crate) fn object_mut(&mut self, o: ObjNo) -> &mut Object
        requires { IsThere self.old.counts o }
        ensures* writes_back { sem 𝓛 (Lends the_row object_row self.entry result (λ x. record self.old { objects = put self.old.objects o x })) }
        ensures value { result.now ≡ object_at self.old.objects o }
    {
        let at = place_of(self.slots.as_slice(), self.made, o.0);
        let slot = &mut self.slots[at];
        &mut slot.object
    }

    /// How many references the object of this number has; one that isn't there has none.
    pub(crate) fn count(&self, o: ObjNo) -> u64
        ensures { result ≡ count_at self.now.counts o.0 }
    {
        count_of(self.slots.as_slice(), self.made, o.0)
    }

    /// Gives the object of this number another count.
    pub(crate) fn set_count(&mut self, o: ObjNo, count: u64)
        requires there { IsThere self.old.counts o }
        requires stays { 0 < count }
        ensures { self.new ≡ record self.old { counts = put_count self.old.counts o.0 count } }
    {
        let at = place_of(self.slots.as_slice(), self.made, o.0);
        self.slots[at].count = count;
    }

    /// Takes the object of this number out, with all its references.
    pub(crate) fn take_out(&mut self, o: ObjNo) -> Object
        requires { IsThere self.old.counts o }
        ensures object { result ≡ object_at self.old.objects o }
        ensures rest { self.new ≡ record self.old { objects = put self.old.objects o blank; counts = put_count self.old.counts o.0 0 } }
    {
        let at = place_of(self.slots.as_slice(), self.made, o.0);
        let left = Object::blank(self.alloc);
        let slot = &mut self.slots[at];
        slot.count = 0;
        self.live -= 1;
        mem::replace(&mut slot.object, left)
    }
}
