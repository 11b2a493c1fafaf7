//! Lists with reserved places.
ghost use Rattle.std.specs.Prelude.{◌≡◌, ◌<◌, ◌≤◌, ◌∷◌, [], ◌+◌, length, IfOk, OnOk};
ghost use Rattle.async_objects.specs.Reserved.{grown};

use ir_forms::{ObjNo, TaskNo};
use std::alloc::{AllocError, Global};
use std::marker::Model;

/// A list with reserved places. An addition takes one, and so no memory.
#[derive(Drop)]
pub struct ReservedList<T> {
    items: Vec<T>,
}

/// Tasks that were made ready, in order.
pub type WokenList = ReservedList<TaskNo>;

/// Objects that were taken out, in order.
pub type FreedList = ReservedList<ObjNo>;

impl<T> Model for ReservedList<T> {
    ghost use Rattle.std.specs.Prelude.{◌-◌, vec_len, vec_capacity};
    ghost use Rattle.async_objects.specs.Reserved.{Reserved};

    ghost Value = { Reserved T };

    ghost view = { λ list. record { items = list.items.items; room = vec_capacity list.items - vec_len list.items } };
}

impl<T> ReservedList<T> {
    /// The empty list, with places for so many.
    ///
    /// # Errors
    ///
    /// Where memory runs out.
    pub fn new(alloc: Global, room: u32) -> Result<ReservedList<T>, AllocError>
        ensures { IfOk result (λ list. list ≡ record { items = []; room = room }) }
    {
        let items = Vec::with_capacity(alloc, room as usize)?;
        Ok(ReservedList { items })
    }

    /// Reserves places for so many more.
    ///
    /// # Errors
    ///
    /// Where memory runs out.
    pub fn reserve(&mut self, additional: u32) -> Result<(), AllocError>
        ensures items { self.new.items ≡ self.old.items }
        ensures room { OnOk result (additional ≤ self.new.room) }
        ensures kept { self.old.room ≤ self.new.room }
    {
        self.items.reserve(additional as usize)
    }

    pub fn as_slice(&self) -> &[T]
        ensures { result.now ≡ self.now.items }
    {
        self.items.as_slice()
    }

    /// Adds an item at the end, in a reserved place.
    pub fn push(&mut self, item: T)
        requires { 0 < self.old.room }
        ensures { self.new ≡ grown (item ∷ []) self.old }
    {
        self.items.push_reserved(item);
    }
}

impl<T: Drop> ReservedList<T> {
    /// Takes all items out. Their places stay reserved.
    pub fn clear(&mut self)
        ensures items { self.new.items ≡ [] }
        ensures room { self.new.room ≡ self.old.room + length self.old.items }
    {
        self.items.clear();
    }
}
