//! The values that are visible where the verifier stands.
ghost use Rattle.std.specs.Prelude.{◌≡◌, ◌<◌, ◌^◌, ◌++◌, ◌∷◌, ℕ, [], length, take, OnOk, Some, slice_get, vec_len};
ghost use Rattle.std.specs.Option.{option_copied, is_some};
ghost use Rattle.ir_verify.specs.Scopes.{lookup};

use ir_forms::{Ty, ValueNo};
use std::alloc::{AllocError, Global};
use std::marker::Model;

/// The visible values with their types, in the order of their definitions. `slots` holds, by a
/// value's number, where its first definition stands, so that a look-up takes no search.
#[derive(Drop)]
pub(crate) struct Scope<'a> {
    entries: Vec<(ValueNo, &'a Ty)>,
    slots: Vec<usize>,
}

impl<'a> Model for Scope<'a> {
    ghost use Rattle.std.specs.Prelude.{List, map};
    ghost use Rattle.ir_forms.specs.declared.ops.ValueNo.{ValueNo};
    ghost use Rattle.ir_forms.specs.declared.types.Ty.{Ty};
    ghost use Rattle.ir_verify.specs.Scopes.{Indexes};

    ghost Value = { List (ValueNo × Ty) };

    ghost view = { λ s. map (λ e. (e.0, e.1.now)) s.entries.items };

    ghost invariant = { λ s. Indexes s.entries.items s.slots.items };
}

impl<'a> Scope<'a> {
    pub(crate) fn new(alloc: Global) -> Scope<'a>
        ensures { result ≡ [] }
    {
        Scope {
            entries: Vec::new(alloc),
            slots: Vec::new(alloc),
        }
    }

    pub(crate) fn len(&self) -> usize
        ensures { result ≡ length self.now }
    {
        self.entries.len()
    }

    /// The type of a value, if it is visible.
    pub(crate) fn get(&self, value: ValueNo) -> Option<&'a Ty>
        ensures { option_copied result ≡ lookup self.now value.0 }
    {
        let Some(slot) = number_at(&self.slots, value.0 as usize) else {
            return None;
        };
        let Some((defined, ty)) = entry_at(&self.entries, slot) else {
            return None;
        };
        if defined.0 == value.0 { Some(ty) } else { None }
    }

    pub(crate) fn has(&self, value: ValueNo) -> bool
        ensures { result ≡ is_some (lookup self.now value.0) }
    {
        self.get(value).is_some()
    }

    /// Makes a value visible behind the others.
    pub(crate) fn define(&mut self, value: ValueNo, ty: &'a Ty) -> Result<(), AllocError>
        ensures { OnOk result (self.new ≡ self.old ++ (value, ty.now) ∷ []) }
    {
        let place = self.entries.len();
        let number = value.0 as usize;
        let is_new = !self.has(value);
        make_room(&mut self.slots, number)?;
        self.entries.push((value, ty))?;
        if is_new {
            self.slots[number] = place;
        }
        Ok(())
    }

    /// Takes the values behind the first `len` out of sight.
    pub(crate) fn truncate(&mut self, len: usize)
        ensures { self.new ≡ take len self.old }
    {
        self.entries.truncate(len);
    }
}

fn number_at(numbers: &[usize], place: usize) -> Option<usize>
    ensures { result ≡ slice_get numbers.now place }
{
    numbers.get(place).copied()
}

fn entry_at<'a>(entries: &[(ValueNo, &'a Ty)], place: usize) -> Option<(ValueNo, &'a Ty)>
    ensures { result ≡ slice_get entries.now place }
{
    entries.get(place).copied()
}

/// Lengthens the list until it has this place, and keeps what it holds.
fn make_room(slots: &mut Vec<usize>, place: usize) -> Result<(), AllocError>
    requires { place < 2 ^ 32 }
    ensures room { OnOk result (place < vec_len slots.new) }
    ensures kept { (k p : ℕ) → slice_get slots.old.items k ≡ Some p → slice_get slots.new.items k ≡ Some p }
{
    while slots.len() <= place {
        slots.push(0)?;
    }
    Ok(())
}
