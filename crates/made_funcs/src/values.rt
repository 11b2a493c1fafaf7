//! The values of a function with their types, by their numbers.
ghost use Rattle.std.specs.Prelude.{◌≡◌, ◌+◌, ◌++◌, max, slice_get, IfOk};
ghost use Rattle.made_funcs.specs.Places.{Places};
ghost use Rattle.made_funcs.specs.Values.{as_values, first_free, numbered, type_in, typed_in, values_of};

use crate::defined::push_values;
use indexmap::IndexMap;
use ir_forms::{Func, Ty, ValueNo, copy_type};
use lists::Items;
use std::alloc::{AllocError, Global};
use std::marker::Model;

/// The values of a function with their types, the place of the first one of each number, and the first free number.
#[derive(Drop)]
pub struct Values {
    values: Items<(ValueNo, Ty)>,
    places: IndexMap<u32, usize>,
    free: u64,
}

impl Model for Values {
    ghost use Rattle.std.specs.Prelude.{◌≡◌, List};
    ghost use Rattle.ir_forms.specs.contracts.types.Ty as code;
    ghost use Rattle.std.specs.Coded.{codes};
    ghost use Rattle.made_funcs.specs.Places.{Places};
    ghost use Rattle.made_funcs.specs.Values.{Typed, first_free};

    ghost Value = { Typed };

    ghost coded = { Prim.hlevel (codes, code.the_row.coded) };

    ghost view = { λ v. v.values };

    ghost invariant = { λ v. Places v.places v.values × (v.free ≡ first_free v.values) };
}

/// Where a value of each number stands first.
fn first_places(alloc: Global, values: &[(ValueNo, Ty)]) -> Result<IndexMap<u32, usize>, AllocError>
    ensures { IfOk result (λ places. Places places values.now) }
{
    let mut places = IndexMap::new(alloc);
    for (place, value) in values.iter().enumerate() {
        if !places.contains_key(&value.0.0) {
            places.insert(value.0.0, place)?;
        }
    }
    Ok(places)
}

/// The first number that is above those of all values.
fn first_free(values: &[(ValueNo, Ty)]) -> u64
    ensures { result ≡ first_free values.now }
{
    let mut free = 0;
    for value in values {
        free = (value.0.0 as u64 + 1).max(free);
    }
    free
}

impl Values {
    pub fn of_func(alloc: Global, func: &Func) -> Result<Values, AllocError>
        ensures { IfOk result (λ values. values ≡ values_of func.now) }
    {
        let mut values = Items::new(alloc);
        push_values(alloc, func, &mut values)?;
        let places = first_places(alloc, values.as_slice())?;
        let free = first_free(values.as_slice());
        Ok(Values {
            values,
            places,
            free,
        })
    }

    /// The first number that is above those of all values.
    pub fn first_free(&self) -> u64
        ensures { result ≡ first_free self.now }
    {
        self.free
    }

    /// A copy of the type of a value.
    #[tactic(auto, using(crate::proofs::PlaceLemmas::type_by_place, crate::proofs::PlaceLemmas::type_missing, crate::proofs::PlaceLemmas::type_without_place))]
    pub fn copy_type(&self, alloc: Global, value: u32) -> Result<Ty, AllocError>
        ensures { IfOk result (λ ty. ty ≡ type_in self.now value) }
    {
        let Some(place) = self.places.get(&value) else {
            return Ok(Ty::Untyped);
        };
        match self.values.get(*place) {
            Some(found) => copy_type(alloc, &found.1),
            None => Ok(Ty::Untyped),
        }
    }

    /// These values with their types.
    pub fn typed(&self, alloc: Global, values: &[u32]) -> Result<Items<(ValueNo, Ty)>, AllocError>
        ensures { IfOk result (λ typed. typed ≡ typed_in self.now values.now) }
    {
        let mut typed = Items::new(alloc);
        for value in values {
            let ty = self.copy_type(alloc, *value)?;
            typed.push((ValueNo(*value), ty))?;
        }
        Ok(typed)
    }
}

/// Values of these types, numbered from here on. Numbers past 2^32 are want of memory.
pub fn numbered(alloc: Global, free: u64, types: &[Ty]) -> Result<Items<(ValueNo, Ty)>, AllocError>
    ensures { IfOk result (λ values. values ≡ numbered free types.now) }
{
    let mut values = Items::new(alloc);
    let mut next = free;
    for ty in types {
        let number = u32::try_from(next).ok().ok_or(AllocError)?;
        let ty = copy_type(alloc, ty)?;
        values.push((ValueNo(number), ty))?;
        next += 1;
    }
    Ok(values)
}

/// These values, and behind them those of these numbers.
pub fn with_values(
    alloc: Global,
    values: &[ValueNo],
    more: &[u32],
) -> Result<Items<ValueNo>, AllocError>
    ensures { IfOk result (λ all. all ≡ values.now ++ as_values more.now) }
{
    let mut all = Items::from_slice(alloc, values)?;
    for value in more {
        all.push(ValueNo(*value))?;
    }
    Ok(all)
}
