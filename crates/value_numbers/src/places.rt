//! The first places of numbers.
ghost use Rattle.std.specs.Prelude.{◌≡◌, ℕ, ◌<◌, length, nat_eq, IfOk};
ghost use Rattle.indexmap.specs.IndexMap.{get};
ghost use Rattle.source_meaning.specs.Renaming.{renamed_value};
ghost use Rattle.value_numbers.specs.Numbers.{as_numbers, first_place, unknown};
ghost use Rattle.value_numbers.specs.Places.{place_at};

use indexmap::IndexMap;
use ir_forms::ValueNo;
use std::alloc::{AllocError, Global};

/// Where each value stands first. As many places as there are numbers are want of memory.
pub(crate) fn first_places(
    alloc: Global,
    values: &[ValueNo],
) -> Result<IndexMap<u32, u32>, AllocError>
    ensures places { IfOk result (λ places. (x : ℕ) → get nat_eq places x ≡ first_place (as_numbers values.now) x) }
    ensures within { IfOk result (λ places. length values.now < unknown) }
{
    if values.len() >= ValueNo::UNKNOWN.0 as usize {
        return Err(AllocError);
    }
    let mut places = IndexMap::new(alloc);
    for (place, value) in values.iter().enumerate() {
        if !places.contains_key(&value.0) {
            places.insert(value.0, place as u32)?;
        }
    }
    Ok(places)
}

/// The value that has its place as its number.
pub(crate) fn placed(value: ValueNo, places: &IndexMap<u32, u32>) -> ValueNo
    ensures { result ≡ renamed_value (place_at places.now) value }
{
    match places.get(&value.0) {
        Some(place) => ValueNo(*place),
        None => ValueNo::UNKNOWN,
    }
}
