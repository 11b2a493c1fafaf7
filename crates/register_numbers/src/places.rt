//! Where numbers stand first in a list, without a search.
ghost use Rattle.std.specs.Prelude.{◌≡◌, ◌<◌, length, IfOk};
ghost use Rattle.register_numbers.specs.FirstPlaces.{AreFirst, first_place, place_in, unknown};

use indexmap::IndexMap;
use std::alloc::{AllocError, Global};
use std::marker::Model;

/// The place of what isn't there.
pub const UNKNOWN: u32 = u32::MAX;

/// A list of numbers that knows where each stands first. Contracts see it as the list.
#[derive(Drop)]
pub struct Places {
    numbers: Vec<u64>,
    first: IndexMap<u64, u32>,
}

impl Model for Places {
    ghost use Rattle.std.specs.Prelude.{List, ℕ};
    ghost use Rattle.register_numbers.specs.FirstPlaces.{AreFirst};

    ghost Value = { List ℕ };

    ghost view = { λ p. p.numbers.items };

    ghost invariant = { λ p. AreFirst p.numbers.items p.first };
}

fn first_places(alloc: Global, numbers: &[u64]) -> Result<IndexMap<u64, u32>, AllocError>
    ensures places { IfOk result (λ places. AreFirst numbers.now places) }
    ensures within { IfOk result (λ places. length numbers.now < unknown) }
{
    if numbers.len() >= UNKNOWN as usize {
        return Err(AllocError);
    }
    let mut places = IndexMap::new(alloc);
    for (place, number) in numbers.iter().enumerate() {
        if !places.contains_key(number) {
            places.insert(*number, place as u32)?;
        }
    }
    Ok(places)
}

impl Places {
    /// Looks where each of the numbers stands. As many as 2^32 - 1 are want of memory.
    pub fn of(alloc: Global, numbers: Vec<u64>) -> Result<Places, AllocError>
        ensures { IfOk result (λ places. places ≡ numbers.items) }
    {
        let first = first_places(alloc, &numbers)?;
        Ok(Places { numbers, first })
    }

    /// Where the number stands first.
    pub fn find(&self, number: u64) -> Option<u32>
        ensures { result ≡ first_place self.now number }
    {
        self.first.get(&number).copied()
    }

    /// Where the number stands first, or `UNKNOWN`.
    pub fn place(&self, number: u64) -> u32
        ensures { result ≡ place_in self.now number }
    {
        self.find(number).unwrap_or(UNKNOWN)
    }
}
