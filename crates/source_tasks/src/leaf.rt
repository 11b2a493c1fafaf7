//! Values by their numbers, a few of them: what a table shares.
ghost use Rattle.std.specs.Prelude.{◌≡◌, ◌≤◌, vec_len, [], slice_get, IfOk, OnOk};
ghost use Rattle.std.specs.Option.{option_copied};
ghost use Rattle.source_meaning.specs.declared.values.Val.{Val};
ghost use Rattle.source_meaning.specs.Values.{put};

use crate::held::Held;
use std::alloc::{AllocError, Global};
use std::marker::Model;

/// Values by number. One that was given none reads as the number 0.
#[derive(Drop)]
pub struct Leaf {
    values: Vec<Held>,
}

impl Model for Leaf {
    ghost use Rattle.std.specs.Prelude.{List};
    ghost use Rattle.source_meaning.specs.declared.values.Val.{Val};

    ghost Value = { List Val };

    ghost view = { λ l. l.values.items };
}

impl Leaf {
    pub(crate) fn new(alloc: Global) -> Leaf
        ensures { result ≡ [] }
    {
        Leaf {
            values: Vec::new(alloc),
        }
    }

    pub(crate) fn get(&self, place: usize) -> Option<&Held>
        ensures { option_copied result ≡ slice_get self.now place }
    {
        self.values.get(place)
    }

    /// Gives a number its value. Those before it that were given none are then the number 0.
    #[tactic(auto, using(crate::proofs::Puts::put_within, crate::proofs::Puts::put_last))]
    pub(crate) fn put(&mut self, place: usize, held: Held) -> Result<(), AllocError>
        ensures { OnOk result (self.new ≡ put self.old place held) }
    {
        grow(&mut self.values, place)?;
        if place < self.values.len() {
            self.values[place] = held;
        } else {
            self.values.push(held)?;
        }
        Ok(())
    }

    /// The same values, none of which is copied.
    pub(crate) fn copy(&self, alloc: Global) -> Result<Leaf, AllocError>
        ensures { IfOk result (λ copy. copy ≡ self.now) }
    {
        let mut values = Vec::new(alloc);
        for value in &self.values {
            values.push(value.share()?)?;
        }
        Ok(Leaf { values })
    }
}

/// Lengthens the list to this length by numbers 0, which what isn't there reads as anyway.
fn grow(values: &mut Vec<Held>, len: usize) -> Result<(), AllocError>
    ensures same { OnOk result ((v : Val) → put values.new.items len v ≡ put values.old.items len v) }
    ensures long { OnOk result (len ≤ vec_len values.new) }
{
    while values.len() < len {
        values.push(Held::of_number(0))?;
    }
    Ok(())
}
