ghost use Rattle.std.specs.Prelude.{◌≡◌, ◌≢◌, MatchBool, IfOk, true, false, length, replicate, slice_set};
ghost use Rattle.bit_sets.specs.Members.{is_in, union};

use crate::words::{bit_of, clear_bit, empty_words, set_bit, unite};
use std::alloc::{AllocError, Global};
use std::marker::Model;

/// A set of numbers below a limit. Contracts see it as a list with a truth for each number below the limit.
#[derive(Drop)]
pub struct BitSet {
    words: Vec<u64>,
    limit: usize,
}

impl Model for BitSet {
    ghost use Rattle.std.specs.Prelude.{◌≡◌, ◌≤◌, ◌+◌, ◌/◌, ℕ, List, Bool, false, length};
    ghost use Rattle.bit_sets.specs.Words.{bit_of, truths};

    ghost Value = { List Bool };

    ghost view = { λ s. truths s.limit s.words.items };

    ghost invariant = { λ s. (length s.words.items ≡ s.limit / 64 + 1) × ((n : ℕ) → s.limit ≤ n → bit_of s.words.items n ≡ false) };
}

impl BitSet {
    /// The empty set.
    ///
    /// # Errors
    ///
    /// Where there is no memory for the words.
    pub fn new(alloc: Global, limit: usize) -> Result<BitSet, AllocError>
        ensures { IfOk result (λ set. set ≡ replicate limit false) }
    {
        let words = empty_words(alloc, limit / 64 + 1)?;
        Ok(BitSet { words, limit })
    }

    pub fn contains(&self, number: usize) -> bool
        ensures { result ≡ is_in self.now number }
    {
        bit_of(&self.words, number)
    }

    /// Adds a number; one that isn't below the limit changes nothing.
    pub fn insert(&mut self, number: usize)
        ensures { self.new ≡ slice_set self.old number true }
    {
        if number < self.limit {
            set_bit(&mut self.words, number);
        }
    }

    /// Takes a number out, if it is there.
    pub fn remove(&mut self, number: usize)
        ensures { self.new ≡ slice_set self.old number false }
    {
        if number < self.limit {
            clear_bit(&mut self.words, number);
        }
    }

    /// Adds the numbers of another set, and tells whether there was a new one.
    pub fn unite(&mut self, other: &BitSet) -> bool
        requires { length self.old ≡ length other.now }
        ensures union { self.new ≡ union self.old other.now }
        ensures new { MatchBool result (self.new ≢ self.old) (self.new ≡ self.old) }
    {
        unite(&mut self.words, &other.words)
    }
}
