//! Sets of numbers below a limit, kept as the bits of words.
#![tactic(auto)]

mod bit_set;
mod words;

pub use bit_set::BitSet;
