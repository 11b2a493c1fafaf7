//! The blocks of structured control flow are what coroutines are made of.
#![tactic(auto)]

mod laws;

pub use laws::{blocks_half_lowered, lowered_well_formed};
