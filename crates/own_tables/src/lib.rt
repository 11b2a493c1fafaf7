//! Ownership tables of lowered code: how many references of which registers a frame owns at each place.
#![tactic(auto)]

mod table;

pub use table::{OwnTable, Owned};
