//! Where the operations of a module stand in the blocks that are made of it.
#![tactic(auto)]

mod laws;

pub use laws::{blocks_are_placed, module_is_placed};
