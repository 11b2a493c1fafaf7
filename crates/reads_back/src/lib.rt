//! A module that is printed is read back as itself.
#![tactic(auto)]

mod laws;

pub use laws::{prints_back, reads_back};
