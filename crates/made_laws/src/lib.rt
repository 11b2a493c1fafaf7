//! The functions that passes make: their names, and what their regions capture.
#![tactic(auto)]

mod laws;

pub use laws::{captures_are, made_names_differ, made_names_free};
