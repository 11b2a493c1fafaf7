//! The runs of source modules in any order of tasks, as a machine. Read `specs/Source.antt`, and then `Laws`.
#![tactic(auto)]

mod laws;

pub use laws::{finishes_the_same, never_stuck, reaches_the_same};
