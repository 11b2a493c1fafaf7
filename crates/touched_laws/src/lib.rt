//! Laws on what a step of the core sees: of the objects of a run, those alone that it touches. Each function's contract is a law,
//! for the proofs of other crates to cite.
#![tactic(auto)]

mod laws;

pub use laws::{changes_see_touched, step_sees_touched};
