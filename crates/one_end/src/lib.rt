//! One end for every order of tasks: a law over definitions alone.
#![tactic(auto)]

mod laws;

pub use laws::one_end;
