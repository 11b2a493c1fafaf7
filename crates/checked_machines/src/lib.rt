//! What the pass of checks carries. Read `specs/Laws.antt`, and `specs/Strict.antt` for the machine that the passes behind it start from.
#![tactic(auto)]

mod laws;

pub use laws::{checked_carries, pass_carries, strictly_carries};
