//! Runs of lowered code on one thread, with their journals.
#![tactic(auto)]

mod driver;
mod outcome;
mod turns;

pub use driver::drive;
pub use outcome::Outcome;
