//! Programs whose tasks agree one by one carry each other: what a pass that changes tasks alone has to show.
#![tactic(auto)]

mod laws;

pub use laws::{agreeing_carry, renamed_carry};
