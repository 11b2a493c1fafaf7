//! What the pass of checks keeps of a module's values and of its text.
#![tactic(auto)]

mod laws;

pub use laws::checked_in_order;
