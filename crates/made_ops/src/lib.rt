//! Operations that a pass makes, one after another: constants that are shared, what computes and compares numbers,
//! assertions, and the turns of a loop.
#![tactic(auto)]

mod insertion;
mod making;
mod turns;
mod types;

pub use insertion::{Insertion, Known, Operand};
pub use types::{least, minus_one, type_of, width_of};
