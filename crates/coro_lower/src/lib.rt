//! The pass of coroutines: launches and awaits become rows of the runtime, and each task becomes a coroutine.
#![tactic(auto)]

mod blocks;
mod body;
mod label;
mod layout;
mod lower;
mod plan;
mod registers;
mod rows;

pub use label::{End, Label};
pub use lower::to_runtime;
