//! The stack of one task of lowered code: its frames and kept copies, and the steps that it takes by itself.
#![tactic(auto)]

mod ahead;
mod effects;
mod frames;
pub mod laws;
mod local;
mod numbers;
mod registers;
mod shared;
mod stack;
mod steps;
mod stuck;

pub use async_objects::Val;
pub use effects::{Effect, Number, effect_of};
pub use frames::{Activation, Frame, Place, Saved};
pub use registers::Registers;
pub use stack::Stack;
pub use steps::{Ahead, CountStep, LocalStep};
