//! Parallel loops as functions: of blocks of iterations, which are handed on half by half, or serial loops.
#![tactic(auto)]

mod pass;
mod plan;
mod walk;

pub use loop_blocks::Options;
pub use pass::{Halved, split_parallel};
pub use walk::Next;
