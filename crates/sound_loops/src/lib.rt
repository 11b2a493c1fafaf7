//! That what is made of a parallel loop breaks no rule.
#![tactic(auto)]

mod laws;

pub use laws::{block_func_is_sound, serial_loop_is_fine};
