//! What source modules mean: what a task does next, the sequential run, and the runs in any order of tasks.
#![tactic(auto)]

mod copies;
mod ends;
mod values;

pub use copies::copy_val;
pub use ends::{SourceEnd, SourceRun};
pub use values::Val;
