//! That the code of a module is that of one without parallel loops.
#![tactic(auto)]

mod laws;

pub use laws::{lowered_has_no_loop, none_is_found, tasks_bring_none};
