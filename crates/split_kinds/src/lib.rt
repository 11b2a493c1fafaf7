//! That no parallel loop is left, and at which level the module stands then.
#![tactic(auto)]

mod laws;

pub use laws::{no_loop_is_left, split_has_level};
