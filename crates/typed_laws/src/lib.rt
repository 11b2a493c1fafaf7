//! What the values of a run's tasks are.
#![tactic(auto)]

mod laws;

pub use laws::{buffers_fit, elements_fit, values_are_in_range};
