//! What a pass needs that makes functions: their names, the values of a function with their types, and what a region uses
//! from outside.
#![tactic(auto)]

mod body;
mod captures;
mod defined;
mod names;
mod values;

pub use body::with_body;
pub use captures::captures_of;
pub use names::Taken;
pub use values::{Values, numbered, with_values};
