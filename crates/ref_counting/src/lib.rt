//! The pass of counts: `add_ref` and `drop_ref` stand so that a frame owns one reference of each object whose register is
//! live, and none of another.
#![tactic(auto)]

mod around;
mod copies;
mod objects;
mod order;
mod pass;
mod plan;
mod starts;

pub use pass::place_counts;
