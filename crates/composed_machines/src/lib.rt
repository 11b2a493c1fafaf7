//! The passes one behind another: what lowered code keeps of the module that was read, where each pass carries its input.
#![tactic(auto)]

mod laws;

pub use laws::{composed_keeps, composed_refines};
