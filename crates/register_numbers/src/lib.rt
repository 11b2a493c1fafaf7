//! The registers of a function, numbered in the order in which its text defines them.
#![tactic(auto)]

mod defined;
mod numbering;
mod places;
mod rename;

pub use numbering::renumber;
pub use places::{Places, UNKNOWN};
