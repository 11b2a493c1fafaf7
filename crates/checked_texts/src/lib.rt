//! The printed text of a module with its checks.
#![tactic(auto)]

mod laws;

pub use laws::checked_is_printable;
