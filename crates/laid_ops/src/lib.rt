//! Operations that stand in blocks are laid out there.
#![tactic(auto)]

mod laws;

pub use laws::{module_is_laid, suited_is_laid};
