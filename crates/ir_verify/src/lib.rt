//! The verifier: `verify` answers whether a module breaks a rule, and which first, and `entry_of` in which function a
//! run begins. A `Verified` module breaks none.
#![tactic(auto)]

mod breaks;
mod calls;
mod entry;
mod fault;
mod form;
mod graph;
pub mod laws;
mod level;
mod names;
mod outcome;
mod place;
mod rules;
mod scope;
mod standing;
pub mod types;
mod verdict;
mod verified;
mod walk;

pub use calls::Call;
pub use entry::{EntryFault, entry_of};
pub use fault::{Broken, VerifyKind};
pub use graph::task_called;
pub use names::Names;
pub use outcome::{VerifyFault, verify};
pub use place::Nest;
pub use verified::Verified;
