//! What the tasks of a sequential run share: buffers, groups, and how tasks ended.
#![tactic(auto)]

mod ends;
mod groups;
mod names;
mod shared;
mod stores;

pub use ends::Ended;
pub use groups::Fill;
pub use shared::Shared;
