//! Regions of `async.execute` as functions of their own: tasks.
#![tactic(auto)]

mod awaits;
mod pass;
mod task;
mod walk;

pub use pass::{Outlined, outline, outline_module};
