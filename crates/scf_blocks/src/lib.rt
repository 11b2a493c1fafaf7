//! Structured control flow becomes blocks.
#![tactic(auto)]

mod body;
mod count;
mod func;
mod lower;
mod parts;
mod role;
mod scope;
mod terms;

pub use body::{Body, Close, Failure};
pub use func::blocks_of_module;
pub use role::Role;
pub use scope::Scope;
