//! A task of a source module by itself: what it has still to do, and the steps that it takes.
//!
//! A task's step is the next step of the definitions. Where it asks the shared state, the caller answers, and the task
//! goes on.
#![tactic(auto)]

mod alone;
mod asking;
mod env;
mod facts;
mod flow;
mod forms;
mod frames;
mod held;
mod leaf;
mod loops;
mod names;
mod next;
mod pending;
mod rows;
mod sizes;
mod step;
mod table;
mod task;
mod uses;

pub use facts::Facts;
pub use loops::Loop;
pub use names::Names;
pub use step::{Asked, Step};
pub use task::Task;
