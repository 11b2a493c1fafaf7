//! The functions of a module whose tasks are functions: where they stand, and that their names find them.
#![tactic(auto)]

mod laws;

pub use laws::{functions_found, tasks_found, tasks_in_order};
