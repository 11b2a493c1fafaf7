//! The types of the operations of a module whose tasks are functions.
#![tactic(auto)]

mod forms;
mod steps;
mod tasks;
mod texts;

pub use forms::{
    choices_fit, conditions_fit, ends_fit, launches_fit, loops_fit, tested_loops_fit,
    tried_calls_fit,
};
pub use steps::{launches_typed, operations_typed};
pub use tasks::{launch_rows_fit, tasks_typed};
pub use texts::{called_are_found, outlined_in_scope, text_counts_on, values_are_held};
