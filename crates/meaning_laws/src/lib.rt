//! Laws of what source modules mean, and worked modules whose runs the definitions compute.
#![tactic(auto)]

mod laws;

pub use laws::{
    more_fuel_is_the_same, next_is_renamed, sequential_is_a_run, step_is_renamed,
    tasks_follow_answers, turns_are_reached, worked_modules,
};
