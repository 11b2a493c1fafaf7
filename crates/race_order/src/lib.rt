//! Races of a run: which entries of its trace are in conflict, what the tasks know of each other, and the first pair in
//! conflict that nothing orders.
#![tactic(auto)]

mod clocks;
mod keys;
mod laws;
mod marks;
mod search;
mod table;
mod tasks;
mod touches;

pub use laws::{first_race_is_exact, last_entries_tell_all, worked_races};
pub use search::first_race;
