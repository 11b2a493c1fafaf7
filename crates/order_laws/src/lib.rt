//! One end of source modules for every order of tasks, over the small steps of their tasks.
#![tactic(auto)]

mod laws;

pub use laws::{
    finished_runs_agree, meaning_is_one_end, one_end_in_any_order, ordered_writes_have_one_end,
};
