//! Programs whose tasks agree one by one have the same runs.
#![tactic(auto)]

mod laws;

pub use laws::{
    Alike, program_agrees_with_itself, renamed_programs_agree, renamed_programs_run_alike,
    same_ends, same_finishes, same_meaning, same_states,
};
