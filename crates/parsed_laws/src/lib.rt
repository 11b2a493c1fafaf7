//! What holds of what is read: it has the form that the laws of the passes ask for.
#![tactic(auto)]

mod laws;

pub use laws::{
    accepted_has_elements, accepted_has_results, accepted_keeps_runs, accepts_at_level,
    accepts_well_formed, fitted_are_arguments, reads_in_order, reads_sizes, reads_well_formed,
    sound_is_printable, written_are_arguments,
};
