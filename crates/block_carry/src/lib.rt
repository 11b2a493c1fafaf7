//! Code of blocks follows the module that it is made of: where a task stands in its code, and what steps lead on from there.
#![tactic(auto)]

mod laws;

pub use laws::{
    adds_taken, allocs_taken, awaits_all_taken, awaits_taken, code_follows, creates_taken,
    failed_taken, gave_taken, launches_taken, never_stuck_here, quiet_holds, quiet_taken,
    reads_taken, root_failed_taken, root_gave_taken, root_stands, stands_later, stops_so,
    writes_taken,
};
