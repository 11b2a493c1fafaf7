//! What the checks before operations change in a module's runs: nothing, but where a task fails.
#![tactic(auto)]

mod laws;

pub use laws::{
    cell_is_tested, checked_has_results, checks_call_nothing, checks_change_no_run,
    division_is_tested, insertion_decides, operations_have_results, pass_changes_no_run,
    pass_has_elements, pass_has_results, pass_keeps_runs, product_is_tested, quotient_is_tested,
    ranks_make_fit, shift_is_tested, sound_reads_below, spans_are_tested, turns_are_computed,
    types_make_ranks,
};
