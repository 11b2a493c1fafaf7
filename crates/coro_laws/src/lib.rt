//! Laws of the pass of coroutines, over the definitions alone.
#![tactic(auto)]

mod laws;

pub use laws::{
    coroutines_never_wait, coroutines_stay, counts_stay_small, edges_kept, fits_kept, labels_stand,
    no_awaits_left, one_suspend_each, runtime_well_formed, saves_followed,
};
