//! The blocks of structured control flow are well formed.
#![tactic(auto)]

mod laws;

pub use laws::{all_assigned, edges_split, none_saved, numbers_within, well_formed_if_fits};
