//! Laws of the numbers of values, over the definitions alone.
#![tactic(auto)]

mod laws;

pub use laws::{numbered_once, numbering_is_a_renaming, values_in_order};
