//! Laws of the numbers of registers, over the definitions alone.
#![tactic(auto)]

mod laws;

pub use laws::{renumbered_well_formed, types_stay};
