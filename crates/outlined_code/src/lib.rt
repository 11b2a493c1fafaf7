//! The module that outlining makes of a sound one has operations whose types fit, and its code is well formed.
#![tactic(auto)]

mod laws;

pub use laws::{accepted_code_well_formed, outlined_typed};
