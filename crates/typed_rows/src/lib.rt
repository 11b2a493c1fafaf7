//! The blocks of operations whose types fit are well formed.
#![tactic(auto)]

mod laws;

pub use laws::{typed_is_closed, typed_rows_fit, typed_well_formed};
