//! Operations without regions that break no rule fit the rows of their blocks.
#![tactic(auto)]

mod laws;

pub use laws::{assertions_fit, awaits_fit, calls_fit, plain_rows_fit};
