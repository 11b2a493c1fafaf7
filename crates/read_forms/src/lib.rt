//! What the grammar reads can be printed.
#![tactic(auto)]

mod laws;

pub use laws::{parses_printable, reads_depth, reads_printable, sees_no_deeper};
