//! Arguments: how they are read from their text, and how they fit their parameters.
#![tactic(auto)]

mod faults;
mod fitting;
mod reader;
mod shapes;

pub use faults::{ArgsBad, BadArgs};
pub use fitting::fit_args;
pub use reader::{read_args, read_bytes};
