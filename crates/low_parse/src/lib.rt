//! Reads a lowered text into its code: its tokens, the code with names that they stand for, and the numbers of the names.
#![tactic(auto)]

mod code;
mod fault;
mod names;
mod numbers;
mod parse;
mod tokens;

pub use code::code_of;
pub use fault::LowFault;
pub use parse::parse_low;
