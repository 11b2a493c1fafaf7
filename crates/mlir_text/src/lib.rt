//! The reader of MLIR texts.
#![tactic(auto)]

mod fault;
mod reader;
mod tokens;

pub use fault::TextFault;
pub use module_grammar::{Limited, TextLimits};
pub use reader::{PROGRAM_LIMITS, parse};

#[cfg(test)]
mod tests;
