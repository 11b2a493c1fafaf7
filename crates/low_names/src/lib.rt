//! The numbers of the names of lowered texts: the code that named code stands for.
#![tactic(auto)]

mod laws;

pub use laws::{gives_numbers_back, worked_code_comes_back};
