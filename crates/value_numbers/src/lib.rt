//! The values of each function, numbered in the order of the text.
#![tactic(auto)]

mod collect;
mod numbers;
mod places;
mod rename;

pub use numbers::number_values;
