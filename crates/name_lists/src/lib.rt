//! Lists of things with names, and the first thing of a name in few steps.
#![tactic(auto)]

mod name_list;
#[cfg(test)]
mod tests;

pub use name_list::{HasName, NameList};
