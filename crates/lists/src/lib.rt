//! Lists that contracts see as plain values, so that a tree of them is plain data.
#![tactic(auto)]

mod items;
#[cfg(test)]
mod tests;

pub use items::Items;
