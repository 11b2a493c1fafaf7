//! Tests of counts, in a crate of their own: the pass is proved without them.
#![tactic(auto)]

#[cfg(test)]
mod rows;
#[cfg(test)]
mod show;
#[cfg(test)]
mod tests;
