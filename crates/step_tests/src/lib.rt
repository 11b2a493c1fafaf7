//! Tests of the core over lowered code, in a crate of their own: the core's crate is proved without them.
#![tactic(auto)]

#[cfg(test)]
mod data;
#[cfg(test)]
mod make;
#[cfg(test)]
mod tests;
