//! Tests of lowered code, in a crate of their own: the code's crate is proved without them.
#![tactic(auto)]

#[cfg(test)]
mod data;
#[cfg(test)]
mod make;
#[cfg(test)]
mod tests;
