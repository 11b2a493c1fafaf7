//! Tests of the reader of lowered texts, in a crate of their own: the reader is proved without them.
#![tactic(auto)]

#[cfg(test)]
mod tests;
#[cfg(test)]
mod texts;
