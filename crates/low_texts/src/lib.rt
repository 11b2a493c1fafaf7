//! Tests of printed lowered code, in a crate of their own: the printer is proved without them.
#![tactic(auto)]

#[cfg(test)]
mod tests;
#[cfg(test)]
mod texts;
