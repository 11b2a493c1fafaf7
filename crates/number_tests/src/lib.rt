//! Tests of the numbers of values.
#![tactic(auto)]

#[cfg(test)]
mod make;
#[cfg(test)]
mod numbering;
