//! Tests of the pass that splits parallel loops: what is printed of the module that it gives.
#![tactic(auto)]

#[cfg(test)]
mod deeper;
#[cfg(test)]
mod tests;
#[cfg(test)]
mod texts;
