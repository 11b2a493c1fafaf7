//! Tests of the passes to blocks: the code that they make of texts.
#![tactic(auto)]

#[cfg(test)]
mod show;
#[cfg(test)]
mod tests;
#[cfg(test)]
mod texts;
