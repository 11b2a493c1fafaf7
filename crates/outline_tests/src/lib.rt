//! Tests of the pass that makes functions of tasks: what is printed of the module that it gives, and its launches.
#![tactic(auto)]

#[cfg(test)]
mod launches;
#[cfg(test)]
mod tests;
#[cfg(test)]
mod texts;
