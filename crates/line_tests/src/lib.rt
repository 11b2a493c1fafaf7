//! Tests of all passes over texts: from what is read to well-formed code, and the texts on the way.
#![tactic(auto)]

#[cfg(test)]
mod tests;
#[cfg(test)]
mod texts;
#[cfg(test)]
mod worked;
