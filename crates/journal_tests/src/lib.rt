//! Tests of journals, of replays and of runs on one thread, in a crate of their own: those crates are proved without them.
#![tactic(auto)]

#[cfg(test)]
mod code;
#[cfg(test)]
mod drives;
#[cfg(test)]
mod lines;
#[cfg(test)]
mod make;
#[cfg(test)]
mod replays;
