//! Tests of coroutines, in a crate of their own: the pass is proved without them.
#![tactic(auto)]

#[cfg(test)]
mod data;
#[cfg(test)]
mod expected;
#[cfg(test)]
mod make;
#[cfg(test)]
mod show;
#[cfg(test)]
mod tests;
