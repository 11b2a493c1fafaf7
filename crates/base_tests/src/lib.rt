//! Tests of the base crates' public items, which have none of their own: each crate with tests is proved once more for them.
#![tactic(auto)]

#[cfg(test)]
mod io;
#[cfg(test)]
mod numbering;
#[cfg(test)]
mod printing;
#[cfg(test)]
mod table;
#[cfg(test)]
mod verifying;
