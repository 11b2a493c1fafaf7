//! What the objects of runs do, call by call.
#![tactic(auto)]

#[cfg(test)]
mod groups;
#[cfg(test)]
mod many;
#[cfg(test)]
mod single;
