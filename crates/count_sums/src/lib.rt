//! Sums over lists, and the references of one object that registers hold, by a number for each register. Each function's
//! contract is a law, for the proofs of other crates to cite.
#![tactic(auto)]

mod laws;

pub use laws::{counts_move, points_move, writes_keep};
