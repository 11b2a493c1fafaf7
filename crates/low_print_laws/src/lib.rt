//! What holds of printed lowered code: each function's contract is a law, for the proofs of other crates to cite.
#![tactic(auto)]

mod laws;

pub use laws::{reads_as_spelled, takes_words};
