//! The count equation: in a state of a run each object has as many references as the ownership table gives to frames, and those
//! that it keeps itself. Each function's contract is a law, for the proofs of other crates to cite.
#![tactic(auto)]

mod laws;

pub use laws::{
    branches_keep, covered_keeps, covered_runs_keep, gone_is_unowned, none_is_left, owned_is_there,
    seven_is_equal, starts_equal,
};
