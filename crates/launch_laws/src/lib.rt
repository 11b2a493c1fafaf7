//! Laws on launches of lowered code. Each function's contract is a law, for the proofs of other crates to cite.
#![tactic(auto)]

mod laws;

pub use laws::{launch_enables_both, launch_readies_both};
