//! The evaluator of source modules: it runs a function in sequence, as its meaning says, with an end and a trace.
#![tactic(auto)]

mod answers;
mod ends;
mod joins;
mod made;
mod sequence;
mod whole;

pub use whole::evaluate;
