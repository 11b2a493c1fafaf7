//! The laws of reading texts, each the contract of a function that does nothing. `mlir_text/specs/Texts.antt` has what they
//! say, from "the laws" on; `proofs/Answers.antt` proves them, from the one reading of bytes as tokens and of tokens as a module.
#![tactic(auto)]

mod laws;

pub use laws::{one_answer, one_module, reads_texts};
