//! The laws of the module grammar, each the contract of a function that does nothing. The definitions stand in `module_grammar`.
//!
//! To read, in this order: `specs/Engine.antt` of `module_grammar` (what a table of rules leads over, the first fault),
//! `specs/Texts.antt` (which tokens are a text) with its laws, and `specs/Faults.antt` from "the laws" on. The proofs:
//! `FirstFault` (where a machine over any table refuses a token, the first fault stands), `Texts` (so it is with the grammar),
//! `Fitting` (what fits where one token is taken and another is refused), `TokenClasses` (which classes tell a token of one
//! kind from one of another), `Unknown` (where an unknown operation or type is answered, a known one fits), `Exact` (and the
//! other way round), `UnknownTypes` (so it is at numbers), `WideNumbers` and `Limits`, of `specs/WideNumbers.antt` and
//! `specs/Limits.antt`, which are read last.
#![tactic(auto)]

mod laws;

pub use laws::{
    finds_first_fault, finds_unknown_type, finds_unknown_type_at_number, has_one_module,
    passes_limit, reads_each_text, reads_texts_alone, tells_unknown_op, tells_unknown_type,
    tells_wide_number,
};
