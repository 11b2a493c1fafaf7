//! A machine that reads texts by a table of rules, token by token. It is generic in the table: in the classes of words, the
//! rules, the actions, the tokens and the states.
#![tactic(auto)]

mod laws;
mod machine;
mod rules;
mod symbol;

pub use laws::{
    Ending, Grammar, finds_first_fault, leads_to_one, runs_each_text, runs_texts_alone,
};
pub use machine::{close, push_all, step};
pub use rules::Rules;
pub use symbol::Symbol;
