//! The grammar of lowered texts, as a table of rules for the machine of `rule_machine`, and the code with names that each
//! text stands for.
#![tactic(auto)]

mod laws;
mod name_text;
mod named;
mod state;
mod symbols;

pub use laws::{has_one_code, reads_each_text, reads_texts_alone};
pub use name_text::NameText;
pub use named::{NamedAttr, NamedBlock, NamedFunc, NamedInstr, NamedParam, NamedTarget};
pub use state::{AttributeEntry, State};
pub use symbols::{Act, Class, Keyword, Rule};
