//! The grammar of module texts: a table of rules, the texts that it has, the module that each stands for, and the machine
//! that reads them token by token.
#![tactic(auto)]

mod acts;
mod faults;
mod laws;
mod machine;
mod names;
mod plain;
mod refusals;
mod sought;
mod state;
mod symbols;
mod types;
mod words;

pub use faults::{GrammarFault, Limited, TextLimits};
pub use laws::{accepts_exactly, names_first_fault};
pub use machine::reader::read;
pub use sought::Sought;
pub use state::{DictEntry, Name, OpenBody, OpenFunc, OpenOp, Outer, Param, State, TextToken};
pub use symbols::{Act, Class, Keyword, Rule, Symbol};
pub use types::DimSoFar;
pub use words::bytes::Bytes;
