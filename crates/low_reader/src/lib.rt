//! Reads lowered texts: the code of the table of `low_grammar` for the machine of `rule_machine`.
#![tactic(auto)]

mod acts;
mod classes;
mod dispatch;
mod forms;
mod kinds;
mod lines;
mod piece;
mod reader;
mod rows;
mod table;
mod types;

pub use reader::read_low;
pub use table::{GrammarSymbol, LowTable};
