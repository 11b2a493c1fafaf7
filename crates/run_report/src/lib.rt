//! The texts of ends: numbers, results, buffers, messages of failures, the ends of runs, and what `source` prints.
#![tactic(auto)]

mod ends;
pub mod laws;
mod messages;
mod note_list;
mod source;
mod texts;

pub use ends::end_text;
pub use messages::note_at;
pub use note_list::{Note, Notes};
pub use source::{source_status, source_text};
pub use texts::{push_between, push_failed, push_numbered, push_results, push_two_numbered};
