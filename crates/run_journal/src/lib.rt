//! Journals: their text, and the run that a journal replays.
#![tactic(auto)]

mod faults;
mod growth;
mod laws;
mod reading;
mod replaying;
mod writing;

pub use faults::{JournalFault, ReplayFault, TaskLook};
pub use growth::{entries_stay_within, starts_are_within};
pub use laws::{
    entries_within_are_possible, impossible_by_cases, no_journal_with_bad_line, one_bad_line,
    one_journal, replayed_or_named, replays_within_are_possible,
};
pub use reading::read_journal;
pub use replaying::replay;
pub use step_core::Entry;
pub use writing::{journal_text, push_journal};
