//! One end of source modules for every order of tasks.
#![tactic(auto)]

mod laws;

pub use laws::{modules_have_one_end, unread_is_free, unread_is_unseen};
