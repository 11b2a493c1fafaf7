//! Operations of verified modules are suited to be laid out.
#![tactic(auto)]

mod laws;

pub use laws::{sound_is_laid, sound_is_suited};
