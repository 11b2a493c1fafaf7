//! What a module's functions keep where others stand behind them.
#![tactic(auto)]

mod laws;

pub use laws::{appended_is_sound, appended_stays_fine};
