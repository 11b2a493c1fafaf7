//! What keeps a module sound: other names of its values, and inserted operations that break nothing where they stand.
#![tactic(auto)]

mod laws;

pub use laws::{
    extended_has_level, extended_is_sound, numbered_has_level, numbered_is_sound, sound_uses_own,
};
