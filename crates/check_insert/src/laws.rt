//! What the pass keeps, as laws: each function's contract is one.
ghost use Rattle.check_insert.specs.Laws.{CheckedIsSound, CheckedHasLevel};

use sound_laws::{extended_has_level, extended_is_sound, numbered_has_level, numbered_is_sound};

/// A sound module with its checks is sound.
pub fn checked_is_sound()
    ensures { CheckedIsSound }
{
    extended_is_sound();
    numbered_is_sound();
}

/// It stands at level Checked where the module stood there or at level Source.
pub fn checked_has_level()
    ensures { CheckedHasLevel }
{
    extended_has_level();
    numbered_has_level();
}
