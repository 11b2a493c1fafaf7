//! The laws.
ghost use Rattle.sound_laws.specs.Laws.{ExtendedIsSound, ExtendedHasLevel, NumberedIsSound, NumberedHasLevel, SoundUsesOwn};

/// A module with inserted operations that break nothing where they stand is sound if it was before.
pub fn extended_is_sound()
    ensures { ExtendedIsSound }
{}

/// It stands at the level at which it stood before, if what is inserted stands there.
pub fn extended_has_level()
    ensures { ExtendedHasLevel }
{}

/// A sound module whose values are numbered by their places is sound.
pub fn numbered_is_sound()
    ensures { NumberedIsSound }
{}

/// It stands at the level at which it stood before.
pub fn numbered_has_level()
    ensures { NumberedHasLevel }
{}

/// In a sound module each operand is a value that its function defines.
pub fn sound_uses_own()
    ensures { SoundUsesOwn }
{}
