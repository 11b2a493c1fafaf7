//! The law.
ghost use Rattle.suited_ops.specs.Laws.{SoundIsLaid, SoundIsSuited};

/// In a sound module of the form that is read, whose functions define no value twice, the operations of a function without
/// launches, adds to groups and parallel loops are suited to be laid out.
pub fn sound_is_suited()
    ensures { SoundIsSuited }
{}

/// So such a module is laid out in its code of blocks as `AreLaid` says.
pub fn sound_is_laid()
    ensures { SoundIsLaid }
{}
