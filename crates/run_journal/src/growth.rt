//! How much entries make.
ghost use Rattle.run_journal.specs.Growth.{EntriesStayWithin, StartsAreWithin};

/// An entry takes at most 4,097 steps and makes at most one task, one object and one buffer.
pub fn entries_stay_within()
    ensures { EntriesStayWithin }
{}

/// A run in which no step was taken has one task, no object, and at most as many buffers as arguments.
pub fn starts_are_within()
    ensures { StartsAreWithin }
{}
