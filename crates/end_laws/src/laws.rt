//! The laws.
ghost use Rattle.end_laws.specs.ModuleProgram.{FunctionsAreProgramsOfOneEnd};
ghost use Rattle.end_laws.specs.Unread.{UnreadIsUnseen, UnreadIsFree};

/// Each function of a module with its arguments is a program; so where one of its finished runs is ordered, each of its
/// runs agrees with that one.
pub fn modules_have_one_end()
    ensures { FunctionsAreProgramsOfOneEnd }
{}

/// Tasks that differ in values alone that nothing reads do the same next.
pub fn unread_is_unseen()
    ensures { UnreadIsUnseen }
{}

/// They stay so where one gets another value under a name that nothing reads, as the rank of an add that isn't used.
pub fn unread_is_free()
    ensures { UnreadIsFree }
{}
