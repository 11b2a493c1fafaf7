//! The laws.
ghost use Rattle.code_machines.specs.Named.{NamedCarries};
ghost use Rattle.code_machines.specs.Naming.{NamesDiffer, NamesStay};
ghost use Rattle.code_machines.specs.Worked.{WorkedShows};

/// Where lowered code carries code with the high rows by numbers, it carries it under names.
pub fn named_carries()
    ensures { NamedCarries }
{}

/// Worked runs of both show the same, under the names of the source.
pub fn worked_shows()
    ensures { WorkedShows }
{}

/// Names that tasks, groups and buffers have, they keep.
pub fn names_stay()
    ensures { NamesStay }
{}

/// Where tasks take what is shown, no two tasks have one path, and no two groups or buffers one name.
pub fn names_differ()
    ensures { NamesDiffer }
{}
