//! The laws of whole texts.
ghost use Rattle.outlined_types.specs.Called.{CalledAreFound};
ghost use Rattle.outlined_types.specs.Ordered.{TextCountsOn, ValuesAreHeld};
ghost use Rattle.outlined_types.specs.Scoped.{OutlinedInScope};

/// What printable operations define, nested regions included, is numbered on.
pub fn text_counts_on()
    ensures { TextCountsOn }
{}

/// Each value of a printable function has its own type among all, and a number below the first free one.
pub fn values_are_held()
    ensures { ValuesAreHeld }
{}

/// Operations that break no rule, with their tasks outlined, use what is visible where they stand or what they define.
pub fn outlined_in_scope()
    ensures { OutlinedInScope }
{}

/// Where an operation of a sound module names a function, it names one with the same types, and no task, once the tasks
/// are functions.
pub fn called_are_found()
    ensures { CalledAreFound }
{}
