//! The laws.
ghost use Rattle.typed_laws.specs.Ranges.{ValuesAreInRange};
ghost use Rattle.typed_laws.specs.Typed.{BuffersFit, ElementsFit};

/// Where the arguments' numbers have 64 bits, each number that a task holds has, and each size of a buffer.
pub fn values_are_in_range()
    ensures { ValuesAreInRange }
{}

/// Each buffer that a task accesses has as many dimensions as the operation's written type.
pub fn buffers_fit()
    ensures { BuffersFit }
{}

/// What a task awaits, adds to a group or launches a task with are tokens and values of tasks.
pub fn elements_fit()
    ensures { ElementsFit }
{}
