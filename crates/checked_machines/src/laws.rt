//! The laws.
ghost use Rattle.checked_machines.specs.Laws.{CheckedCarries, PassCarries, StrictlyCarries};

/// A well formed module and what the pass makes of it carry each other.
pub fn pass_carries()
    ensures { PassCarries }
{}

/// What the pass makes is stuck before no operation.
pub fn strictly_carries()
    ensures { StrictlyCarries }
{}

/// So what the pass makes, stuck before an operation without a result, carries the module.
pub fn checked_carries()
    ensures { CheckedCarries }
{}
