//! The laws of operations before others.
ghost use Rattle.outlined_types.specs.Operations.{LaunchesTyped, OperationsTyped};

/// An operation that breaks no rule and is no launch is typed before others that are: where its operands are visible
/// and its regions are typed, and where it names a function with the types of the called one.
pub fn operations_typed()
    ensures { OperationsTyped }
{}

/// A launch is typed before others that are, where the task's function takes what is passed to it and gives what the
/// values hold, and what it captures is visible.
pub fn launches_typed()
    ensures { LaunchesTyped }
{}
