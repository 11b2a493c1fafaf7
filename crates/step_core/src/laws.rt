//! Laws of the core, over its definitions alone.
ghost use Rattle.step_core.specs.Worked.{WorkedRuns};

/// The definitions compute what worked runs come to.
pub fn worked_runs()
    ensures { WorkedRuns }
{}
