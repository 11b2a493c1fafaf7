//! How a run ends.
use step_core::Limit;

/// How a run ends that is taken entry by entry.
#[derive(Clone, Copy, PartialEq, Eq)]
pub enum Outcome {
    /// The root has ended, and no task is left.
    Finished,
    /// It isn't finished, and each task that is left is parked, or one is stuck. So many are left.
    Short { parked: u32 },
    /// A task's next step would pass this limit.
    Stopped(Limit),
    /// The journal has as many entries as it may, and the run isn't finished.
    Spent,
}
