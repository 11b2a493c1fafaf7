//! What a shared step makes of its task.
use crate::ends::RootEnd;
use crate::limits::Limit;
use ir_forms::ObjNo;
use task_stack::Stack;

/// What a shared step makes of its task, whose stack it has changed. At the first two nothing has changed.
#[derive(Drop)]
pub(crate) enum Row {
    /// What the instruction needs doesn't hold.
    Stuck,
    /// The step would pass a limit.
    Stop(Limit),
    /// The task goes on, or is parked on an object.
    Goes(Option<ObjNo>),
    /// The task goes on, and a new one has this stack.
    Launches(Stack),
    /// The task is over; the root has ended so.
    Ends(Option<RootEnd>),
}
