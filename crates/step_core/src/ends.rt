//! How a run ends, what it has made so far, and what its steps answer.
use crate::limits::Limit;
use ir_forms::{Buffer, Out};
use lists::Items;

/// The end of a run's root: what it returned, with the cells of the arguments that are buffers, or the number of the
/// operation that failed.
#[derive(PartialEq, Drop)]
pub enum End {
    Done {
        results: Items<Out>,
        buffers: Items<Buffer>,
    },
    Failed {
        op: u32,
    },
}

/// What the root's last frame gave: results, or the number of the operation that failed.
#[derive(PartialEq, Drop)]
pub enum RootEnd {
    Returned { results: Items<Out> },
    FailedAt { op: u32 },
}

/// How many tasks were launched, objects made and steps taken so far. The root isn't counted.
#[derive(Clone, Copy, PartialEq, Eq)]
pub struct Counts {
    pub tasks: u32,
    pub objects: u32,
    pub steps: u64,
}

/// One entry of a journal: so many local steps of a task, and then its shared step.
#[derive(Clone, Copy, PartialEq, Eq)]
pub struct Entry {
    pub task: u32,
    pub local: u32,
}

/// The answer of a step. At `NotReady` the task isn't there or is parked, or what its next instruction needs doesn't hold.
#[derive(Clone, Copy, PartialEq, Eq)]
pub enum Step {
    Stepped,
    NotReady,
    Stop(Limit),
}
