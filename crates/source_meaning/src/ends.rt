//! How a sequential run ends.
use ir_forms::{Buffer, MadeName, Out, Trace};
use lists::Items;

/// The root's end, or what stops the whole run.
#[derive(Drop)]
pub enum SourceEnd {
    /// The root's results, and the cells of the arguments that are buffers as they are then.
    Done {
        results: Items<Out>,
        buffers: Items<Buffer>,
    },
    /// The root failed at the operation of this number.
    Failed {
        op: u32,
    },
    /// A group was awaited that has fewer elements than its size.
    Short {
        group: MadeName,
        added: u64,
        size: u64,
    },
    /// An element more than its size was added to a group.
    Overfull {
        group: MadeName,
        size: u64,
    },
    /// An allocation would pass the limit on cells; so many were in use.
    Cells {
        used: u32,
    },
    /// All fuel was taken, and another operation would begin.
    Spent {
        fuel: u32,
    },
}

/// A sequential run: its end, and the actions up to it.
#[derive(Drop)]
pub struct SourceRun {
    pub end: SourceEnd,
    pub trace: Trace,
}
