//! What a step of a task comes to.
use crate::names::Names;
use crate::task::Task;
use ir_forms::{ElementName, MadeName};
use lists::Items;
use source_meaning::Val;

/// What a task asks of the shared state.
#[derive(Drop)]
pub enum Asked<'a> {
    /// A cell by its number, row by row. One that 64 bits don't hold, which no buffer has, is the
    /// largest that they do.
    Reads {
        buffer: MadeName,
        cell: u64,
    },
    Writes {
        buffer: MadeName,
        cell: u64,
        number: u64,
    },
    /// A buffer of these sizes, and so many cells.
    Allocs {
        dims: Items<u32>,
        cells: u32,
    },
    Creates {
        size: u32,
    },
    /// An element joins a group; whether the rank that it gets has a use.
    Adds {
        group: MadeName,
        element: ElementName,
        used: bool,
    },
    /// A task, with so many values.
    Launches {
        task: Task<'a>,
        results: usize,
    },
    /// A parallel loop with so many iterations; whether it is split.
    Enters {
        total: u32,
        split: bool,
    },
    /// The end of the loop that was entered, which has so many iterations.
    JoinsAll {
        total: u32,
    },
    AwaitsOne(ElementName),
    AwaitsAll(MadeName),
}

/// A step: the task goes on by itself; or it asks, and the operation of this number fails where the
/// answer is an error; or it ends with these values, or by a failure of the operation of this number.
#[derive(Drop)]
pub enum Step<'a> {
    Went,
    Asks {
        at: u32,
        asked: Asked<'a>,
        names: Names<'a>,
    },
    Gave(Items<Val>),
    Failed {
        at: u32,
    },
}
