//! What a run may have at most.

/// What a run may have at most: live objects, live tasks, cells in all, and frames of one task.
#[derive(Clone, Copy, PartialEq, Eq)]
pub struct Limits {
    pub objects: u32,
    pub tasks: u32,
    pub cells: u32,
    pub frames: u32,
}

/// The limit that a step would pass: how many objects or tasks are live, cells are in use, or frames there are; or the
/// size of the group that is full.
#[derive(Clone, Copy, PartialEq, Eq)]
pub enum Limit {
    Objects { live: u32 },
    Tasks { live: u32 },
    Cells { used: u32 },
    Stack { depth: u32 },
    Group { size: u64 },
}
