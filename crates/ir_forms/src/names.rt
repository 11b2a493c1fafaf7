//! Names of tasks and of what they make, and the actions that a run shows.
use lists::Items;

/// A task, by the numbers of the actions that lead to it from the root, whose path is empty. The task
/// that the k-th action of a task launches adds k to its path; an iteration of the parallel loop that
/// it enters adds k and the iteration's number. Actions count from 1, iterations from 0.
pub type Path = Items<u32>;

/// A buffer or a group: the argument of a parameter, or what a task made by its action of this number.
#[derive(Drop)]
pub enum MadeName {
    Argument { parameter: u32 },
    Made { task: Path, action: u32 },
}

/// The token of a launched task, or one of its values.
#[derive(Drop)]
pub enum ElementName {
    Token { task: Path },
    Value { task: Path, result: u32 },
}

/// What a task does that others can see.
#[derive(Drop)]
pub enum Action {
    /// The cell of this number, row by row, is read.
    Read(MadeName, u32),
    Write(MadeName, u32),
    /// A buffer of so many cells is made.
    Alloc(u32),
    /// A group of this size is made.
    Create(u32),
    /// An element joins a group; whether the rank that it gets has a use.
    Add(MadeName, ElementName, bool),
    /// A task with so many values is launched.
    Launch(u32),
    /// A parallel loop with so many iterations is entered; whether it is split.
    Enter(u32, bool),
    /// All iterations of the loop that was entered last have ended.
    JoinAll,
    Await(ElementName),
    AwaitAll(MadeName),
    /// The task's last action: whether it ended without failure.
    End(bool),
}

/// An action with the task that took it.
#[derive(Drop)]
pub struct TraceEntry {
    pub task: Path,
    pub action: Action,
}

/// The actions of a run, in order.
#[derive(Drop)]
pub struct Trace {
    pub entries: Items<TraceEntry>,
}
