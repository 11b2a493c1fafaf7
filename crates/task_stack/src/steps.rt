//! What a local step answers.
use ir_forms::ObjNo;

/// A step that counts references alone: so many more or fewer of an object.
#[derive(Clone, Copy, PartialEq, Eq)]
pub struct CountStep {
    pub object: ObjNo,
    pub adds: bool,
    pub n: u64,
}

/// What kind of step an instruction is.
#[derive(Clone, Copy, PartialEq, Eq)]
pub enum Ahead {
    /// It counts references.
    Counts(CountStep),
    /// It is no step of the task alone.
    Shared,
    /// It is any other step of the task alone, or none at all.
    Alone,
}

/// The answer of a local step.
#[derive(Clone, Copy, PartialEq, Eq)]
pub enum LocalStep {
    /// The step is taken. A step that counts references says of what.
    Done(Option<CountStep>),
    /// The next instruction is no step of the task alone.
    Shared,
    /// What the next instruction needs doesn't hold.
    Stuck,
    /// The next instruction is a call, and there are as many frames as may be.
    Deep,
}
