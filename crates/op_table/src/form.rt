//! The forms of operations.

/// A form of operations: those of one form are read, printed and verified alike.
#[derive(Clone, Copy, PartialEq, Eq)]
pub enum Form {
    Binary,
    Compare,
    Select,
    Extend,
    Truncate,
    IndexCast,
    Constant,
    Assert,
    Call,
    TryCall,
    Return,
    For,
    If,
    While,
    Condition,
    Parallel,
    Reduce,
    Yield,
    Alloc,
    Dealloc,
    Load,
    Store,
    Dim,
    Execute,
    TaskYield,
    Await,
    AwaitAll,
    CreateGroup,
    AddToGroup,
    /// Any operation that has no place in a function's body before lowering.
    Other,
}
