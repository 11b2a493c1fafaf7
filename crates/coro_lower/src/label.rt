//! The blocks of a coroutine, and what ends a block.
ghost use Rattle.std.specs.Prelude.{◌≡◌};
ghost use Rattle.coro_lower.specs.Layout as spec;

use low_forms::{LowKind, OpKind};

/// What is made of the end of a block.
#[derive(Clone, Copy)]
pub enum End {
    /// It stays.
    Stays,
    /// An await in which the whole task waits.
    Waits,
    /// An await at which a coroutine is suspended.
    Suspends,
    /// A coroutine's return, which gives its values.
    Gives,
    /// A coroutine's failure.
    Fails,
}

/// A block of the code that is made.
#[derive(Clone, Copy)]
pub enum Label {
    /// The entry of a coroutine.
    Entry,
    /// The test of what this block awaited, where a coroutine goes on.
    Next(u32),
    /// What this block becomes.
    Body(u32),
    /// Sets a coroutine's objects in error.
    SetsError,
    /// The end of a coroutine.
    Cleanup,
    /// Gives a coroutine's objects to its caller.
    Suspended,
}

pub(crate) fn plain_end(kind: LowKind) -> End
    ensures { result ≡ spec.plain_end kind }
{
    match kind {
        LowKind::Await => End::Waits,
        _ => End::Stays,
    }
}

pub(crate) fn task_end(kind: LowKind) -> End
    ensures { result ≡ spec.task_end kind }
{
    match kind {
        LowKind::Await => End::Suspends,
        LowKind::Row(OpKind::FuncReturn) => End::Gives,
        LowKind::Row(OpKind::AioFail) => End::Fails,
        _ => End::Stays,
    }
}

impl End {
    /// Whether a block that ends so stands among the failure blocks, or among the others.
    pub(crate) fn stands_among(self, failing: bool) -> bool
        ensures { result ≡ spec.stands_among failing self }
    {
        match self {
            End::Fails => failing,
            _ => !failing,
        }
    }
}

impl Label {
    /// A number for each label.
    pub(crate) fn key(self) -> u64
        ensures { result ≡ spec.key self }
    {
        match self {
            Label::Entry => 0,
            Label::SetsError => 1,
            Label::Cleanup => 2,
            Label::Suspended => 3,
            Label::Body(block) => 2 * block as u64 + 4,
            Label::Next(block) => 2 * block as u64 + 5,
        }
    }
}
