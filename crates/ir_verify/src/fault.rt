//! The kinds of faults, and which of two faults comes first.
ghost use Rattle.std.specs.Prelude.{◌≡◌, ℕ};
ghost use Rattle.ir_verify.specs.Faults.{rank, name_of_kind, is_before, noted};

/// What is wrong with an operation. Of several faults of one operation the first in this order is
/// answered.
#[derive(Clone, Copy, PartialEq, Eq, Debug)]
pub enum VerifyKind {
    /// An operand isn't visible, or an earlier function has this function's name.
    Undefined,
    /// An operand, a result, a yielded value or a literal doesn't have the type or the range that
    /// the operation asks.
    TypeMismatch,
    /// A region doesn't end in its terminator, or a terminator stands elsewhere.
    Terminator,
    /// A call names no function.
    UnknownFunc,
    /// A list has another length than the operation asks.
    Arity,
    /// A memref type has elements of an async type.
    AsyncInMemref,
    /// An await would block a worker.
    BlockingAwait,
}

/// An operation, by its number, and one rule that it breaks.
#[derive(Clone, Copy, PartialEq, Eq)]
pub struct Broken {
    pub op: u32,
    pub kind: VerifyKind,
}

impl VerifyKind {
    /// The kind's name, as messages have it. It takes no memory.
    pub fn name(self) -> &'static str
        ensures { result.now ≡ name_of_kind self }
    {
        match self {
            VerifyKind::Undefined => "Undefined",
            VerifyKind::TypeMismatch => "TypeMismatch",
            VerifyKind::Terminator => "Terminator",
            VerifyKind::UnknownFunc => "UnknownFunc",
            VerifyKind::Arity => "Arity",
            VerifyKind::AsyncInMemref => "AsyncInMemref",
            VerifyKind::BlockingAwait => "BlockingAwait",
        }
    }

    fn rank(self) -> u32
        ensures { result ≡ rank self }
    {
        match self {
            VerifyKind::Undefined => 0,
            VerifyKind::TypeMismatch => 1,
            VerifyKind::Terminator => 2,
            VerifyKind::UnknownFunc => 3,
            VerifyKind::Arity => 4,
            VerifyKind::AsyncInMemref => 5,
            VerifyKind::BlockingAwait => 6,
        }
    }
}

impl Broken {
    fn is_before(self, other: Broken) -> bool
        ensures { result ≡ is_before self other }
    {
        self.op < other.op || self.op == other.op && self.kind.rank() < other.kind.rank()
    }
}

/// The earliest fault so far, with this one counted where the rule is broken.
pub(crate) fn noted(best: Option<Broken>, is_broken: bool, fault: Broken) -> Option<Broken>
    ensures { result ≡ noted best is_broken fault }
{
    match best {
        Some(other) if is_broken => {
            if fault.is_before(other) {
                Some(fault)
            } else {
                best
            }
        }
        None if is_broken => Some(fault),
        _ => best,
    }
}
