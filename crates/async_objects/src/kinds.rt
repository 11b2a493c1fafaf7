//! What objects are, how they stand, and what registers and payloads hold.
ghost use Rattle.std.specs.Prelude.{◌≡◌};
ghost use Rattle.async_objects.specs.Counts.{first_count};
ghost use Rattle.async_objects.specs.Objects.{is_error};

use ir_forms::ObjNo;

/// What an object is. A group takes so many elements.
#[derive(Clone, Copy, PartialEq, Eq)]
pub enum Kind {
    Token,
    Value,
    Group { size: u64 },
}

impl Kind {
    /// With how many references an object is made: one, and for a token or a value one of its own.
    pub(crate) fn first_count(self) -> u64
        ensures { result ≡ first_count self }
    {
        match self {
            Kind::Group { .. } => 1,
            _ => 2,
        }
    }
}

#[derive(Clone, Copy, PartialEq, Eq)]
pub enum State {
    Unset,
    Available,
    Error,
}

impl State {
    pub(crate) fn is_error(self) -> bool
        ensures { result ≡ is_error self }
    {
        matches!(self, State::Error)
    }
}

/// What a register holds: a number, a buffer with its dimensions, or an object. A payload is one of
/// the first two.
#[derive(Clone, Copy, PartialEq, Eq)]
pub enum Val {
    Number(u64),
    Buffer {
        number: u32,
        rank: u8,
        dims: [u32; 4],
    },
    Object(ObjNo),
}

/// Whether an awaiting task may go on, or is the last awaiter now.
#[derive(Clone, Copy, PartialEq, Eq)]
pub enum Awaited {
    Ready,
    Parked,
}

/// Whether the references that were dropped were an object's last.
#[derive(Clone, Copy, PartialEq, Eq)]
pub enum Dropped {
    Last,
    Left,
}

/// Why no object was made.
#[derive(Clone, Copy, PartialEq, Eq)]
pub enum CreateError {
    /// As many objects are there as may be.
    ObjectsFull { live: u32 },
    OutOfMemory,
}

/// Why no element was added to a group.
#[derive(Clone, Copy, PartialEq, Eq)]
pub enum AddError {
    /// The group has as many elements as its size.
    GroupFull { size: u64 },
    OutOfMemory,
}
