//! How much a text may hold, and why a text is refused.

/// How many operations, functions and values' names a text may have, and how deep its regions may be.
#[derive(Clone, Copy, PartialEq, Eq, Debug)]
pub struct TextLimits {
    pub operations: u32,
    pub functions: u32,
    pub depth: u32,
    pub values: u32,
}

/// The limit that a text passes.
#[derive(Clone, Copy, PartialEq, Eq, Debug)]
pub enum Limited {
    Operations,
    Functions,
    Depth,
    Values,
}

/// The first fault of the tokens of a text. `at` is the byte at which it stands.
#[derive(Clone, Copy, PartialEq, Eq, Debug)]
pub enum GrammarFault {
    /// The token can't continue any text of the grammar, and none of the following holds.
    Syntax { at: u32 },
    /// An operation's name fits here, and the token is a name that no operation of the level has.
    UnknownOp { at: u32 },
    /// A type fits here, and the token begins none.
    UnknownType { at: u32 },
    /// The digits give a number outside -2^63 to 2^64 - 1.
    WideNumber { at: u32 },
    /// What begins here is one more than the limit, or takes the number of values past it.
    Limit { which: Limited, at: u32 },
}
