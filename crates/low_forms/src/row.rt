//! What the table says of one kind of instruction.

/// What the type of an operand or of a result may be.
#[derive(Clone, Copy)]
pub enum Slot {
    /// None stands there.
    Absent,
    Number,
    Truth,
    Index,
    /// `i64`, as the codes of failures.
    Code,
    Memref,
    /// A token or a value.
    Element,
    Value,
    Group,
    /// A token, a value or a group.
    Object,
    CoroId,
    CoroHandle,
    CoroState,
    /// The type of the operand at this place.
    Like(u8),
    /// What a cell of the memref at this place has.
    CellOf(u8),
    /// What the value at this place holds.
    HeldBy(u8),
    /// A wider whole number than the first operand.
    Wider,
    /// A narrower one.
    Narrower,
    /// `index` for a whole number, and the other way round.
    Recast,
    /// A type that the literal fits.
    OfLiteral,
}

/// The operands behind the fixed ones.
#[derive(Clone, Copy)]
pub enum Rest {
    Nothing,
    /// An index for each `?` of the result's type.
    Sizes,
    /// An index for each dimension of the operand at this place.
    Indices(u8),
    /// The called function's parameters.
    Params,
    /// The results of the function in which the instruction stands.
    Returned,
}

/// The results of an instruction.
#[derive(Clone, Copy)]
pub enum Results {
    /// One of the type of its slot, or none.
    Own,
    /// Those of the called function.
    Called,
    /// A token, and a value for each result of the launched function.
    Launched,
}

/// What an instruction carries.
#[derive(Clone, Copy)]
pub enum AttrSlot {
    Nothing,
    Literal,
    Pred,
    Count,
    /// The name of a coroutine, and of a function that is none.
    Coroutine,
    Plain,
}

/// The blocks that a terminator leads to.
#[derive(Clone, Copy)]
pub enum Targets {
    /// No terminator.
    Instruction,
    /// A terminator that leads to no block.
    Ends,
    One,
    /// Two blocks, with the same arguments.
    Either,
    /// Where the call goes on, with its results, and where it has failed, with the code.
    Call,
    /// Where the frame goes on that was copied, where its copy does, and the clean-up.
    Suspend,
    /// Where the await goes on, with the value, and where it has failed.
    Await,
}

/// How an instruction is stepped: by its task alone, under the lock, as a step that counts references alone, or, as the
/// ends of frames, by its task alone unless the frame is the root's last.
#[derive(Clone, Copy)]
pub enum StepKind {
    Local,
    Shared,
    Counts,
    Ends,
}

/// What an instruction does to the count of its first operand.
#[derive(Clone, Copy)]
pub enum Change {
    Nothing,
    Adds,
    Drops,
}

/// What the table says of one kind of instruction.
#[derive(Clone, Copy)]
pub struct LowRow {
    /// Whether code may hold the kind.
    pub stands: bool,
    pub first: Slot,
    pub second: Slot,
    pub third: Slot,
    pub rest: Rest,
    /// The type of the result.
    pub result: Slot,
    pub results: Results,
    pub attr: AttrSlot,
    pub targets: Targets,
    pub step: StepKind,
    /// How many operands it uses, from the first on: its frame owns a reference of each.
    pub uses: u8,
    /// Whether it takes a reference for each operand, or for each argument of its targets.
    pub takes: bool,
    /// Whether each of its results comes with a reference.
    pub gives: bool,
    pub change: Change,
}
