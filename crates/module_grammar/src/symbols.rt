//! What the rules of the grammar are made of.
use ir_forms::OpKind;

/// A word that texts write beside the names of operations.
#[derive(Clone, Copy)]
pub enum Keyword {
    As,
    Attributes,
    Do,
    Else,
    False,
    Func,
    IterArgs,
    Loc,
    Module,
    Private,
    Public,
    Step,
    To,
    True,
}

/// A class of tokens.
#[derive(Clone, Copy)]
pub enum Class {
    /// One of the single bytes.
    Byte(u8),
    Arrow,
    Key(Keyword),
    /// The name of an operation.
    OpName(OpKind),
    /// A name with `@`, bare or quoted.
    SymbolName,
    /// A string.
    Message,
    /// A use of a value's name, visible or not.
    Use,
    /// A new name for a region's or a function's parameter.
    Param,
    /// A new name for a result.
    Result,
    /// `#` and digits, directly after a value's name.
    Index,
    /// A number below 2^64.
    Number,
    /// A number up to 2^63, behind a minus.
    Negated,
    Predicate,
    /// A type that is one token.
    PlainType,
    /// `!async.value`, which brackets follow.
    ValueType,
    /// What an `!async.value` holds.
    Payload,
    MemrefType,
    GroupType,
    TruthType,
    BlockName,
    /// `=` where the names held so far can be results.
    HeldEquals,
    /// A number where the one name held can be a result.
    HeldNumber,
    /// A comma that ends an entry of a dictionary.
    EntryComma,
    /// The brace that ends a dictionary.
    EntryClose,
    /// Any other token of an entry but brackets.
    EntryWord,
    /// Any token within brackets but brackets.
    AnyWord,
    End,
}

/// A rule of the grammar.
#[derive(Clone, Copy)]
pub enum Rule {
    Text,
    ModuleName,
    ModuleAttributes,
    Funcs,
    Visibility,
    Params,
    MoreParams,
    DroppedDict,
    FuncResults,
    FuncAttributes,
    Type,
    Types,
    MoreTypes,
    ResultTypes,
    OpDict,
    Dict,
    Inside,
    Location,
    Body,
    Results,
    MoreResults,
    Form,
    Literal,
    Index,
    Uses,
    MoreUses,
    Held,
    AfterHeld,
    AfterHeldColon,
    IterArgs,
    Inits,
    MoreInits,
    Branches,
    BranchTypes,
    BranchTypeList,
    Else,
    BlockParams,
    MoreBlockParams,
    MoreIndexParams,
    Dependencies,
    ValueOperands,
    MoreValueOperands,
    OpResults,
}

/// What is done where no token is read. `specs/State.antt` says what each makes of the state.
#[derive(Clone, Copy)]
pub enum Act {
    BeginFunc,
    FuncName,
    FuncResults,
    FuncAt,
    OpenBody,
    EndFunc,
    BeginOp,
    /// The operation is of this kind.
    Kind(OpKind),
    EndOp,
    OpAt,
    OpenRegion,
    CloseRegion,
    Result,
    ResultCount,
    CountNames,
    Operand,
    OperandIndex,
    Group,
    Hold,
    HeldOperands,
    HeldResults,
    Param,
    IndexParam,
    ParamType,
    BlockParam,
    BlockParamType,
    PayloadParam,
    ResultParams,
    WrittenParams,
    PlainType,
    ValueType,
    Written,
    Twice,
    SameTypes,
    Results,
    TruthResult,
    IndexResult,
    TokenResult,
    ElementResult,
    PayloadResult,
    Literal,
    Negative,
    Truth,
    Predicate,
    Message,
    Callee,
    BeginDict,
    Entry,
    OtherEntry,
    EndEntry,
}

/// What a line of a rule is made of.
#[derive(Clone, Copy)]
pub enum Symbol {
    Word(Class),
    Rule(Rule),
    Do(Act),
}
