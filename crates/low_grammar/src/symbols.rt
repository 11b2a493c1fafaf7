//! What the rules of lowered texts are made of.
use ir_forms::OpKind;

/// A word that texts write beside the names of operations.
#[derive(Clone, Copy)]
pub enum Keyword {
    Attributes,
    Count,
    False,
    Func,
    I64,
    Module,
    Private,
    Public,
    To,
    True,
}

/// A class of tokens.
#[derive(Clone, Copy)]
pub enum Class {
    /// One of the single bytes.
    Byte(u8),
    Arrow,
    Key(Keyword),
    /// The name of an operation that has as many results as were read.
    OpName(OpKind),
    /// A name with `@`, bare or quoted.
    SymbolName,
    /// A use of a register's name.
    Use,
    /// A register's name that the function doesn't define yet.
    Define,
    /// A block's name that the function doesn't define yet, where no types are owed.
    Label,
    /// The name of a block that a terminator leads to.
    Jump,
    /// A number below 2^64.
    Number,
    /// A number up to 2^63, behind a minus.
    Negated,
    /// A number below 2^32.
    Count,
    Predicate,
    /// A type that is one token.
    PlainType,
    /// `!async.value`, which brackets follow.
    ValueType,
    /// The same, where the type of one result is owed.
    OnlyPlainType,
    OnlyValueType,
    /// What an `!async.value` holds.
    Payload,
    MemrefType,
    GroupType,
    /// A comma where another type is owed.
    OwedComma,
    /// A closing parenthesis where none is.
    OwedClose,
    /// The brace that ends a function, in which all registers and blocks that are used are defined.
    FuncClose,
    /// Any token of a dictionary's entry but a comma and brackets.
    EntryWord,
    /// Any token within brackets but brackets.
    AnyWord,
    End,
}

/// A rule of the grammar.
#[derive(Clone, Copy)]
pub enum Rule {
    Text,
    ModuleName,
    ModuleAttributes,
    Funcs,
    Visibility,
    Params,
    MoreParams,
    DroppedDict,
    FuncResults,
    FuncAttributes,
    Dict,
    Inside,
    BlockParams,
    MoreBlockParams,
    /// The instructions of a block, up to what follows its terminator.
    Instrs,
    MoreResults,
    Form,
    /// The next block, or the end of the function.
    NextBlock,
    Literal,
    Uses,
    MoreUses,
    Arguments,
    MoreArguments,
    Returned,
    Type,
    Types,
    MoreTypes,
    ResultTypes,
    /// Types of which there are as many as are owed.
    OwedType,
    MoreOwedTypes,
    CallResults,
    CallTypes,
}

/// What is done where no token is read. `specs/State.antt` says what each makes of the state.
#[derive(Clone, Copy)]
pub enum Act {
    BeginFunc,
    FuncName,
    FuncResults,
    FuncAttributes,
    EndFunc,
    BeginBlock,
    BlockParams,
    EndBlock,
    EndInstr,
    Define,
    ParamType,
    Result,
    Operand,
    Jump,
    Argument,
    /// As many types are owed as the last target has arguments, the instruction operands or results.
    OweArguments,
    OweOperands,
    OweResults,
    Paid,
    PlainType,
    ValueType,
    DropTypes,
    Results,
    TruthResult,
    IndexResult,
    ElementResult,
    PayloadResult,
    CoroIdResult,
    CoroHandleResult,
    CoroStateResult,
    Literal,
    Negative,
    Truth,
    Predicate,
    Count,
    Callee,
    BeginDict,
    Entry,
    OtherEntry,
    EndEntry,
}
