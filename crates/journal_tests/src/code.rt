//! Code that is replayed and run.
use crate::make::{Code, Line};
use ir_forms::{FuncNo, OpKind, Pred};
use low_forms::LowAttr;

const NONE: LowAttr = LowAttr::None;

const ONCE: LowAttr = LowAttr::Count(1);

const TWICE: LowAttr = LowAttr::Count(2);

const TASK: LowAttr = LowAttr::Callee(FuncNo(1));

const ITSELF: LowAttr = LowAttr::Callee(FuncNo(0));

const LESS: LowAttr = LowAttr::Pred(Pred::Ult);

const ZERO: LowAttr = LowAttr::Literal {
    negative: false,
    magnitude: 0,
};

const ONE: LowAttr = LowAttr::Literal {
    negative: false,
    magnitude: 1,
};

const FIVE: LowAttr = LowAttr::Literal {
    negative: false,
    magnitude: 5,
};

const SEVEN: LowAttr = LowAttr::Literal {
    negative: false,
    magnitude: 7,
};

const MANY: LowAttr = LowAttr::Literal {
    negative: false,
    magnitude: 1_000,
};

const TURNS: LowAttr = LowAttr::Literal {
    negative: false,
    magnitude: 1_022,
};

/// A coroutine that gives seven.
const GIVES_SEVEN: &[Line] = &[
    (OpKind::AsyncRuntimeCreate, &[], &[0], NONE, None),
    (OpKind::AsyncRuntimeCreate, &[], &[1], NONE, None),
    (OpKind::AsyncCoroId, &[], &[2], NONE, None),
    (OpKind::AsyncCoroBegin, &[2], &[3], NONE, None),
    (OpKind::AsyncCoroSave, &[3], &[4], NONE, None),
    (OpKind::AsyncRuntimeResume, &[3], &[], NONE, None),
    (
        OpKind::AsyncCoroSuspend,
        &[4],
        &[],
        NONE,
        Some((&[3, 1, 2], &[])),
    ),
    (OpKind::ArithConstant, &[], &[5], SEVEN, None),
    (OpKind::AsyncRuntimeStore, &[5, 1], &[], NONE, None),
    (OpKind::AsyncRuntimeSetAvailable, &[1], &[], NONE, None),
    (OpKind::AsyncRuntimeSetAvailable, &[0], &[], NONE, None),
    (OpKind::CfBr, &[], &[], NONE, Some((&[2], &[]))),
    (OpKind::AsyncCoroFree, &[2, 3], &[], NONE, None),
    (OpKind::AsyncCoroEnd, &[3], &[], NONE, None),
    (OpKind::AioFinish, &[], &[], NONE, Some((&[], &[]))),
    (OpKind::AsyncCoroEnd, &[3], &[], NONE, None),
    (OpKind::FuncReturn, &[0, 1], &[], NONE, Some((&[], &[]))),
];

/// A launch of the coroutine, whose value is awaited and returned.
pub(crate) const AWAITS_SEVEN: Code = Code {
    results: b"n",
    letters: b"tvbnn",
    lines: &[
        (OpKind::FuncCall, &[], &[0, 1], TASK, None),
        (OpKind::AsyncRuntimeDropRef, &[0], &[], ONCE, None),
        (OpKind::AsyncRuntimeAwait, &[1], &[], NONE, None),
        (OpKind::AsyncRuntimeIsError, &[1], &[2], NONE, None),
        (OpKind::CfCondBr, &[2], &[], NONE, Some((&[2, 1], &[]))),
        (OpKind::AsyncRuntimeLoad, &[1], &[3], NONE, None),
        (OpKind::AsyncRuntimeDropRef, &[1], &[], ONCE, None),
        (OpKind::FuncReturn, &[3], &[], NONE, Some((&[], &[]))),
        (OpKind::AsyncRuntimeDropRef, &[1], &[], ONCE, None),
        (OpKind::ArithConstant, &[], &[4], FIVE, None),
        (OpKind::AioFail, &[4], &[], NONE, Some((&[], &[]))),
    ],
    task: GIVES_SEVEN,
};

/// A thousand launches, of which none is awaited.
pub(crate) const LAUNCHES: Code = Code {
    results: b"n",
    letters: b"tvbnnnnn",
    lines: &[
        (OpKind::ArithConstant, &[], &[3], ZERO, None),
        (OpKind::ArithConstant, &[], &[4], MANY, None),
        (OpKind::ArithConstant, &[], &[5], ONE, None),
        (OpKind::CfBr, &[], &[], NONE, Some((&[1], &[3]))),
        (OpKind::ArithCmpi, &[6, 4], &[2], LESS, None),
        (OpKind::CfCondBr, &[2], &[6], NONE, Some((&[2, 3], &[]))),
        (OpKind::FuncCall, &[], &[0, 1], TASK, None),
        (OpKind::AsyncRuntimeDropRef, &[0], &[], ONCE, None),
        (OpKind::AsyncRuntimeDropRef, &[1], &[], ONCE, None),
        (OpKind::ArithAddi, &[6, 5], &[7], NONE, None),
        (OpKind::CfBr, &[], &[], NONE, Some((&[1], &[7]))),
        (OpKind::FuncReturn, &[3], &[], NONE, Some((&[], &[]))),
    ],
    task: GIVES_SEVEN,
};

/// A token that nobody sets is awaited.
pub(crate) const AWAITS_NOBODY: Code = Code {
    results: b"",
    letters: b"tn",
    lines: &[
        (OpKind::AsyncRuntimeCreate, &[], &[0], NONE, None),
        (OpKind::AsyncRuntimeAwait, &[0], &[], NONE, None),
        (OpKind::ArithConstant, &[], &[1], ONE, None),
        (OpKind::FuncReturn, &[], &[], NONE, Some((&[], &[]))),
    ],
    task: &[],
};

/// A number is loaded from, which no compiled code does.
pub(crate) const LOADS_A_NUMBER: Code = Code {
    results: b"",
    letters: b"nn",
    lines: &[
        (OpKind::ArithConstant, &[], &[0], ONE, None),
        (OpKind::AsyncRuntimeLoad, &[0], &[1], NONE, None),
        (OpKind::FuncReturn, &[], &[], NONE, Some((&[], &[]))),
    ],
    task: &[],
};

/// A reference too many is dropped, which no compiled code does.
pub(crate) const DROPS_TOO_MANY: Code = Code {
    results: b"",
    letters: b"tn",
    lines: &[
        (OpKind::AsyncRuntimeCreate, &[], &[0], NONE, None),
        (OpKind::ArithConstant, &[], &[1], ONE, None),
        (OpKind::AsyncRuntimeDropRef, &[0], &[], TWICE, None),
        (OpKind::ArithConstant, &[], &[1], ONE, None),
        (OpKind::FuncReturn, &[], &[], NONE, Some((&[], &[]))),
    ],
    task: &[],
};

/// It branches without end.
pub(crate) const NEVER_ENDS: Code = Code {
    results: b"",
    letters: b"",
    lines: &[(OpKind::CfBr, &[], &[], NONE, Some((&[0], &[])))],
    task: &[],
};

/// Makes a token after 4,095 local steps, and then one after each 4,096.
pub(crate) const MAKES_TOKENS: Code = Code {
    results: b"",
    letters: b"tvbnnnnn",
    lines: &[
        (OpKind::ArithConstant, &[], &[3], ZERO, None),
        (OpKind::ArithConstant, &[], &[4], TURNS, None),
        (OpKind::ArithConstant, &[], &[5], ONE, None),
        (OpKind::CfBr, &[], &[], NONE, Some((&[1], &[3]))),
        (OpKind::ArithCmpi, &[6, 4], &[2], LESS, None),
        (OpKind::CfCondBr, &[2], &[6], NONE, Some((&[2, 3], &[]))),
        (OpKind::ArithAddi, &[6, 5], &[7], NONE, None),
        (OpKind::CfBr, &[], &[], NONE, Some((&[1], &[7]))),
        (OpKind::ArithConstant, &[], &[5], ONE, None),
        (OpKind::AsyncRuntimeCreate, &[], &[0], NONE, None),
        (OpKind::ArithConstant, &[], &[5], ONE, None),
        (OpKind::ArithConstant, &[], &[5], ONE, None),
        (OpKind::ArithConstant, &[], &[5], ONE, None),
        (OpKind::ArithConstant, &[], &[5], ONE, None),
        (OpKind::CfBr, &[], &[], NONE, Some((&[1], &[3]))),
    ],
    task: &[],
};

/// A token is added twice to a group of one element.
pub(crate) const OVERFILLS: Code = Code {
    results: b"",
    letters: b"tgnn",
    lines: &[
        (OpKind::ArithConstant, &[], &[2], ONE, None),
        (OpKind::AsyncRuntimeCreateGroup, &[2], &[1], NONE, None),
        (OpKind::AsyncRuntimeCreate, &[], &[0], NONE, None),
        (OpKind::AsyncRuntimeAddToGroup, &[0, 1], &[3], NONE, None),
        (OpKind::AsyncRuntimeAddToGroup, &[0, 1], &[3], NONE, None),
        (OpKind::FuncReturn, &[], &[], NONE, Some((&[], &[]))),
    ],
    task: &[],
};

/// Allocates seven cells.
pub(crate) const ALLOCATES_SEVEN: Code = Code {
    results: b"",
    letters: b"mn",
    lines: &[
        (OpKind::ArithConstant, &[], &[1], SEVEN, None),
        (OpKind::MemrefAlloc, &[1], &[0], NONE, None),
        (OpKind::FuncReturn, &[], &[], NONE, Some((&[], &[]))),
    ],
    task: &[],
};

/// It calls itself without end.
pub(crate) const CALLS_ITSELF: Code = Code {
    results: b"",
    letters: b"",
    lines: &[
        (OpKind::AioCall, &[], &[], ITSELF, Some((&[1, 1], &[]))),
        (OpKind::FuncReturn, &[], &[], NONE, Some((&[], &[]))),
    ],
    task: &[],
};
