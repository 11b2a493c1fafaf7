//! A function that launches a task, awaits its value and returns it; the task's coroutine; and lines in place of theirs.
use crate::make::{Line, NO, end, inner};
use low_forms::{FuncNo, LowAttr, LowKind, OpKind};

fn count(reg: u32, count: u64) -> Line {
    Line {
        attr: LowAttr::Count(count),
        ..inner(OpKind::AsyncRuntimeDropRef, [reg, NO], [NO, NO])
    }
}

pub(crate) fn constant(reg: u32, magnitude: u64) -> Line {
    Line {
        attr: LowAttr::Literal {
            negative: false,
            magnitude,
        },
        ..inner(OpKind::ArithConstant, [NO, NO], [reg, NO])
    }
}

fn call(kind: LowKind, func: u32) -> Line {
    Line {
        kind,
        attr: LowAttr::Callee(FuncNo(func)),
        ..inner(OpKind::FuncCall, [NO, NO], [0, 1])
    }
}

fn one(kind: OpKind, operand: u32) -> Line {
    inner(kind, [operand, NO], [NO, NO])
}

fn makes(kind: OpKind, operand: u32, to: u32) -> Line {
    inner(kind, [operand, NO], [to, NO])
}

fn branch(block: u32) -> Line {
    end(OpKind::CfBr, [NO, NO], [block, NO, NO])
}

fn branch_if(reg: u32, first: u32, second: u32) -> Line {
    end(OpKind::CfCondBr, [reg, NO], [first, second, NO])
}

fn last(kind: OpKind, operand: u32) -> Line {
    end(kind, [operand, NO], [NO, NO, NO])
}

fn suspend(state: u32, first: u32, second: u32, third: u32) -> Line {
    end(
        OpKind::AsyncCoroSuspend,
        [state, NO],
        [first, second, third],
    )
}

fn taking(reg: u32, line: Line) -> Line {
    Line {
        results: [reg, NO],
        ..line
    }
}

fn plainly() -> LowKind {
    LowKind::Row(OpKind::FuncCall)
}

pub(crate) fn main_lines() -> [Line; 11] {
    [
        call(plainly(), 1),
        count(0, 1),
        one(OpKind::AsyncRuntimeAwait, 1),
        makes(OpKind::AsyncRuntimeIsError, 1, 2),
        branch_if(2, 2, 1),
        makes(OpKind::AsyncRuntimeLoad, 1, 3),
        count(1, 1),
        last(OpKind::FuncReturn, 3),
        count(1, 1),
        constant(4, 5),
        last(OpKind::AioFail, 4),
    ]
}

pub(crate) fn task_lines() -> [Line; 17] {
    [
        makes(OpKind::AsyncRuntimeCreate, NO, 0),
        makes(OpKind::AsyncRuntimeCreate, NO, 1),
        makes(OpKind::AsyncCoroId, NO, 2),
        makes(OpKind::AsyncCoroBegin, 2, 3),
        makes(OpKind::AsyncCoroSave, 3, 4),
        one(OpKind::AsyncRuntimeResume, 3),
        suspend(4, 3, 1, 2),
        constant(5, 7),
        inner(OpKind::AsyncRuntimeStore, [5, 1], [NO, NO]),
        one(OpKind::AsyncRuntimeSetAvailable, 1),
        one(OpKind::AsyncRuntimeSetAvailable, 0),
        branch(2),
        inner(OpKind::AsyncCoroFree, [2, 3], [NO, NO]),
        one(OpKind::AsyncCoroEnd, 3),
        last(OpKind::AioFinish, NO),
        one(OpKind::AsyncCoroEnd, 3),
        end(OpKind::FuncReturn, [0, 1], [NO, NO, NO]),
    ]
}

/// A line in place of another.
pub(crate) type Edit = (usize, Line);

/// The count may be 2^23.
pub(crate) fn fitting_main() -> [Edit; 1] {
    [(1, count(0, 0x80_0000))]
}

/// Each breaks one sentence: numbers in range, types, uses that are assigned, critical edges, counts, and edges to the
/// first block.
pub(crate) fn broken_main() -> [Edit; 19] {
    [
        (1, count(9, 1)),
        (0, call(plainly(), 3)),
        (4, branch_if(2, 2, 3)),
        (3, makes(OpKind::AsyncRuntimeIsError, 1, 3)),
        (0, call(plainly(), 0)),
        (1, one(OpKind::AsyncRuntimeDropRef, 0)),
        (9, constant(2, 2)),
        (6, inner(OpKind::CfBr, [NO, NO], [NO, NO])),
        (7, last(OpKind::FuncReturn, 1)),
        (10, last(OpKind::AioFail, 2)),
        (10, last(OpKind::AioFail, 3)),
        (9, inner(OpKind::ArithAddi, [4, 4], [4, NO])),
        (7, branch(2)),
        (4, branch_if(2, 1, 1)),
        (1, count(0, 0x80_0001)),
        (1, count(0, 0)),
        (7, branch(0)),
        (4, taking(4, branch_if(2, 2, 1))),
        (7, branch(NO)),
    ]
}

/// Each breaks a sentence on saves, on what follows them, and on where these stand.
pub(crate) fn broken_task() -> [Edit; 6] {
    [
        (6, branch(1)),
        (
            5,
            inner(OpKind::AsyncRuntimeAwaitAndResume, [1, 3], [NO, NO]),
        ),
        (5, one(OpKind::AsyncCoroEnd, 3)),
        (4, one(OpKind::AsyncCoroEnd, 3)),
        (13, one(OpKind::AsyncRuntimeResume, 3)),
        (11, suspend(4, 3, 2, 2)),
    ]
}

/// The coroutine awaits its own token, and then goes on in a block of its own.
pub(crate) fn awaiting() -> [Edit; 5] {
    [
        (6, suspend(4, 4, 1, 3)),
        (7, makes(OpKind::AsyncCoroSave, 3, 6)),
        (
            8,
            inner(OpKind::AsyncRuntimeAwaitAndResume, [0, 3], [NO, NO]),
        ),
        (9, suspend(6, 4, 2, 3)),
        (11, branch(3)),
    ]
}

pub(crate) fn broken_awaiting() -> [Edit; 2] {
    [
        (8, one(OpKind::AsyncRuntimeResume, 3)),
        (9, suspend(4, 4, 2, 3)),
    ]
}

/// A branch gives a number to the block's parameter.
pub(crate) fn giving() -> [Edit; 3] {
    [
        (6, suspend(4, 4, 1, 3)),
        (
            9,
            Line {
                args: [5],
                ..branch(2)
            },
        ),
        (11, taking(7, branch(3))),
    ]
}

pub(crate) fn broken_giving() -> [Edit; 2] {
    [(11, taking(8, branch(3))), (11, branch(3))]
}

/// What a task does before coroutines are made.
pub(crate) fn launched_lines() -> [Line; 2] {
    [constant(0, 7), last(OpKind::FuncReturn, 0)]
}

/// The rows that stand before coroutines are made: a launch, and an await that gives its value.
pub(crate) fn high() -> [Edit; 3] {
    [
        (0, call(LowKind::Launch, 2)),
        (
            4,
            Line {
                kind: LowKind::Await,
                ..branch_if(1, 1, 2)
            },
        ),
        (7, taking(3, last(OpKind::FuncReturn, 3))),
    ]
}

pub(crate) fn broken_high() -> [Edit; 5] {
    [
        (0, call(LowKind::Launch, 0)),
        (0, call(LowKind::Launch, 1)),
        (0, taking(1, call(LowKind::Launch, 2))),
        (7, last(OpKind::FuncReturn, 3)),
        (7, taking(2, last(OpKind::FuncReturn, 3))),
    ]
}
