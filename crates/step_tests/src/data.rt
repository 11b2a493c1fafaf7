//! Small code, and what its steps answer.
use crate::make::{
    A, B, BIT, BUFFER, C, GROUP, HANDLE, ID, Line, NO, OTHER_GROUP, OTHER_TOKEN, STATE, TOKEN,
    VALUE, calls, counts, ends, less, makes, number, on, row,
};
use low_forms::OpKind;

/// Stores 77 in a cell of three, and loads it.
pub(crate) fn stores_and_loads() -> [Line; 8] {
    [
        number(3, A),
        row(OpKind::MemrefAlloc, [A, NO, NO], BUFFER),
        number(2, B),
        number(77, C),
        row(OpKind::MemrefStore, [C, BUFFER, B], NO),
        row(OpKind::MemrefLoad, [BUFFER, B, NO], A),
        on(OpKind::MemrefDealloc, BUFFER),
        ends(on(OpKind::FuncReturn, A), [NO, NO, NO]),
    ]
}

/// Allocates as many cells as may be, stores 1 in the last and loads it, and allocates so many more.
pub(crate) fn fills_memory() -> [Line; 8] {
    [
        number(16_777_216, A),
        row(OpKind::MemrefAlloc, [A, NO, NO], BUFFER),
        number(16_777_215, B),
        number(1, C),
        row(OpKind::MemrefStore, [C, BUFFER, B], NO),
        row(OpKind::MemrefLoad, [BUFFER, B, NO], A),
        row(OpKind::MemrefAlloc, [A, NO, NO], BUFFER),
        ends(on(OpKind::FuncReturn, A), [NO, NO, NO]),
    ]
}

/// An operation of two numbers, whose result is returned.
pub(crate) fn computes(kind: OpKind, left: u64, right: u64) -> [Line; 4] {
    [
        number(left, A),
        number(right, B),
        row(kind, [A, B, NO], C),
        ends(on(OpKind::FuncReturn, C), [NO, NO, NO]),
    ]
}

/// Compares two numbers, and returns the first where it is less, or else the size of a buffer of that many cells.
pub(crate) fn compares(left: u64, right: u64) -> [Line; 9] {
    [
        number(left, A),
        number(right, B),
        less(A, B, BIT),
        row(OpKind::MemrefAlloc, [B, NO, NO], BUFFER),
        number(0, C),
        row(OpKind::MemrefDim, [BUFFER, C, NO], B),
        row(OpKind::ArithSelect, [BIT, A, B], C),
        ends(on(OpKind::CfCondBr, BIT), [1, 1, NO]),
        ends(on(OpKind::FuncReturn, C), [NO, NO, NO]),
    ]
}

/// Cuts a number to a bit, and casts it back.
pub(crate) fn casts(from: u64, back: OpKind) -> [Line; 4] {
    [
        number(from, A),
        row(OpKind::ArithTrunci, [A, NO, NO], BIT),
        row(back, [BIT, NO, NO], C),
        ends(on(OpKind::FuncReturn, C), [NO, NO, NO]),
    ]
}

/// Allocates so many cells, and then so many more; then loads behind them.
pub(crate) fn allocates(cells: u64, more: u64) -> [Line; 6] {
    [
        number(cells, A),
        row(OpKind::MemrefAlloc, [A, NO, NO], BUFFER),
        number(more, B),
        row(OpKind::MemrefAlloc, [B, NO, NO], BUFFER),
        row(OpKind::MemrefLoad, [BUFFER, B, NO], A),
        ends(on(OpKind::FuncReturn, A), [NO, NO, NO]),
    ]
}

/// Makes nine tokens.
pub(crate) fn nine_tokens() -> [Line; 10] {
    let one = makes(OpKind::AsyncRuntimeCreate, TOKEN);
    [
        one,
        one,
        one,
        one,
        one,
        one,
        one,
        one,
        one,
        ends(on(OpKind::FuncReturn, A), [NO, NO, NO]),
    ]
}

pub(crate) fn adds(token: u32, group: u32) -> Line {
    row(OpKind::AsyncRuntimeAddToGroup, [token, group, NO], B)
}

/// Adds a token twice to a group of this size, and looks whether it is in error.
pub(crate) fn adds_twice(size: u64, set: OpKind) -> [Line; 9] {
    [
        number(size, A),
        row(OpKind::AsyncRuntimeCreateGroup, [A, NO, NO], GROUP),
        makes(OpKind::AsyncRuntimeCreate, TOKEN),
        adds(TOKEN, GROUP),
        adds(TOKEN, GROUP),
        on(set, TOKEN),
        on(OpKind::AsyncRuntimeAwait, GROUP),
        row(OpKind::AsyncRuntimeIsError, [GROUP, NO, NO], BIT),
        ends(on(OpKind::FuncReturn, BIT), [NO, NO, NO]),
    ]
}

/// Adds a token to two groups of one element, sets it, and adds a group to a group, or looks whether the second is in error.
pub(crate) fn adds_to_two(set: OpKind, last: Line) -> [Line; 11] {
    [
        number(1, A),
        row(OpKind::AsyncRuntimeCreateGroup, [A, NO, NO], GROUP),
        row(OpKind::AsyncRuntimeCreateGroup, [A, NO, NO], OTHER_GROUP),
        makes(OpKind::AsyncRuntimeCreate, TOKEN),
        adds(TOKEN, GROUP),
        adds(TOKEN, OTHER_GROUP),
        on(set, TOKEN),
        on(OpKind::AsyncRuntimeAwait, GROUP),
        on(OpKind::AsyncRuntimeAwait, OTHER_GROUP),
        last,
        ends(on(OpKind::FuncReturn, BIT), [NO, NO, NO]),
    ]
}

/// Adds a token twice to a group of this size, and returns its place.
pub(crate) fn fills(size: u64) -> [Line; 6] {
    [
        number(size, A),
        row(OpKind::AsyncRuntimeCreateGroup, [A, NO, NO], GROUP),
        makes(OpKind::AsyncRuntimeCreate, TOKEN),
        adds(TOKEN, GROUP),
        adds(TOKEN, GROUP),
        ends(on(OpKind::FuncReturn, B), [NO, NO, NO]),
    ]
}

/// A value is filled, read, set and dropped, and then used in this way.
pub(crate) fn value_used(last: Line) -> [Line; 9] {
    [
        makes(OpKind::AsyncRuntimeCreate, VALUE),
        number(7, A),
        row(OpKind::AsyncRuntimeStore, [A, VALUE, NO], NO),
        row(OpKind::AsyncRuntimeLoad, [VALUE, NO, NO], A),
        counts(OpKind::AsyncRuntimeAddRef, VALUE, 1),
        counts(OpKind::AsyncRuntimeDropRef, VALUE, 1),
        on(OpKind::AsyncRuntimeSetAvailable, VALUE),
        last,
        ends(on(OpKind::FuncReturn, A), [NO, NO, NO]),
    ]
}

/// Uses a value in this way as soon as it is made.
pub(crate) fn value_new(first: Line) -> [Line; 3] {
    [
        makes(OpKind::AsyncRuntimeCreate, VALUE),
        first,
        ends(on(OpKind::FuncReturn, A), [NO, NO, NO]),
    ]
}

/// Launches a task, awaits its value and returns it, or fails at operation 5.
pub(crate) fn awaits_task() -> [Line; 11] {
    [
        calls(OpKind::FuncCall, [TOKEN, VALUE]),
        counts(OpKind::AsyncRuntimeDropRef, TOKEN, 1),
        on(OpKind::AsyncRuntimeAwait, VALUE),
        row(OpKind::AsyncRuntimeIsError, [VALUE, NO, NO], BIT),
        ends(on(OpKind::CfCondBr, BIT), [2, 1, NO]),
        row(OpKind::AsyncRuntimeLoad, [VALUE, NO, NO], A),
        counts(OpKind::AsyncRuntimeDropRef, VALUE, 1),
        ends(on(OpKind::FuncReturn, A), [NO, NO, NO]),
        counts(OpKind::AsyncRuntimeDropRef, VALUE, 1),
        number(5, A),
        ends(on(OpKind::AioFail, A), [NO, NO, NO]),
    ]
}

/// Launches two tasks.
pub(crate) fn launches_two() -> [Line; 3] {
    [
        calls(OpKind::FuncCall, [TOKEN, VALUE]),
        calls(OpKind::FuncCall, [TOKEN, VALUE]),
        ends(on(OpKind::FuncReturn, A), [NO, NO, NO]),
    ]
}

/// The task: it awaits a token that is set, goes on as its copy, and sets its value so.
pub(crate) fn task(set: OpKind) -> [Line; 21] {
    [
        makes(OpKind::AsyncRuntimeCreate, TOKEN),
        makes(OpKind::AsyncRuntimeCreate, VALUE),
        makes(OpKind::AsyncCoroId, ID),
        row(OpKind::AsyncCoroBegin, [ID, NO, NO], HANDLE),
        row(OpKind::AsyncCoroSave, [HANDLE, NO, NO], STATE),
        on(OpKind::AsyncRuntimeResume, HANDLE),
        ends(on(OpKind::AsyncCoroSuspend, STATE), [3, 1, 2]),
        makes(OpKind::AsyncRuntimeCreate, OTHER_TOKEN),
        on(OpKind::AsyncRuntimeSetAvailable, OTHER_TOKEN),
        row(OpKind::AsyncCoroSave, [HANDLE, NO, NO], STATE),
        row(
            OpKind::AsyncRuntimeAwaitAndResume,
            [OTHER_TOKEN, HANDLE, NO],
            NO,
        ),
        ends(on(OpKind::AsyncCoroSuspend, STATE), [3, 4, 2]),
        row(OpKind::AsyncCoroFree, [ID, HANDLE, NO], NO),
        ends(makes(OpKind::AioFinish, NO), [NO, NO, NO]),
        on(OpKind::AsyncCoroEnd, HANDLE),
        ends(
            row(OpKind::FuncReturn, [TOKEN, VALUE, NO], NO),
            [NO, NO, NO],
        ),
        number(7, A),
        row(OpKind::AsyncRuntimeStore, [A, VALUE, NO], NO),
        on(set, VALUE),
        on(set, TOKEN),
        ends(makes(OpKind::CfBr, NO), [2, NO, NO]),
    ]
}

/// A call, and a function that calls itself.
pub(crate) fn deeper() -> [Line; 2] {
    [
        ends(calls(OpKind::AioCall, [NO, NO]), [1, 1, NO]),
        ends(on(OpKind::FuncReturn, A), [NO, NO, NO]),
    ]
}

/// No function that is called.
pub(crate) fn nothing() -> [Line; 1] {
    [ends(makes(OpKind::FuncReturn, NO), [NO, NO, NO])]
}
