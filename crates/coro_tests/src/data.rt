//! Functions with launches and awaits.
use crate::make::{Line, NO, awaits, branch, constant, end, func, inner, launch, with};
use ir_forms::Pred;
use low_forms::{FuncNo, LowAttr, LowFunc, OpKind};
use std::alloc::{AllocError, Global};

fn fail(param: u32, operand: u32) -> Line {
    end(OpKind::AioFail, param, operand, [NO, NO])
}

fn gives(param: u32, operand: u32) -> Line {
    end(OpKind::FuncReturn, param, operand, [NO, NO])
}

/// Launches a task, awaits its value and returns it.
pub(crate) fn awaits_seven(alloc: Global) -> Result<LowFunc, AllocError> {
    let lines = [
        launch(1, [NO, NO, NO], [0, 1]),
        awaits(NO, 1, [1, 2]),
        gives(2, 2),
        constant(3, 5),
        fail(NO, 3),
    ];
    func(alloc, false, &[], b"n", b"tvnn", &lines)
}

pub(crate) fn seven(alloc: Global) -> Result<LowFunc, AllocError> {
    let lines = [constant(0, 7), gives(NO, 0)];
    func(alloc, true, &[], b"n", b"n", &lines)
}

/// Launches a task that awaits another one, awaits its value and returns it.
pub(crate) fn awaits_positive(alloc: Global) -> Result<LowFunc, AllocError> {
    let lines = [
        constant(0, 0),
        launch(1, [NO, NO, NO], [1, 2]),
        launch(2, [1, 2, 0], [3, 4]),
        awaits(NO, 4, [1, 2]),
        gives(5, 5),
        constant(6, 10),
        fail(NO, 6),
    ];
    func(alloc, false, &[], b"n", b"ntvtvnn", &lines)
}

/// Awaits a token and a value, and gives the value if it is positive.
pub(crate) fn positive(alloc: Global) -> Result<LowFunc, AllocError> {
    let above = inner(OpKind::ArithCmpi, [3, 2, NO], 4);
    let lines = [
        awaits(NO, 0, [1, 4]),
        awaits(NO, 1, [2, 5]),
        with(LowAttr::Pred(Pred::Sgt), above),
        end(OpKind::CfCondBr, 3, 4, [3, 6]),
        gives(NO, 3),
        constant(5, 4),
        fail(NO, 5),
        constant(6, 4),
        fail(NO, 6),
        constant(7, 7),
        fail(NO, 7),
    ];
    func(alloc, true, &[0, 1, 2], b"n", b"tvnnbnnn", &lines)
}

/// Fills a group and awaits it.
pub(crate) fn awaits_all(alloc: Global) -> Result<LowFunc, AllocError> {
    let lines = [
        constant(0, 1),
        inner(OpKind::AsyncRuntimeCreateGroup, [0, NO, NO], 1),
        launch(1, [1, NO, NO], [2, NO]),
        inner(OpKind::AsyncRuntimeAddToGroup, [2, 1, NO], 3),
        awaits(NO, 1, [1, 2]),
        gives(NO, NO),
        constant(4, 8),
        fail(NO, 4),
    ];
    func(alloc, false, &[], b"", b"xgtxn", &lines)
}

/// A task that awaits a group, and calls a function.
pub(crate) fn awaits_group(alloc: Global) -> Result<LowFunc, AllocError> {
    let lines = [
        awaits(NO, 0, [1, 4]),
        with(
            LowAttr::Callee(FuncNo(0)),
            end(OpKind::AioCall, NO, NO, [2, 3]),
        ),
        gives(NO, NO),
        fail(1, 1),
        constant(2, 8),
        fail(NO, 2),
    ];
    func(alloc, true, &[0], b"", b"gnn", &lines)
}

/// A task that awaits a token once in each turn of a loop.
pub(crate) fn awaits_in_turn(alloc: Global) -> Result<LowFunc, AllocError> {
    let below = inner(OpKind::ArithCmpi, [3, 1, NO], 4);
    let lines = [
        constant(2, 1),
        branch(NO, 1, 2),
        with(LowAttr::Pred(Pred::Slt), below),
        end(OpKind::CfCondBr, 3, 4, [2, 4]),
        awaits(NO, 0, [3, 5]),
        inner(OpKind::ArithAddi, [3, 2, NO], 5),
        branch(NO, 1, 5),
        gives(NO, 3),
        constant(6, 8),
        fail(NO, 6),
    ];
    func(alloc, true, &[0, 1], b"n", b"tnnnbnn", &lines)
}
