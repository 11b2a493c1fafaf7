//! The row of each kind.
ghost use Rattle.std.specs.Prelude.{◌≡◌};
ghost use Rattle.op_table.specs.Rows.{row_of, row_seen};

use crate::form::Form;
use crate::kind::OpKind;
use Count::{Any, Exactly};

/// How many operands or results an operation takes.
#[derive(Clone, Copy, PartialEq, Eq)]
pub enum Count {
    /// This many.
    Exactly(u8),
    /// As many as the operation's text gives it.
    Any,
}

/// A stage of a text: as it is written, with its checks, with its parallel loops split, and lowered to blocks. The order
/// is this one.
#[derive(Clone, Copy, PartialEq, Eq, PartialOrd, Ord, Debug)]
pub enum Level {
    Source,
    Checked,
    Split,
    Low,
}

/// What the table says of one kind of operation.
#[derive(Clone, Copy)]
pub struct OpRow {
    /// The full name, with its dialect.
    pub name: &'static str,
    pub operands: Count,
    pub results: Count,
    pub regions: u8,
    /// The first level whose texts may hold the operation. All later ones may too.
    pub level: Level,
    pub form: Form,
}

// Makes the arm of each kind from its line: the name, the operands, the results, the regions, the level and
// the form.
macro_rules! row_of_kind {
    ($kind:ident; $($variant:ident: $name:literal, $operands:expr, $results:expr, $regions:literal, $level:ident, $form:ident;)*) => {
        match $kind {
            $(OpKind::$variant => OpRow {
                name: $name,
                operands: $operands,
                results: $results,
                regions: $regions,
                level: Level::$level,
                form: Form::$form,
            },)*
        }
    };
}

/// The row of a kind. It takes no memory.
pub fn row(kind: OpKind) -> OpRow
    ensures { row_seen result ≡ row_of kind }
{
    row_of_kind! { kind;
        AioCall: "aio.call", Any, Exactly(0), 0, Low, Other;
        AioFail: "aio.fail", Exactly(1), Exactly(0), 0, Low, Other;
        AioFinish: "aio.finish", Exactly(0), Exactly(0), 0, Low, Other;
        AioTryCall: "aio.try_call", Any, Exactly(1), 0, Split, TryCall;
        ArithAddi: "arith.addi", Exactly(2), Exactly(1), 0, Source, Binary;
        ArithAndi: "arith.andi", Exactly(2), Exactly(1), 0, Source, Binary;
        ArithCmpi: "arith.cmpi", Exactly(2), Exactly(1), 0, Source, Compare;
        ArithConstant: "arith.constant", Exactly(0), Exactly(1), 0, Source, Constant;
        ArithDivsi: "arith.divsi", Exactly(2), Exactly(1), 0, Source, Binary;
        ArithDivui: "arith.divui", Exactly(2), Exactly(1), 0, Source, Binary;
        ArithExtsi: "arith.extsi", Exactly(1), Exactly(1), 0, Source, Extend;
        ArithExtui: "arith.extui", Exactly(1), Exactly(1), 0, Source, Extend;
        ArithIndexCast: "arith.index_cast", Exactly(1), Exactly(1), 0, Source, IndexCast;
        ArithIndexCastui: "arith.index_castui", Exactly(1), Exactly(1), 0, Source, IndexCast;
        ArithMaxsi: "arith.maxsi", Exactly(2), Exactly(1), 0, Source, Binary;
        ArithMaxui: "arith.maxui", Exactly(2), Exactly(1), 0, Source, Binary;
        ArithMinsi: "arith.minsi", Exactly(2), Exactly(1), 0, Source, Binary;
        ArithMinui: "arith.minui", Exactly(2), Exactly(1), 0, Source, Binary;
        ArithMuli: "arith.muli", Exactly(2), Exactly(1), 0, Source, Binary;
        ArithOri: "arith.ori", Exactly(2), Exactly(1), 0, Source, Binary;
        ArithRemsi: "arith.remsi", Exactly(2), Exactly(1), 0, Source, Binary;
        ArithRemui: "arith.remui", Exactly(2), Exactly(1), 0, Source, Binary;
        ArithSelect: "arith.select", Exactly(3), Exactly(1), 0, Source, Select;
        ArithShli: "arith.shli", Exactly(2), Exactly(1), 0, Source, Binary;
        ArithShrsi: "arith.shrsi", Exactly(2), Exactly(1), 0, Source, Binary;
        ArithShrui: "arith.shrui", Exactly(2), Exactly(1), 0, Source, Binary;
        ArithSubi: "arith.subi", Exactly(2), Exactly(1), 0, Source, Binary;
        ArithTrunci: "arith.trunci", Exactly(1), Exactly(1), 0, Source, Truncate;
        ArithXori: "arith.xori", Exactly(2), Exactly(1), 0, Source, Binary;
        AsyncAddToGroup: "async.add_to_group", Exactly(2), Exactly(1), 0, Source, AddToGroup;
        AsyncAwait: "async.await", Exactly(1), Any, 0, Source, Await;
        AsyncAwaitAll: "async.await_all", Exactly(1), Exactly(0), 0, Source, AwaitAll;
        AsyncCoroBegin: "async.coro.begin", Exactly(1), Exactly(1), 0, Low, Other;
        AsyncCoroEnd: "async.coro.end", Exactly(1), Exactly(0), 0, Low, Other;
        AsyncCoroFree: "async.coro.free", Exactly(2), Exactly(0), 0, Low, Other;
        AsyncCoroId: "async.coro.id", Exactly(0), Exactly(1), 0, Low, Other;
        AsyncCoroSave: "async.coro.save", Exactly(1), Exactly(1), 0, Low, Other;
        AsyncCoroSuspend: "async.coro.suspend", Exactly(1), Exactly(0), 0, Low, Other;
        AsyncCreateGroup: "async.create_group", Exactly(1), Exactly(1), 0, Source, CreateGroup;
        AsyncExecute: "async.execute", Any, Any, 1, Source, Execute;
        AsyncRuntimeAddRef: "async.runtime.add_ref", Exactly(1), Exactly(0), 0, Low, Other;
        AsyncRuntimeAddToGroup: "async.runtime.add_to_group", Exactly(2), Exactly(1), 0, Low, Other;
        AsyncRuntimeAwait: "async.runtime.await", Exactly(1), Exactly(0), 0, Low, Other;
        AsyncRuntimeAwaitAndResume: "async.runtime.await_and_resume", Exactly(2), Exactly(0), 0, Low, Other;
        AsyncRuntimeCreate: "async.runtime.create", Exactly(0), Exactly(1), 0, Low, Other;
        AsyncRuntimeCreateGroup: "async.runtime.create_group", Exactly(1), Exactly(1), 0, Low, Other;
        AsyncRuntimeDropRef: "async.runtime.drop_ref", Exactly(1), Exactly(0), 0, Low, Other;
        AsyncRuntimeIsError: "async.runtime.is_error", Exactly(1), Exactly(1), 0, Low, Other;
        AsyncRuntimeLoad: "async.runtime.load", Exactly(1), Exactly(1), 0, Low, Other;
        AsyncRuntimeResume: "async.runtime.resume", Exactly(1), Exactly(0), 0, Low, Other;
        AsyncRuntimeSetAvailable: "async.runtime.set_available", Exactly(1), Exactly(0), 0, Low, Other;
        AsyncRuntimeSetError: "async.runtime.set_error", Exactly(1), Exactly(0), 0, Low, Other;
        AsyncRuntimeStore: "async.runtime.store", Exactly(2), Exactly(0), 0, Low, Other;
        AsyncYield: "async.yield", Any, Exactly(0), 0, Source, TaskYield;
        CfAssert: "cf.assert", Exactly(1), Exactly(0), 0, Source, Assert;
        CfBr: "cf.br", Any, Exactly(0), 0, Low, Other;
        CfCondBr: "cf.cond_br", Any, Exactly(0), 0, Low, Other;
        FuncCall: "func.call", Any, Any, 0, Source, Call;
        FuncFunc: "func.func", Exactly(0), Exactly(0), 1, Source, Other;
        FuncReturn: "func.return", Any, Exactly(0), 0, Source, Return;
        MemrefAlloc: "memref.alloc", Any, Exactly(1), 0, Source, Alloc;
        MemrefDealloc: "memref.dealloc", Exactly(1), Exactly(0), 0, Source, Dealloc;
        MemrefDim: "memref.dim", Exactly(2), Exactly(1), 0, Source, Dim;
        MemrefLoad: "memref.load", Any, Exactly(1), 0, Source, Load;
        MemrefStore: "memref.store", Any, Exactly(0), 0, Source, Store;
        BuiltinModule: "module", Exactly(0), Exactly(0), 1, Source, Other;
        ScfCondition: "scf.condition", Any, Exactly(0), 0, Source, Condition;
        ScfFor: "scf.for", Any, Any, 1, Source, For;
        ScfIf: "scf.if", Exactly(1), Any, 2, Source, If;
        ScfParallel: "scf.parallel", Any, Exactly(0), 1, Source, Parallel;
        ScfReduce: "scf.reduce", Exactly(0), Exactly(0), 0, Source, Reduce;
        ScfWhile: "scf.while", Any, Any, 2, Source, While;
        ScfYield: "scf.yield", Any, Exactly(0), 0, Source, Yield;
    }
}
