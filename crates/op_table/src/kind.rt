//! The kinds of operations.
ghost use Rattle.std.specs.Prelude.{◌≡◌};
ghost use Rattle.op_table.specs.Rows.{all_kinds, is_terminator, name_of, row_of, stands_at, stands_in_body};

use crate::form::Form;
use crate::rows::{Level, row};
use crate::table::KINDS;

/// A kind of operation, one for each name, in the byte order of the names: `ArithAddi` is `arith.addi`, and
/// `BuiltinModule` is `module`.
#[derive(Clone, Copy, PartialEq, Eq, Debug)]
pub enum OpKind {
    AioCall,
    AioFail,
    AioFinish,
    AioTryCall,
    ArithAddi,
    ArithAndi,
    ArithCmpi,
    ArithConstant,
    ArithDivsi,
    ArithDivui,
    ArithExtsi,
    ArithExtui,
    ArithIndexCast,
    ArithIndexCastui,
    ArithMaxsi,
    ArithMaxui,
    ArithMinsi,
    ArithMinui,
    ArithMuli,
    ArithOri,
    ArithRemsi,
    ArithRemui,
    ArithSelect,
    ArithShli,
    ArithShrsi,
    ArithShrui,
    ArithSubi,
    ArithTrunci,
    ArithXori,
    AsyncAddToGroup,
    AsyncAwait,
    AsyncAwaitAll,
    AsyncCoroBegin,
    AsyncCoroEnd,
    AsyncCoroFree,
    AsyncCoroId,
    AsyncCoroSave,
    AsyncCoroSuspend,
    AsyncCreateGroup,
    AsyncExecute,
    AsyncRuntimeAddRef,
    AsyncRuntimeAddToGroup,
    AsyncRuntimeAwait,
    AsyncRuntimeAwaitAndResume,
    AsyncRuntimeCreate,
    AsyncRuntimeCreateGroup,
    AsyncRuntimeDropRef,
    AsyncRuntimeIsError,
    AsyncRuntimeLoad,
    AsyncRuntimeResume,
    AsyncRuntimeSetAvailable,
    AsyncRuntimeSetError,
    AsyncRuntimeStore,
    AsyncYield,
    CfAssert,
    CfBr,
    CfCondBr,
    FuncCall,
    FuncFunc,
    FuncReturn,
    MemrefAlloc,
    MemrefDealloc,
    MemrefDim,
    MemrefLoad,
    MemrefStore,
    BuiltinModule,
    ScfCondition,
    ScfFor,
    ScfIf,
    ScfParallel,
    ScfReduce,
    ScfWhile,
    ScfYield,
}

impl OpKind {
    /// All kinds, each once, in the order of their names.
    pub fn all() -> &'static [OpKind]
        ensures { result.now ≡ all_kinds }
    {
        &KINDS
    }

    /// Whether texts of this level may hold the operation.
    pub fn stands_at(self, level: Level) -> bool
        ensures { result ≡ stands_at self level }
    {
        row(self).level <= level
    }

    /// The full name, with its dialect.
    pub fn name(self) -> &'static str
        ensures { result.now ≡ name_of self }
    {
        row(self).name
    }

    /// The form that the kind has in common with others.
    pub fn form(self) -> Form
        ensures { result ≡ (row_of self).form }
    {
        row(self).form
    }

    /// Whether function bodies of this level may hold the operation: it has a form, and stands at the level.
    pub fn stands_in_body(self, level: Level) -> bool
        ensures { result ≡ stands_in_body self level }
    {
        let row = row(self);
        !matches!(row.form, Form::Other) && row.level <= level
    }

    /// Whether the operation ends a region or a block.
    pub fn is_terminator(self) -> bool
        ensures { result ≡ is_terminator self }
    {
        matches!(
            self,
            OpKind::AioCall
                | OpKind::AioFail
                | OpKind::AioFinish
                | OpKind::AsyncCoroSuspend
                | OpKind::AsyncYield
                | OpKind::CfBr
                | OpKind::CfCondBr
                | OpKind::FuncReturn
                | OpKind::ScfCondition
                | OpKind::ScfReduce
                | OpKind::ScfYield
        )
    }
}
