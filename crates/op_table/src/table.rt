//! The table of all rows, and the search by name.
ghost use Rattle.std.specs.Prelude.{◌≡◌, IsTrue, length, map};
ghost use Rattle.op_table.specs.Rows.{ascends, found, found_among, name_of};

use crate::kind::OpKind;
use crate::kind::OpKind::*;
use crate::rows::row;
use std::cmp::Ordering;

/// A table of N rows, each kept as its kind: `row` gives a kind's row. The rows have different names and stand in the
/// byte order of these.
#[derive(Clone, Copy)]
pub struct Table<const N: usize> {
    pub kinds: &'static [OpKind; N],
    ghost full: { length kinds.now ≡ N },
    ghost ascending: { IsTrue (ascends (map name_of kinds.now)) },
}

impl<const N: usize> Table<N> {
    /// The kind in this table whose row has the name; None exactly where no row has it. Each comparison halves the rows
    /// that are left, so of 73 rows it compares at most 7 names. It takes no memory.
    pub fn find(&self, name: &str) -> Option<OpKind>
        ensures { result ≡ found_among self.now.kinds.now name.now }
    {
        let mut low = 0;
        let mut high = N;
        while low < high {
            let middle = low + (high - low) / 2;
            let kind = self.kinds[middle];
            match row(kind).name.cmp(&name) {
                Ordering::Less => low = middle + 1,
                Ordering::Equal => return Some(kind),
                Ordering::Greater => high = middle,
            }
        }
        None
    }
}

pub(crate) static KINDS: [OpKind; 73] = [
    AioCall,
    AioFail,
    AioFinish,
    AioTryCall,
    ArithAddi,
    ArithAndi,
    ArithCmpi,
    ArithConstant,
    ArithDivsi,
    ArithDivui,
    ArithExtsi,
    ArithExtui,
    ArithIndexCast,
    ArithIndexCastui,
    ArithMaxsi,
    ArithMaxui,
    ArithMinsi,
    ArithMinui,
    ArithMuli,
    ArithOri,
    ArithRemsi,
    ArithRemui,
    ArithSelect,
    ArithShli,
    ArithShrsi,
    ArithShrui,
    ArithSubi,
    ArithTrunci,
    ArithXori,
    AsyncAddToGroup,
    AsyncAwait,
    AsyncAwaitAll,
    AsyncCoroBegin,
    AsyncCoroEnd,
    AsyncCoroFree,
    AsyncCoroId,
    AsyncCoroSave,
    AsyncCoroSuspend,
    AsyncCreateGroup,
    AsyncExecute,
    AsyncRuntimeAddRef,
    AsyncRuntimeAddToGroup,
    AsyncRuntimeAwait,
    AsyncRuntimeAwaitAndResume,
    AsyncRuntimeCreate,
    AsyncRuntimeCreateGroup,
    AsyncRuntimeDropRef,
    AsyncRuntimeIsError,
    AsyncRuntimeLoad,
    AsyncRuntimeResume,
    AsyncRuntimeSetAvailable,
    AsyncRuntimeSetError,
    AsyncRuntimeStore,
    AsyncYield,
    CfAssert,
    CfBr,
    CfCondBr,
    FuncCall,
    FuncFunc,
    FuncReturn,
    MemrefAlloc,
    MemrefDealloc,
    MemrefDim,
    MemrefLoad,
    MemrefStore,
    BuiltinModule,
    ScfCondition,
    ScfFor,
    ScfIf,
    ScfParallel,
    ScfReduce,
    ScfWhile,
    ScfYield,
];

/// The kind whose row has this name; None exactly where no row has it. Each comparison halves the 73 rows that are left,
/// so it compares at most 7 names. It takes no memory.
#[tactic(auto, unfolding(crate::specs::Rows::found))]
pub fn find(text: &str) -> Option<OpKind>
    ensures { result ≡ found text.now }
{
    Table { kinds: &KINDS }.find(text)
}
