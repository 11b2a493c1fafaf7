//! The table of lowered instructions, one row for each kind.
ghost use Rattle.std.specs.Prelude.{◌≡◌};
ghost use Rattle.low_forms.specs.Rows.{row_of, row_of_kind};

use crate::code::LowKind;
use crate::row::{AttrSlot, Change, LowRow, Rest, Results, Slot, StepKind, Targets};
use ir_forms::OpKind;

/// A local instruction without operands, results, targets and references. Each row says what it has beside this.
const PLAIN: LowRow = LowRow {
    stands: true,
    first: Slot::Absent,
    second: Slot::Absent,
    third: Slot::Absent,
    rest: Rest::Nothing,
    result: Slot::Absent,
    results: Results::Own,
    attr: AttrSlot::Nothing,
    targets: Targets::Instruction,
    step: StepKind::Local,
    uses: 0,
    takes: false,
    gives: false,
    change: Change::Nothing,
};

/// The row of a kind.
pub fn low_row(kind: LowKind) -> LowRow
    ensures { result ≡ row_of kind }
{
    match kind {
        LowKind::Row(kind) => row_of_kind(kind),
        LowKind::Launch => LowRow {
            rest: Rest::Params,
            results: Results::Launched,
            attr: AttrSlot::Coroutine,
            step: StepKind::Shared,
            takes: true,
            gives: true,
            ..PLAIN
        },
        LowKind::Await => LowRow {
            first: Slot::Object,
            targets: Targets::Await,
            step: StepKind::Shared,
            uses: 1,
            ..PLAIN
        },
    }
}

fn row_of_kind(kind: OpKind) -> LowRow
    ensures { result ≡ row_of_kind kind }
{
    match kind {
        OpKind::ArithConstant => LowRow {
            result: Slot::OfLiteral,
            attr: AttrSlot::Literal,
            ..PLAIN
        },
        OpKind::ArithAddi
        | OpKind::ArithSubi
        | OpKind::ArithMuli
        | OpKind::ArithDivsi
        | OpKind::ArithDivui
        | OpKind::ArithRemsi
        | OpKind::ArithRemui
        | OpKind::ArithAndi
        | OpKind::ArithOri
        | OpKind::ArithXori
        | OpKind::ArithShli
        | OpKind::ArithShrsi
        | OpKind::ArithShrui
        | OpKind::ArithMaxsi
        | OpKind::ArithMinsi
        | OpKind::ArithMaxui
        | OpKind::ArithMinui => LowRow {
            first: Slot::Number,
            second: Slot::Like(0),
            result: Slot::Like(0),
            ..PLAIN
        },
        OpKind::ArithCmpi => LowRow {
            first: Slot::Number,
            second: Slot::Like(0),
            result: Slot::Truth,
            attr: AttrSlot::Pred,
            ..PLAIN
        },
        OpKind::ArithSelect => LowRow {
            first: Slot::Truth,
            second: Slot::Number,
            third: Slot::Like(1),
            result: Slot::Like(1),
            ..PLAIN
        },
        OpKind::ArithExtsi | OpKind::ArithExtui => LowRow {
            first: Slot::Number,
            result: Slot::Wider,
            ..PLAIN
        },
        OpKind::ArithTrunci => LowRow {
            first: Slot::Number,
            result: Slot::Narrower,
            ..PLAIN
        },
        OpKind::ArithIndexCast | OpKind::ArithIndexCastui => LowRow {
            first: Slot::Number,
            result: Slot::Recast,
            ..PLAIN
        },
        OpKind::MemrefAlloc => LowRow {
            rest: Rest::Sizes,
            result: Slot::Memref,
            step: StepKind::Shared,
            ..PLAIN
        },
        OpKind::MemrefDealloc => LowRow {
            first: Slot::Memref,
            step: StepKind::Shared,
            ..PLAIN
        },
        OpKind::MemrefDim => LowRow {
            first: Slot::Memref,
            second: Slot::Index,
            result: Slot::Index,
            ..PLAIN
        },
        OpKind::MemrefLoad => LowRow {
            first: Slot::Memref,
            rest: Rest::Indices(0),
            result: Slot::CellOf(0),
            step: StepKind::Shared,
            ..PLAIN
        },
        OpKind::MemrefStore => LowRow {
            first: Slot::CellOf(1),
            second: Slot::Memref,
            rest: Rest::Indices(1),
            step: StepKind::Shared,
            ..PLAIN
        },
        OpKind::CfBr => LowRow {
            targets: Targets::One,
            takes: true,
            ..PLAIN
        },
        OpKind::CfCondBr => LowRow {
            first: Slot::Truth,
            targets: Targets::Either,
            takes: true,
            ..PLAIN
        },
        OpKind::FuncCall => LowRow {
            rest: Rest::Params,
            results: Results::Called,
            attr: AttrSlot::Coroutine,
            takes: true,
            gives: true,
            ..PLAIN
        },
        OpKind::AioCall => LowRow {
            rest: Rest::Params,
            attr: AttrSlot::Plain,
            targets: Targets::Call,
            takes: true,
            gives: true,
            ..PLAIN
        },
        OpKind::FuncReturn => LowRow {
            rest: Rest::Returned,
            targets: Targets::Ends,
            step: StepKind::Ends,
            takes: true,
            ..PLAIN
        },
        OpKind::AioFail => LowRow {
            first: Slot::Code,
            targets: Targets::Ends,
            step: StepKind::Ends,
            ..PLAIN
        },
        OpKind::AioFinish => LowRow {
            targets: Targets::Ends,
            step: StepKind::Shared,
            ..PLAIN
        },
        OpKind::AsyncCoroId => LowRow {
            result: Slot::CoroId,
            ..PLAIN
        },
        OpKind::AsyncCoroBegin => LowRow {
            first: Slot::CoroId,
            result: Slot::CoroHandle,
            ..PLAIN
        },
        OpKind::AsyncCoroSave => LowRow {
            first: Slot::CoroHandle,
            result: Slot::CoroState,
            ..PLAIN
        },
        OpKind::AsyncCoroSuspend => LowRow {
            first: Slot::CoroState,
            targets: Targets::Suspend,
            ..PLAIN
        },
        OpKind::AsyncCoroFree => LowRow {
            first: Slot::CoroId,
            second: Slot::CoroHandle,
            ..PLAIN
        },
        OpKind::AsyncCoroEnd => LowRow {
            first: Slot::CoroHandle,
            ..PLAIN
        },
        OpKind::AsyncRuntimeCreate => LowRow {
            result: Slot::Element,
            step: StepKind::Shared,
            gives: true,
            ..PLAIN
        },
        OpKind::AsyncRuntimeCreateGroup => LowRow {
            first: Slot::Index,
            result: Slot::Group,
            step: StepKind::Shared,
            gives: true,
            ..PLAIN
        },
        OpKind::AsyncRuntimeAddToGroup => LowRow {
            first: Slot::Element,
            second: Slot::Group,
            result: Slot::Index,
            step: StepKind::Shared,
            uses: 2,
            ..PLAIN
        },
        OpKind::AsyncRuntimeResume => LowRow {
            first: Slot::CoroHandle,
            step: StepKind::Shared,
            ..PLAIN
        },
        OpKind::AsyncRuntimeAwait => LowRow {
            first: Slot::Object,
            step: StepKind::Shared,
            uses: 1,
            ..PLAIN
        },
        OpKind::AsyncRuntimeAwaitAndResume => LowRow {
            first: Slot::Object,
            second: Slot::CoroHandle,
            step: StepKind::Shared,
            uses: 1,
            ..PLAIN
        },
        OpKind::AsyncRuntimeIsError => LowRow {
            first: Slot::Object,
            result: Slot::Truth,
            step: StepKind::Shared,
            uses: 1,
            ..PLAIN
        },
        OpKind::AsyncRuntimeStore => LowRow {
            first: Slot::HeldBy(1),
            second: Slot::Value,
            step: StepKind::Shared,
            ..PLAIN
        },
        OpKind::AsyncRuntimeLoad => LowRow {
            first: Slot::Value,
            result: Slot::HeldBy(0),
            step: StepKind::Shared,
            uses: 1,
            ..PLAIN
        },
        OpKind::AsyncRuntimeSetAvailable => LowRow {
            first: Slot::Element,
            step: StepKind::Shared,
            ..PLAIN
        },
        OpKind::AsyncRuntimeSetError => LowRow {
            first: Slot::Element,
            step: StepKind::Shared,
            ..PLAIN
        },
        OpKind::AsyncRuntimeAddRef => LowRow {
            first: Slot::Object,
            attr: AttrSlot::Count,
            step: StepKind::Counts,
            uses: 1,
            change: Change::Adds,
            ..PLAIN
        },
        OpKind::AsyncRuntimeDropRef => LowRow {
            first: Slot::Object,
            attr: AttrSlot::Count,
            step: StepKind::Counts,
            change: Change::Drops,
            ..PLAIN
        },
        _ => LowRow {
            stands: false,
            ..PLAIN
        },
    }
}
