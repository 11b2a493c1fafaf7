//! What shared instructions do.
ghost use Rattle.std.specs.Prelude.{◌≡◌};
ghost use Rattle.step_core.specs.Rows.{shared_row, row_of_kind};

use ir_forms::OpKind;
use low_forms::LowKind;

/// What a shared instruction does. Returns and failures are shared in the root's last frame.
#[derive(Clone, Copy, PartialEq, Eq)]
pub enum SharedRow {
    /// No shared instruction, or one that stands for others until coroutines are made.
    Absent,
    Allocate,
    Deallocate,
    LoadCell,
    StoreCell,
    Return,
    Fail,
    Finish,
    Create,
    CreateGroup,
    AddToGroup,
    Resume,
    Await,
    AwaitAndResume,
    IsError,
    Store,
    Load,
    SetAvailable,
    SetError,
}

/// What an instruction of this kind does, as a shared one.
pub fn shared_row(kind: LowKind) -> SharedRow
    ensures { result ≡ shared_row kind }
{
    match kind {
        LowKind::Row(kind) => row_of_kind(kind),
        LowKind::Launch | LowKind::Await => SharedRow::Absent,
    }
}

fn row_of_kind(kind: OpKind) -> SharedRow
    ensures { result ≡ row_of_kind kind }
{
    match kind {
        OpKind::MemrefAlloc => SharedRow::Allocate,
        OpKind::MemrefDealloc => SharedRow::Deallocate,
        OpKind::MemrefLoad => SharedRow::LoadCell,
        OpKind::MemrefStore => SharedRow::StoreCell,
        OpKind::FuncReturn => SharedRow::Return,
        OpKind::AioFail => SharedRow::Fail,
        OpKind::AioFinish => SharedRow::Finish,
        OpKind::AsyncRuntimeCreate => SharedRow::Create,
        OpKind::AsyncRuntimeCreateGroup => SharedRow::CreateGroup,
        OpKind::AsyncRuntimeAddToGroup => SharedRow::AddToGroup,
        OpKind::AsyncRuntimeResume => SharedRow::Resume,
        OpKind::AsyncRuntimeAwait => SharedRow::Await,
        OpKind::AsyncRuntimeAwaitAndResume => SharedRow::AwaitAndResume,
        OpKind::AsyncRuntimeIsError => SharedRow::IsError,
        OpKind::AsyncRuntimeStore => SharedRow::Store,
        OpKind::AsyncRuntimeLoad => SharedRow::Load,
        OpKind::AsyncRuntimeSetAvailable => SharedRow::SetAvailable,
        OpKind::AsyncRuntimeSetError => SharedRow::SetError,
        _ => SharedRow::Absent,
    }
}
