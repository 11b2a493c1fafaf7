//! Forms of instructions: how the text of a kind is written.
ghost use Rattle.std.specs.Prelude.{◌≡◌};
ghost use Rattle.low_print.specs.Forms.{form_of, form_of_kind};

use low_forms::{LowKind, OpKind};

/// The register whose type stands behind an instruction's operands.
#[derive(Clone, Copy)]
pub enum Typed {
    /// No type is written.
    Nothing,
    /// The operand at this place.
    Operand(u8),
    /// The first result.
    Result,
}

/// How the text of a kind of instruction is written, behind its name.
#[derive(Clone, Copy)]
pub enum LowForm {
    /// A literal and its type, or a truth.
    Constant,
    /// A predicate, the operands and their type.
    Compare,
    /// The operands, their type, and the type of the result.
    Cast,
    /// Sizes in parentheses, and the type of the result.
    Alloc,
    /// The operands up to the memref at this place, indices in brackets, and the memref's type.
    Cell(u8),
    /// A function, its arguments and their types, and the types of the results.
    Launch,
    /// A function, its arguments and their types, and the types of the function's results.
    Call,
    /// The operands and their types.
    Return,
    /// The operands, a count where there is one, and a type.
    Uses(Typed),
}

/// The form of a kind.
pub fn form_of(kind: LowKind) -> LowForm
    ensures { result ≡ form_of kind }
{
    match kind {
        LowKind::Row(kind) => form_of_kind(kind),
        LowKind::Launch | LowKind::Await => LowForm::Uses(Typed::Nothing),
    }
}

fn form_of_kind(kind: OpKind) -> LowForm
    ensures { result ≡ form_of_kind kind }
{
    match kind {
        OpKind::ArithConstant => LowForm::Constant,
        OpKind::ArithCmpi => LowForm::Compare,
        OpKind::ArithExtsi
        | OpKind::ArithExtui
        | OpKind::ArithTrunci
        | OpKind::ArithIndexCast
        | OpKind::ArithIndexCastui => LowForm::Cast,
        OpKind::MemrefAlloc => LowForm::Alloc,
        OpKind::MemrefLoad => LowForm::Cell(0),
        OpKind::MemrefStore => LowForm::Cell(1),
        OpKind::FuncCall => LowForm::Launch,
        OpKind::AioCall => LowForm::Call,
        OpKind::FuncReturn => LowForm::Return,
        OpKind::MemrefDealloc
        | OpKind::MemrefDim
        | OpKind::AsyncRuntimeAddToGroup
        | OpKind::AsyncRuntimeAwait
        | OpKind::AsyncRuntimeAwaitAndResume
        | OpKind::AsyncRuntimeIsError
        | OpKind::AsyncRuntimeLoad
        | OpKind::AsyncRuntimeSetAvailable
        | OpKind::AsyncRuntimeSetError
        | OpKind::AsyncRuntimeAddRef
        | OpKind::AsyncRuntimeDropRef => LowForm::Uses(Typed::Operand(0)),
        OpKind::AsyncRuntimeStore => LowForm::Uses(Typed::Operand(1)),
        OpKind::CfBr
        | OpKind::CfCondBr
        | OpKind::AioFail
        | OpKind::AioFinish
        | OpKind::AsyncCoroId
        | OpKind::AsyncCoroBegin
        | OpKind::AsyncCoroSave
        | OpKind::AsyncCoroSuspend
        | OpKind::AsyncCoroFree
        | OpKind::AsyncCoroEnd
        | OpKind::AsyncRuntimeResume => LowForm::Uses(Typed::Nothing),
        _ => LowForm::Uses(Typed::Result),
    }
}
