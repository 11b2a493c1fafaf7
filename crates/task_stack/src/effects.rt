//! What instructions do in a step of their task alone.
ghost use Rattle.std.specs.Prelude.{◌≡◌};
ghost use Rattle.task_stack.specs.Effects.{effect_of, effect_of_kind};

use int_ops::BinOp;
use ir_forms::OpKind;
use low_forms::LowKind;

/// How an instruction computes its result from what its operands hold.
#[derive(Clone, Copy, PartialEq, Eq)]
pub enum Number {
    Constant,
    Binary(BinOp),
    Compare,
    Select,
    ExtendSign,
    FitWidth,
    Dimension,
    /// The number 0: identities, handles and saved states of coroutines have no other value.
    Zero,
}

/// What an instruction does. All but `Shared` are steps of a task alone.
#[derive(Clone, Copy, PartialEq, Eq)]
pub enum Effect {
    /// Code may not hold the kind.
    Absent,
    Computes(Number),
    Skips,
    Jumps,
    Branches,
    /// A call of a coroutine, which is no terminator and can't fail.
    Launches,
    Calls,
    Returns,
    Fails,
    Saves,
    Suspends,
    AddsReferences,
    DropsReferences,
    Shared,
}

/// What an instruction of this kind does.
pub fn effect_of(kind: LowKind) -> Effect
    ensures { result ≡ effect_of kind }
{
    match kind {
        LowKind::Row(kind) => effect_of_kind(kind),
        LowKind::Launch | LowKind::Await => Effect::Shared,
    }
}

fn effect_of_kind(kind: OpKind) -> Effect
    ensures { result ≡ effect_of_kind kind }
{
    match kind {
        OpKind::ArithConstant => Effect::Computes(Number::Constant),
        OpKind::ArithAddi => Effect::Computes(Number::Binary(BinOp::Add)),
        OpKind::ArithSubi => Effect::Computes(Number::Binary(BinOp::Sub)),
        OpKind::ArithMuli => Effect::Computes(Number::Binary(BinOp::Mul)),
        OpKind::ArithDivsi => Effect::Computes(Number::Binary(BinOp::DivS)),
        OpKind::ArithDivui => Effect::Computes(Number::Binary(BinOp::DivU)),
        OpKind::ArithRemsi => Effect::Computes(Number::Binary(BinOp::RemS)),
        OpKind::ArithRemui => Effect::Computes(Number::Binary(BinOp::RemU)),
        OpKind::ArithAndi => Effect::Computes(Number::Binary(BinOp::And)),
        OpKind::ArithOri => Effect::Computes(Number::Binary(BinOp::Or)),
        OpKind::ArithXori => Effect::Computes(Number::Binary(BinOp::Xor)),
        OpKind::ArithShli => Effect::Computes(Number::Binary(BinOp::Shl)),
        OpKind::ArithShrsi => Effect::Computes(Number::Binary(BinOp::ShrS)),
        OpKind::ArithShrui => Effect::Computes(Number::Binary(BinOp::ShrU)),
        OpKind::ArithMaxsi => Effect::Computes(Number::Binary(BinOp::MaxS)),
        OpKind::ArithMinsi => Effect::Computes(Number::Binary(BinOp::MinS)),
        OpKind::ArithMaxui => Effect::Computes(Number::Binary(BinOp::MaxU)),
        OpKind::ArithMinui => Effect::Computes(Number::Binary(BinOp::MinU)),
        OpKind::ArithCmpi => Effect::Computes(Number::Compare),
        OpKind::ArithSelect => Effect::Computes(Number::Select),
        OpKind::ArithExtsi | OpKind::ArithIndexCast => Effect::Computes(Number::ExtendSign),
        OpKind::ArithExtui | OpKind::ArithTrunci | OpKind::ArithIndexCastui => {
            Effect::Computes(Number::FitWidth)
        }
        OpKind::MemrefDim => Effect::Computes(Number::Dimension),
        OpKind::AsyncCoroId | OpKind::AsyncCoroBegin => Effect::Computes(Number::Zero),
        OpKind::AsyncCoroFree | OpKind::AsyncCoroEnd => Effect::Skips,
        OpKind::CfBr => Effect::Jumps,
        OpKind::CfCondBr => Effect::Branches,
        OpKind::FuncCall => Effect::Launches,
        OpKind::AioCall => Effect::Calls,
        OpKind::FuncReturn => Effect::Returns,
        OpKind::AioFail => Effect::Fails,
        OpKind::AsyncCoroSave => Effect::Saves,
        OpKind::AsyncCoroSuspend => Effect::Suspends,
        OpKind::AsyncRuntimeAddRef => Effect::AddsReferences,
        OpKind::AsyncRuntimeDropRef => Effect::DropsReferences,
        OpKind::MemrefAlloc
        | OpKind::MemrefDealloc
        | OpKind::MemrefLoad
        | OpKind::MemrefStore
        | OpKind::AioFinish
        | OpKind::AsyncRuntimeCreate
        | OpKind::AsyncRuntimeCreateGroup
        | OpKind::AsyncRuntimeAddToGroup
        | OpKind::AsyncRuntimeResume
        | OpKind::AsyncRuntimeAwait
        | OpKind::AsyncRuntimeAwaitAndResume
        | OpKind::AsyncRuntimeIsError
        | OpKind::AsyncRuntimeStore
        | OpKind::AsyncRuntimeLoad
        | OpKind::AsyncRuntimeSetAvailable
        | OpKind::AsyncRuntimeSetError => Effect::Shared,
        _ => Effect::Absent,
    }
}
