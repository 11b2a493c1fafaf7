//! What operations do, by classes of kinds.
ghost use Rattle.std.specs.Prelude.{◌≡◌, List};
ghost use Rattle.source_meaning.specs.declared.values.Val.{Val};
ghost use Rattle.source_meaning.specs.Parts.{Node};
ghost use Rattle.source_meaning.specs.Tasks as task;
ghost use Rattle.source_meaning.specs.Tasks.{Program};
ghost use Rattle.source_meaning.specs.Steps.{does};
ghost use Rattle.source_tasks.specs.Rows.{row_does};

use int_ops::BinOp;
use ir_forms::OpKind;

/// What an operation does that sees its task's values alone.
#[derive(Clone, Copy)]
pub enum NumberRow {
    Binary(BinOp),
    Constant,
    Compare,
    Select,
    ExtendSign,
    FitWidth,
    Dimension,
    Assert,
}

/// What an operation does that enters a region or a function.
#[derive(Clone, Copy)]
pub enum FlowRow {
    Call,
    TryCall,
    For,
    If,
    While,
}

/// What an operation does that asks the shared state.
#[derive(Clone, Copy)]
pub enum AskRow {
    Load,
    Store,
    Alloc,
    Create,
    Add,
    Await,
    AwaitAll,
    Execute,
    Parallel,
}

/// What an operation does: one of these, or it ends its region, or nothing.
#[derive(Clone, Copy)]
pub enum Row {
    Number(NumberRow),
    Flow(FlowRow),
    Ask(AskRow),
    End,
    Skip,
}

/// What an operation of this kind does.
pub(crate) fn row_of(kind: OpKind) -> Row
    ensures { (p : Program) (o : Node) (vs : List Val) (t : task.Task) → does kind p o vs t ≡ row_does result p o vs t }
{
    match kind {
        OpKind::ArithAddi => Row::Number(NumberRow::Binary(BinOp::Add)),
        OpKind::ArithSubi => Row::Number(NumberRow::Binary(BinOp::Sub)),
        OpKind::ArithMuli => Row::Number(NumberRow::Binary(BinOp::Mul)),
        OpKind::ArithDivsi => Row::Number(NumberRow::Binary(BinOp::DivS)),
        OpKind::ArithDivui => Row::Number(NumberRow::Binary(BinOp::DivU)),
        OpKind::ArithRemsi => Row::Number(NumberRow::Binary(BinOp::RemS)),
        OpKind::ArithRemui => Row::Number(NumberRow::Binary(BinOp::RemU)),
        OpKind::ArithAndi => Row::Number(NumberRow::Binary(BinOp::And)),
        OpKind::ArithOri => Row::Number(NumberRow::Binary(BinOp::Or)),
        OpKind::ArithXori => Row::Number(NumberRow::Binary(BinOp::Xor)),
        OpKind::ArithShli => Row::Number(NumberRow::Binary(BinOp::Shl)),
        OpKind::ArithShrsi => Row::Number(NumberRow::Binary(BinOp::ShrS)),
        OpKind::ArithShrui => Row::Number(NumberRow::Binary(BinOp::ShrU)),
        OpKind::ArithMaxsi => Row::Number(NumberRow::Binary(BinOp::MaxS)),
        OpKind::ArithMinsi => Row::Number(NumberRow::Binary(BinOp::MinS)),
        OpKind::ArithMaxui => Row::Number(NumberRow::Binary(BinOp::MaxU)),
        OpKind::ArithMinui => Row::Number(NumberRow::Binary(BinOp::MinU)),
        OpKind::ArithConstant => Row::Number(NumberRow::Constant),
        OpKind::ArithCmpi => Row::Number(NumberRow::Compare),
        OpKind::ArithSelect => Row::Number(NumberRow::Select),
        OpKind::ArithExtsi | OpKind::ArithIndexCast => Row::Number(NumberRow::ExtendSign),
        OpKind::ArithExtui | OpKind::ArithTrunci | OpKind::ArithIndexCastui => {
            Row::Number(NumberRow::FitWidth)
        }
        OpKind::MemrefDim => Row::Number(NumberRow::Dimension),
        OpKind::CfAssert => Row::Number(NumberRow::Assert),
        OpKind::FuncCall => Row::Flow(FlowRow::Call),
        OpKind::AioTryCall => Row::Flow(FlowRow::TryCall),
        OpKind::ScfFor => Row::Flow(FlowRow::For),
        OpKind::ScfIf => Row::Flow(FlowRow::If),
        OpKind::ScfWhile => Row::Flow(FlowRow::While),
        OpKind::MemrefLoad => Row::Ask(AskRow::Load),
        OpKind::MemrefStore => Row::Ask(AskRow::Store),
        OpKind::MemrefAlloc => Row::Ask(AskRow::Alloc),
        OpKind::AsyncCreateGroup => Row::Ask(AskRow::Create),
        OpKind::AsyncAddToGroup => Row::Ask(AskRow::Add),
        OpKind::AsyncAwait => Row::Ask(AskRow::Await),
        OpKind::AsyncAwaitAll => Row::Ask(AskRow::AwaitAll),
        OpKind::AsyncExecute => Row::Ask(AskRow::Execute),
        OpKind::ScfParallel => Row::Ask(AskRow::Parallel),
        OpKind::AioCall
        | OpKind::AioFail
        | OpKind::AioFinish
        | OpKind::AsyncCoroSuspend
        | OpKind::AsyncYield
        | OpKind::CfBr
        | OpKind::CfCondBr
        | OpKind::FuncReturn
        | OpKind::ScfCondition
        | OpKind::ScfReduce
        | OpKind::ScfYield => Row::End,
        _ => Row::Skip,
    }
}
