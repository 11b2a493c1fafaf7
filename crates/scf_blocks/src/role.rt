//! What operations become.
ghost use Rattle.std.specs.Prelude.{◌≡◌};
ghost use Rattle.scf_blocks.specs.Tree.{role_of};

use low_forms::LowKind;
use op_table::{Form, OpKind};

/// What an operation becomes: one instruction, a structure of blocks, the end of its region, or nothing.
#[derive(Clone, Copy)]
pub enum Role {
    Plain(LowKind),
    Assertion,
    /// `scf.if`
    Choice,
    /// `scf.for`
    Counted,
    /// `scf.while`
    Tested,
    Call,
    TriedCall,
    Await,
    End,
    Condition,
    /// Parallel loops, which are split before.
    Nothing,
}

pub(crate) fn role_of(kind: OpKind) -> Role
    ensures { result ≡ role_of kind }
{
    match kind.form() {
        Form::Binary
        | Form::Compare
        | Form::Select
        | Form::Extend
        | Form::Truncate
        | Form::IndexCast
        | Form::Constant
        | Form::Alloc
        | Form::Dealloc
        | Form::Load
        | Form::Store
        | Form::Dim => Role::Plain(LowKind::Row(kind)),
        Form::CreateGroup => Role::Plain(LowKind::Row(OpKind::AsyncRuntimeCreateGroup)),
        Form::AddToGroup => Role::Plain(LowKind::Row(OpKind::AsyncRuntimeAddToGroup)),
        Form::Execute => Role::Plain(LowKind::Launch),
        Form::Assert => Role::Assertion,
        Form::If => Role::Choice,
        Form::For => Role::Counted,
        Form::While => Role::Tested,
        Form::Call => Role::Call,
        Form::TryCall => Role::TriedCall,
        Form::Await | Form::AwaitAll => Role::Await,
        Form::Return | Form::Yield | Form::TaskYield => Role::End,
        Form::Condition => Role::Condition,
        Form::Parallel | Form::Reduce | Form::Other => Role::Nothing,
    }
}
