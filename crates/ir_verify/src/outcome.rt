//! The verifier's answer.
ghost use Rattle.std.specs.Prelude.{◌≡◌};
ghost use Rattle.ir_forms.specs.declared.types.Ty.TheVariants.{Untyped};
ghost use Rattle.ir_verify.specs.Answer.{IsAnswer};

use crate::fault::{Broken, VerifyKind};
use crate::verdict::judge;
use crate::verified::Verified;
use ir_forms::{Func, Level, Module, Ty};
use std::alloc::{AllocError, Global};
use thiserror::Error;

/// Why a module is refused.
#[derive(Clone, Copy, PartialEq, Eq, Debug, Error)]
pub enum VerifyFault {
    /// The operation with this number is the first that breaks a rule, and of the rules that it
    /// breaks this kind is the first.
    #[error("{kind:?} at operation {op}")]
    Fault { op: u32, kind: VerifyKind },
    #[error("out of memory")]
    OutOfMemory,
}

/// Whether a module breaks no rule. `Fault` names the least operation that breaks one, and there the
/// first kind; the answer is the module as it was.
pub fn verify(alloc: Global, program: Module) -> Result<Verified, VerifyFault>
    ensures { IsAnswer program result }
{
    let untyped = Ty::Untyped;
    match judge(alloc, &untyped, program.funcs.as_slice()) {
        Err(AllocError) => Err(VerifyFault::OutOfMemory),
        Ok((Some(Broken { op, kind }), _)) => Err(VerifyFault::Fault { op, kind }),
        Ok((None, level)) => Ok(Verified::of_pass(program, level)),
    }
}
