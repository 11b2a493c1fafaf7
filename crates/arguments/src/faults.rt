//! Why arguments can't be taken.
ghost use Rattle.std.specs.Prelude.{◌≡◌};
ghost use Rattle.arguments.specs.declared.faults.ArgsBad.TheVariants.{OutOfMemory};
ghost use Rattle.arguments.specs.declared.faults.BadArgs.TheVariants.{OutOfMemory as NoMemory};

use std::alloc::{AllocError, AllocFailed};
use thiserror::Error;

/// Why a text isn't a list of arguments.
#[derive(Clone, Copy, Debug, PartialEq, Eq, Error)]
pub enum ArgsBad {
    /// The place of the first byte that can't stand there, or the text's length where it ends too early.
    #[error("bad byte {at} of the arguments")]
    Byte { at: usize },
    #[error("out of memory")]
    OutOfMemory,
}

impl From<AllocError> for ArgsBad {
    ghost from_gives = { λ _ fault. fault ≡ OutOfMemory };

    fn from(_error: AllocError) -> ArgsBad {
        ArgsBad::OutOfMemory
    }
}

/// Why arguments don't fit their parameters.
#[derive(Clone, Copy, Debug, PartialEq, Eq, Error)]
pub enum BadArgs {
    /// The first argument that is missing, superfluous, or doesn't fit its parameter.
    #[error("bad argument {at}")]
    Argument { at: usize },
    #[error("out of memory")]
    OutOfMemory,
}

impl From<AllocError> for BadArgs {
    ghost from_gives = { λ _ fault. fault ≡ NoMemory };

    fn from(_error: AllocError) -> BadArgs {
        BadArgs::OutOfMemory
    }
}

impl<T: Drop> From<AllocFailed<T>> for BadArgs {
    ghost from_gives = { λ _ fault. fault ≡ NoMemory };

    fn from(_error: AllocFailed<T>) -> BadArgs {
        BadArgs::OutOfMemory
    }
}
