//! Why a text gives no code.
ghost use Rattle.std.specs.Prelude.{◌≡◌};
ghost use Rattle.low_parse.specs.declared.fault.LowFault.TheVariants.{OutOfMemory};

use mlir_lex::LexFault;
use std::alloc::AllocError;
use thiserror::Error;

/// Why a lowered text gives no code. `at` is the byte at which the fault stands, counted from 0.
#[derive(Clone, Copy, PartialEq, Eq, Debug, Error)]
pub enum LowFault {
    /// The bytes are cut into no tokens.
    #[error("{0}")]
    Lex(LexFault),
    /// The token can't continue any lowered text.
    #[error("Syntax at byte {at}")]
    Syntax { at: u32 },
    /// There are more functions, blocks or registers than numbers for them.
    #[error("TooManyNames")]
    TooManyNames,
    #[error("out of memory")]
    OutOfMemory,
}

impl From<AllocError> for LowFault {
    ghost from_gives = { λ _ e. e ≡ OutOfMemory };

    fn from(_error: AllocError) -> LowFault {
        LowFault::OutOfMemory
    }
}
