//! Why a text gives no module.
ghost use Rattle.std.specs.Prelude.{◌≡◌};
ghost use Rattle.mlir_text.specs.declared.fault.TextFault.TheVariants.{OutOfMemory};
ghost use Rattle.mlir_text.specs.Texts.{told};

use mlir_lex::LexFault;
use module_grammar::{GrammarFault, Limited};
use std::alloc::AllocError;
use thiserror::Error;

/// Why a text gives no module. `at` is the byte at which the fault stands, counted from 0.
#[derive(Clone, Copy, PartialEq, Eq, Debug, Error)]
pub enum TextFault {
    /// The bytes are cut into no tokens.
    #[error("{0}")]
    Lex(LexFault),
    /// The token can't continue any text of the grammar, and none of the following holds.
    #[error("Syntax at byte {at}")]
    Syntax { at: u32 },
    /// An operation's name fits here, and the token is a name that no operation of the level has.
    #[error("UnknownOp at byte {at}")]
    UnknownOp { at: u32 },
    /// A type fits here, and the token begins none.
    #[error("UnknownType at byte {at}")]
    UnknownType { at: u32 },
    /// The digits give a number outside -2^63 to 2^64 - 1.
    #[error("WideNumber at byte {at}")]
    WideNumber { at: u32 },
    /// What begins here is one more than the limit, or takes the number of values past it.
    #[error("Limit {which:?} at byte {at}")]
    Limit { which: Limited, at: u32 },
    #[error("out of memory")]
    OutOfMemory,
}

impl From<AllocError> for TextFault {
    ghost from_gives = { λ _ e. e ≡ OutOfMemory };

    fn from(_error: AllocError) -> TextFault {
        TextFault::OutOfMemory
    }
}

impl From<GrammarFault> for TextFault {
    ghost from_gives = { λ f e. e ≡ told f };

    fn from(fault: GrammarFault) -> TextFault {
        match fault {
            GrammarFault::Syntax { at } => TextFault::Syntax { at },
            GrammarFault::UnknownOp { at } => TextFault::UnknownOp { at },
            GrammarFault::UnknownType { at } => TextFault::UnknownType { at },
            GrammarFault::WideNumber { at } => TextFault::WideNumber { at },
            GrammarFault::Limit { which, at } => TextFault::Limit { which, at },
        }
    }
}
