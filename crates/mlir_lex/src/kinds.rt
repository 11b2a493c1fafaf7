//! What a token is, and why a text has none.

ghost use Rattle.std.specs.Prelude.{◌≡◌};
ghost use Rattle.mlir_lex.specs.Grammar as grammar;
ghost use Rattle.mlir_lex.specs.declared.kinds.LexFault.TheVariants.{OutOfMemory};

use std::alloc::{AllocError, AllocFailed};
use thiserror::Error;

/// What a token is.
#[derive(Clone, Copy, Debug, PartialEq, Eq)]
pub enum TokenKind {
    /// A letter or `_`, then letters, digits, `_`, `$`, `.`.
    Name,
    /// `%` and letters, digits, `_`, `$`, `.`, `-`, one or more.
    ValueName,
    /// `^` and the same.
    BlockName,
    /// `@` and the same.
    SymbolName,
    /// `#` and the same.
    HashName,
    /// `@` and a string.
    SymbolText,
    /// Decimal digits.
    Digits,
    /// `0x` and hexadecimal digits.
    Hex,
    /// A string in double quotes.
    Text,
    /// `memref<` up to its matching `>`.
    Memref,
    /// `!` and a name.
    BangName,
    /// `->`
    Arrow,
    /// One of `( ) { } [ ] < > , : = - *`, or the point after digits.
    Byte(u8),
    /// The end of the text.
    End,
}

/// A token, and the bytes of the text that it takes: from `start` up to `end`.
///
/// A token follows the one before at once where that one's `end` is its `start`.
#[derive(Clone, Copy, Debug, PartialEq, Eq)]
pub struct Token {
    pub kind: TokenKind,
    pub start: u32,
    pub end: u32,
}

/// Why a text has no tokens. `at` is a byte of the text, counted from 0.
#[derive(Clone, Copy, Debug, PartialEq, Eq, Error)]
pub enum LexFault {
    /// The first sequence that isn't UTF-8 begins here.
    #[error("byte {at}: not UTF-8")]
    BadUtf8 { at: u32 },
    /// A quote that isn't closed on its line.
    #[error("byte {at}: a string that isn't closed")]
    OpenString { at: u32 },
    /// Any other byte that begins no token.
    #[error("byte {at}: begins no token")]
    BadByte { at: u32 },
    #[error("out of memory")]
    OutOfMemory,
}

impl TokenKind {
    pub fn is_digits(self) -> bool
        ensures { result ≡ grammar.is_digits self }
    {
        matches!(self, TokenKind::Digits)
    }
}

impl From<AllocError> for LexFault {
    ghost from_gives = { λ _ e. e ≡ OutOfMemory };

    fn from(_error: AllocError) -> LexFault {
        LexFault::OutOfMemory
    }
}

impl<T: Drop> From<AllocFailed<T>> for LexFault {
    ghost from_gives = { λ _ e. e ≡ OutOfMemory };

    fn from(_error: AllocFailed<T>) -> LexFault {
        LexFault::OutOfMemory
    }
}
