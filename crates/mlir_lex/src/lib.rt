//! The tokens of an MLIR text.
#![tactic(auto)]

ghost use Rattle.std.specs.Prelude.{◌≡◌, ◌<◌, ◌^◌, length, IfOk, IfErr, Ok, IsUtf8};
ghost use Rattle.mlir_lex.specs.Answer.{AreInOrder, AreTokens, AreWithin, IsFault, Refuses};
ghost use Rattle.mlir_lex.specs.Laws.{OneKind, OneReading, ReadBack};
ghost use Rattle.mlir_lex.specs.Scan.{reading};

mod brackets;
mod bytes;
mod cut;
mod kinds;
mod scan;
mod strings;

pub use kinds::{LexFault, Token, TokenKind};
use std::alloc::Global;

/// Cuts a text into its tokens. Blanks and comments stand between them, and the last token is
/// `End`, at the text's length.
///
/// The longest token is taken at each place. A point is a token only directly after digits.
///
/// # Errors
///
/// `BadUtf8` exactly where the bytes aren't UTF-8, whatever else they have; else the first of
/// `OpenString`, a quote that isn't closed on its line, and `BadByte`, any other byte that begins
/// no token.
pub fn tokens(alloc: Global, bytes: &[u8]) -> Result<Vec<Token>, LexFault>
    requires { length bytes.now < 2 ^ 32 }
    // The tokens are those of the grammar.
    ensures tokens { IfOk result (λ v. AreTokens bytes.now v.items) }
    // The fault is the first one.
    ensures fault { IfErr result (λ e. IsFault bytes.now e) }
    // The same, computed.
    ensures same_tokens { IfOk result (λ v. reading bytes.now ≡ Ok v.items) }
    ensures same_fault { IsUtf8 bytes.now → IfErr result (λ e. Refuses e (reading bytes.now)) }
    // Their spans.
    ensures in_order { IfOk result (λ v. AreInOrder 0 v.items (length bytes.now)) }
    ensures within { IfOk result (λ v. AreWithin v.items (length bytes.now)) }
{
    if let Err(error) = std::str::from_utf8(bytes) {
        return Err(LexFault::BadUtf8 {
            at: error.valid_up_to() as u32,
        });
    }
    let closed = brackets::closed_at(alloc, bytes)?;
    cut::cut(alloc, bytes, &closed)
}

/// A text has one reading by the grammar, and it is the one that is computed.
pub fn one_reading()
    ensures { OneReading }
{}

/// A token with what can't lengthen it behind it is read back as itself.
pub fn read_back()
    ensures { ReadBack }
{}

/// No bytes are a token of two kinds.
pub fn one_kind()
    ensures { OneKind }
{}

#[cfg(test)]
mod tests;
