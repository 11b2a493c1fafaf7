//! Strings in double quotes.

ghost use Rattle.std.specs.Prelude.{◌≡◌, ◌<◌, ◌≤◌, ◌^◌, length, drop, IfSome, false};
ghost use Rattle.mlir_lex.specs.Grammar as grammar;
ghost use Rattle.mlir_lex.specs.Scan as spec;
ghost use Rattle.mlir_lex.specs.declared.strings.Escape.TheVariants as escape;

use crate::bytes::{ByteClass, byte_at};

/// How far an escape has come.
#[derive(Clone, Copy)]
pub enum Escape {
    Outside,
    /// After its backslash.
    Begun,
    /// After the first of two hexadecimal digits.
    Half,
    /// It isn't one of the list.
    Unlisted,
}

impl Escape {
    #[tactic(auto, unfolding(crate::specs::Grammar::after))]
    fn after(self, byte: u8) -> Escape
        ensures { result ≡ grammar.after self byte }
    {
        match self {
            Escape::Outside => {
                if byte == b'\\' {
                    Escape::Begun
                } else {
                    Escape::Outside
                }
            }
            Escape::Begun => {
                if ByteClass::ShortEscape.has(byte) {
                    Escape::Outside
                } else if ByteClass::HexDigit.has(byte) {
                    Escape::Half
                } else {
                    Escape::Unlisted
                }
            }
            Escape::Half => {
                if ByteClass::HexDigit.has(byte) {
                    Escape::Outside
                } else {
                    Escape::Unlisted
                }
            }
            Escape::Unlisted => Escape::Unlisted,
        }
    }

    fn is_over(self) -> bool
        ensures { result ≡ grammar.is_over self }
    {
        matches!(self, Escape::Outside)
    }
}

fn escapes_well(text: &[u8]) -> bool
    ensures { result ≡ grammar.escapes_well text.now escape.Outside }
{
    let mut escape = Escape::Outside;
    for byte in text {
        escape = escape.after(*byte);
    }
    escape.is_over()
}

/// The place after the closing quote, from the place after the opening one on.
fn quote_end(text: &[u8], from: usize) -> Option<usize>
    requires { from ≤ length text.now }
    ensures value { result ≡ spec.quote_end (drop from text.now) false from }
    ensures within { IfSome result (λ end. (from < end) × (end ≤ length text.now)) }
{
    let mut is_hidden = false;
    let mut at = from;
    while at < text.len() {
        let byte = text[at];
        at += 1;
        if byte == b'\n' {
            return None;
        }
        if byte == b'"' && !is_hidden {
            return Some(at);
        }
        is_hidden = byte == b'\\' && !is_hidden;
    }
    None
}

/// The length of what a quote at the front encloses, with its quotes.
pub fn quoted_len(text: &[u8]) -> Option<usize>
    ensures value { result ≡ spec.quoted_len text.now }
    ensures within { IfSome result (λ end. (1 < end) × (end ≤ length text.now)) }
{
    if byte_at(text, 0) == b'"' {
        quote_end(text, 1)
    } else {
        None
    }
}

/// The length of the string at the front.
pub fn string_len(text: &[u8]) -> Option<usize>
    ensures value { result ≡ spec.string_len text.now }
    ensures within { IfSome result (λ end. (1 < end) × (end ≤ length text.now)) }
{
    let end = quoted_len(text)?;
    if escapes_well(&text[..end]) {
        Some(end)
    } else {
        None
    }
}
