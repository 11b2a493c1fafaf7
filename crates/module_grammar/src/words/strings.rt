//! What strings and symbols say.
ghost use Rattle.std.specs.Prelude.{◌≡◌, false, None, IfOk};
ghost use Rattle.module_grammar.specs.Tokens.{hex_byte, digit_of, short_escape, said, string_of, symbol_of};

use crate::state::TextToken;
use crate::words::numbers::digit_of;
use lists::Items;
use mlir_lex::TokenKind;
use std::alloc::{AllocError, Global};

/// The byte that two hexadecimal digits write.
fn hex_byte(high: u8, low: u8) -> u8
    ensures { result ≡ hex_byte high low }
{
    ((digit_of(high) * 16 + digit_of(low)) % 256) as u8
}

/// What an escape of one byte stands for.
fn short_escape(byte: u8) -> Option<u8>
    ensures { result ≡ short_escape byte }
{
    match byte {
        34 => Some(34),
        92 => Some(92),
        110 => Some(10),
        116 => Some(9),
        _ => None,
    }
}

/// The bytes that what stands before the closing quote says.
fn said(alloc: Global, text: &[u8]) -> Result<Items<u8>, AllocError>
    ensures { IfOk result (λ bytes. bytes ≡ said text.now false None) }
{
    let mut bytes = Items::new(alloc);
    let mut hidden = false;
    let mut first: Option<u8> = None;
    for byte in text {
        match first {
            Some(high) => {
                bytes.push(hex_byte(high, *byte))?;
                first = None;
                hidden = false;
            }
            None if hidden => {
                hidden = false;
                match short_escape(*byte) {
                    Some(short) => bytes.push(short)?,
                    None => first = Some(*byte),
                }
            }
            None => {
                if *byte == 92 {
                    hidden = true;
                } else if *byte == 34 {
                    return Ok(bytes);
                } else {
                    bytes.push(*byte)?;
                }
            }
        }
    }
    Ok(bytes)
}

impl<'a> TextToken<'a> {
    /// What a string says.
    pub fn string(&self, alloc: Global) -> Result<Items<u8>, AllocError>
        ensures { IfOk result (λ bytes. bytes ≡ string_of self.now.text) }
    {
        said(alloc, self.text.as_slice().get(1..).unwrap_or(&[]))
    }

    /// The bytes of a symbol, without `@` and quotes.
    pub fn symbol(&self, alloc: Global) -> Result<Items<u8>, AllocError>
        ensures { IfOk result (λ bytes. bytes ≡ symbol_of self.now) }
    {
        let text = self.text.as_slice().get(1..).unwrap_or(&[]);
        match self.kind {
            TokenKind::SymbolText => said(alloc, text.get(1..).unwrap_or(&[])),
            _ => Items::from_slice(alloc, text),
        }
    }
}
