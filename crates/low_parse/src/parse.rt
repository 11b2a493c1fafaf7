//! Reads a lowered text into its code.
ghost use Rattle.std.specs.Prelude.{◌≡◌, ◌<◌, ◌^◌, length, drop};
ghost use Rattle.low_parse.specs.Texts.{IsParsed, place_of};

use crate::code::code_of;
use crate::fault::LowFault;
use crate::tokens::text_tokens_of;
use low_forms::LowModule;
use low_reader::read_low;
use mlir_lex::LexFault;
use module_grammar::TextToken;
use std::alloc::Global;

/// The byte at which the token at this place begins; where there is none, the end of the text.
fn place_of(bytes: &[u8], tokens: &[TextToken], at: usize) -> u32
    requires { length bytes.now < 2 ^ 32 }
    ensures { result ≡ place_of bytes.now (drop at tokens.now) }
{
    match tokens.get(at) {
        Some(token) => token.at,
        None => bytes.len() as u32,
    }
}

/// Reads a lowered text into its code.
///
/// # Errors
///
/// `Lex` exactly where the bytes are cut into no tokens; else `Syntax` at the first token that the machine refuses; else
/// `TooManyNames` where there are more functions, blocks or registers than numbers for them.
pub fn parse_low(alloc: Global, bytes: &[u8]) -> Result<LowModule, LowFault>
    requires { length bytes.now < 2 ^ 32 }
    ensures { IsParsed bytes.now result }
{
    let tokens = match mlir_lex::tokens(alloc, bytes) {
        Ok(tokens) => tokens,
        Err(LexFault::OutOfMemory) => return Err(LowFault::OutOfMemory),
        Err(fault) => return Err(LowFault::Lex(fault)),
    };
    let text_tokens = text_tokens_of(alloc, bytes, tokens.as_slice())?;
    match read_low(alloc, text_tokens.as_slice())? {
        Ok(funcs) => match code_of(alloc, funcs.as_slice())? {
            Some(code) => Ok(code),
            None => Err(LowFault::TooManyNames),
        },
        Err(at) => Err(LowFault::Syntax {
            at: place_of(bytes, text_tokens.as_slice(), at),
        }),
    }
}
