//! The tokens of a text with their bytes, as the grammar reads them. No byte is copied.
ghost use Rattle.std.specs.Prelude.{◌≡◌, ◌≤◌, length, IfOk};
ghost use Rattle.mlir_lex.specs.Answer.{AreWithin};
ghost use Rattle.mlir_text.specs.Tokens as spec;

use mlir_lex::Token;
use module_grammar::{Bytes, TextToken};
use std::alloc::{AllocError, Global};

/// A token with its bytes. `end` is where the one before ends.
fn text_token_of<'a>(bytes: &'a [u8], end: Option<u32>, token: Token) -> TextToken<'a>
    requires start { token.start ≤ token.end }
    requires end { token.end ≤ length bytes.now }
    ensures { result ≡ spec.text_token_of bytes.now end token }
{
    TextToken {
        kind: token.kind,
        text: Bytes::new(&bytes[token.start as usize..token.end as usize]),
        at: token.start,
        joined: end == Some(token.start),
    }
}

/// The tokens with their bytes. Each knows whether it follows at once on the one before.
pub fn text_tokens_of<'a>(
    alloc: Global,
    bytes: &'a [u8],
    tokens: &[Token],
) -> Result<Vec<TextToken<'a>>, AllocError>
    requires { AreWithin tokens.now (length bytes.now) }
    ensures { IfOk result (λ text_tokens. text_tokens.items ≡ spec.text_tokens_of bytes.now tokens.now) }
{
    let mut text_tokens = Vec::with_capacity(alloc, tokens.len())?;
    let mut end = None;
    for token in tokens {
        text_tokens.push(text_token_of(bytes, end, *token))?;
        end = Some(token.end);
    }
    Ok(text_tokens)
}
