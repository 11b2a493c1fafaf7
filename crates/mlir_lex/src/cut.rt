//! Cuts a text into its tokens.

ghost use Rattle.std.specs.Prelude.{◌≡◌, ◌<◌, ◌≤◌, ◌^◌, length, IfOk, IfErr, Ok};
ghost use Rattle.mlir_lex.specs.Answer.{Refuses};
ghost use Rattle.mlir_lex.specs.Scan as spec;

use crate::kinds::{LexFault, Token, TokenKind};
use crate::scan::{Item, item_of};
use std::alloc::Global;

pub fn cut(alloc: Global, text: &[u8], closed: &[bool]) -> Result<Vec<Token>, LexFault>
    requires closed { closed.now ≡ spec.closed_at text.now }
    requires short { length text.now < 2 ^ 32 }
    ensures ok { IfOk result (λ v. spec.reading text.now ≡ Ok v.items) }
    ensures err { IfErr result (λ e. Refuses e (spec.reading text.now)) }
{
    let mut tokens = Vec::new(alloc);
    let mut after_digits = false;
    let mut at = 0;
    while at < text.len() {
        match item_of(&text[at..], &closed[at..], after_digits) {
            Item::Gap(len) => {
                at += len;
                after_digits = false;
            }
            Item::Piece(kind, len) => {
                tokens.push(Token {
                    kind,
                    start: at as u32,
                    end: (at + len) as u32,
                })?;
                at += len;
                after_digits = kind.is_digits();
            }
            Item::OpenString => return Err(LexFault::OpenString { at: at as u32 }),
            Item::BadByte => return Err(LexFault::BadByte { at: at as u32 }),
        }
    }
    let end = text.len() as u32;
    tokens.push(Token {
        kind: TokenKind::End,
        start: end,
        end,
    })?;
    Ok(tokens)
}
