//! What stands at the front of a text.

ghost use Rattle.std.specs.Prelude.{◌≡◌, ◌<◌, ◌≤◌, length, drop, IfSome, true};
ghost use Rattle.mlir_lex.specs.Bytes.{is_in};
ghost use Rattle.mlir_lex.specs.Scan as spec;
ghost use Rattle.mlir_lex.specs.Within.{IsWithin};

use crate::brackets::memref_len;
use crate::bytes::{ByteClass, byte_at, past};
use crate::kinds::TokenKind;
use crate::strings::{quoted_len, string_len};

/// What a byte begins.
#[derive(Clone, Copy)]
pub enum Lead {
    Word,
    Number,
    Signed(TokenKind),
    Symbol,
    Quote,
    Bang,
    Dash,
    Mark(u8),
    Other,
}

#[tactic(auto, unfolding(crate::specs::Scan::lead_of))]
fn lead_of(byte: u8) -> Lead
    ensures { result ≡ spec.lead_of byte }
{
    if ByteClass::NameStart.has(byte) {
        return Lead::Word;
    }
    if ByteClass::Digit.has(byte) {
        return Lead::Number;
    }
    match byte {
        b'%' => Lead::Signed(TokenKind::ValueName),
        b'^' => Lead::Signed(TokenKind::BlockName),
        b'#' => Lead::Signed(TokenKind::HashName),
        b'@' => Lead::Symbol,
        b'"' => Lead::Quote,
        b'!' => Lead::Bang,
        b'-' => Lead::Dash,
        _ if ByteClass::Mark.has(byte) => Lead::Mark(byte),
        _ => Lead::Other,
    }
}

fn word(text: &[u8], closed: &[bool]) -> (TokenKind, usize)
    requires closed { closed.now ≡ spec.closed_at text.now }
    requires some { 0 < length text.now }
    ensures value { result ≡ spec.word text.now (spec.memref_len text.now) }
    ensures within { (0 < result.1) × (result.1 ≤ length text.now) }
{
    match memref_len(text, closed) {
        Some(len) => (TokenKind::Memref, len),
        None => (TokenKind::Name, past(ByteClass::NamePart, text, 1)),
    }
}

fn number(text: &[u8]) -> (TokenKind, usize)
    requires { 0 < length text.now }
    ensures value { result ≡ spec.number text.now }
    ensures within { (0 < result.1) × (result.1 ≤ length text.now) }
{
    if text.starts_with(b"0x") && ByteClass::HexDigit.has(byte_at(text, 2)) {
        (TokenKind::Hex, past(ByteClass::HexDigit, text, 2))
    } else {
        (TokenKind::Digits, past(ByteClass::Digit, text, 1))
    }
}

fn signed_name(kind: TokenKind, text: &[u8]) -> Option<(TokenKind, usize)>
    requires { 0 < length text.now }
    ensures value { result ≡ spec.signed_name kind text.now }
    ensures within { IfSome result (λ t. (0 < t.1) × (t.1 ≤ length text.now)) }
{
    if ByteClass::SuffixPart.has(byte_at(text, 1)) {
        Some((kind, past(ByteClass::SuffixPart, text, 1)))
    } else {
        None
    }
}

fn symbol(text: &[u8]) -> Option<(TokenKind, usize)>
    requires { 0 < length text.now }
    ensures value { result ≡ spec.symbol text.now }
    ensures within { IfSome result (λ t. (0 < t.1) × (t.1 ≤ length text.now)) }
{
    if ByteClass::SuffixPart.has(byte_at(text, 1)) {
        return Some((TokenKind::SymbolName, past(ByteClass::SuffixPart, text, 1)));
    }
    let len = string_len(&text[1..])?;
    Some((TokenKind::SymbolText, len + 1))
}

fn bang_name(text: &[u8]) -> Option<(TokenKind, usize)>
    requires { 0 < length text.now }
    ensures value { result ≡ spec.bang_name text.now }
    ensures within { IfSome result (λ t. (0 < t.1) × (t.1 ≤ length text.now)) }
{
    if ByteClass::NameStart.has(byte_at(text, 1)) {
        Some((TokenKind::BangName, past(ByteClass::NamePart, text, 1)))
    } else {
        None
    }
}

fn dash(text: &[u8]) -> (TokenKind, usize)
    requires { 0 < length text.now }
    ensures value { result ≡ spec.dash text.now }
    ensures within { (0 < result.1) × (result.1 ≤ length text.now) }
{
    if byte_at(text, 1) == b'>' {
        (TokenKind::Arrow, 2)
    } else {
        (TokenKind::Byte(b'-'), 1)
    }
}

/// The longest token at the front: its kind and its length.
#[tactic(auto, unfolding(crate::specs::Scan::front))]
fn front(text: &[u8], closed: &[bool]) -> Option<(TokenKind, usize)>
    requires closed { closed.now ≡ spec.closed_at text.now }
    requires some { 0 < length text.now }
    ensures value { result ≡ spec.front text.now }
    ensures within { IfSome result (λ t. (0 < t.1) × (t.1 ≤ length text.now)) }
{
    match lead_of(text[0]) {
        Lead::Word => Some(word(text, closed)),
        Lead::Number => Some(number(text)),
        Lead::Signed(kind) => signed_name(kind, text),
        Lead::Symbol => symbol(text),
        Lead::Quote => {
            let len = string_len(text)?;
            Some((TokenKind::Text, len))
        }
        Lead::Bang => bang_name(text),
        Lead::Dash => Some(dash(text)),
        Lead::Mark(mark) => Some((TokenKind::Byte(mark), 1)),
        Lead::Other => None,
    }
}

/// What stands at one place, with its length in bytes.
#[derive(Clone, Copy)]
pub enum Item {
    /// A blank or a comment.
    Gap(usize),
    Piece(TokenKind, usize),
    OpenString,
    BadByte,
}

/// What stands at the front, where `after_digits` says whether a token of digits ends there.
#[tactic(auto, unfolding(crate::specs::Scan::item_of))]
pub fn item_of(text: &[u8], closed: &[bool], after_digits: bool) -> Item
    requires closed { closed.now ≡ spec.closed_at text.now }
    requires some { 0 < length text.now }
    ensures value { result ≡ spec.item_of after_digits text.now }
    ensures within { IsWithin text.now result }
{
    if ByteClass::Blank.has(text[0]) {
        return Item::Gap(1);
    }
    if text.starts_with(b"//") {
        return Item::Gap(past(ByteClass::Line, text, 2));
    }
    if after_digits && text[0] == b'.' {
        return Item::Piece(TokenKind::Byte(b'.'), 1);
    }
    match front(text, closed) {
        Some((kind, len)) => Item::Piece(kind, len),
        None if text[0] == b'"' && quoted_len(text).is_none() => Item::OpenString,
        None => Item::BadByte,
    }
}
