//! Which tokens are of which class.
ghost use Rattle.std.specs.Prelude.{◌≡◌, ◌&&◌, IfOk, bytes_eq};
ghost use Rattle.module_grammar.specs.Tokens.{is_up_to, is_number_kind, number_of};
ghost use Rattle.module_grammar.specs.Rules.{is_byte, is_bracket_byte, is_inner};
ghost use Rattle.low_grammar.specs.State.{is_among, all_among};
ghost use Rattle.low_grammar.specs.Rules.{is_of, allows, word_of};
ghost use Rattle.low_reader.specs.Choices.{IsTypeClass};

use crate::kinds::{has_results, is_name_of};
use crate::types::low_type;
use ir_forms::Ty;
use low_grammar::{Class, Keyword, NameText, State};
use mlir_lex::TokenKind;
use module_grammar::{Bytes, TextToken};
use name_lists::NameList;
use std::alloc::{AllocError, Global};

/// The bytes of a word.
fn word_of(keyword: Keyword) -> &'static str
    ensures { result.now ≡ word_of keyword }
{
    match keyword {
        Keyword::Attributes => "attributes",
        Keyword::Count => "count",
        Keyword::False => "false",
        Keyword::Func => "func.func",
        Keyword::I64 => "i64",
        Keyword::Module => "module",
        Keyword::Private => "private",
        Keyword::Public => "public",
        Keyword::To => "to",
        Keyword::True => "true",
    }
}

fn is_word(keyword: Keyword, text: &[u8]) -> bool
    ensures { result ≡ bytes_eq text.now (word_of keyword) }
{
    text == word_of(keyword).as_bytes()
}

fn is_byte(byte: u8, kind: TokenKind) -> bool
    ensures { result ≡ is_byte byte kind }
{
    match kind {
        TokenKind::Byte(other) => other == byte,
        _ => false,
    }
}

fn is_bracket(byte: u8) -> bool
    ensures { result ≡ is_bracket_byte byte }
{
    matches!(byte, b'(' | b')' | b'{' | b'}' | b'[' | b']' | b'<' | b'>')
}

fn is_inner(kind: TokenKind) -> bool
    ensures { result ≡ is_inner kind }
{
    match kind {
        TokenKind::Byte(byte) => !is_bracket(byte),
        TokenKind::End => false,
        _ => true,
    }
}

/// Whether the number is there, and at most this one.
fn is_up_to(limit: u64, number: Option<u64>) -> bool
    ensures { result ≡ is_up_to limit number }
{
    match number {
        Some(number) => number <= limit,
        None => false,
    }
}

/// Whether the token is a number up to this one.
fn is_number_up_to(limit: u64, token: &TextToken) -> bool
    ensures { result ≡ (is_number_kind token.now.kind && is_up_to limit (number_of token.now)) }
{
    matches!(token.kind, TokenKind::Digits | TokenKind::Hex) && is_up_to(limit, token.number())
}

/// Whether the token is a type of this class, which is written by one token.
#[tactic(auto, unfolding(low_grammar::specs::Rules::is_of))]
fn is_type_of(alloc: Global, class: Class, token: &TextToken) -> Result<bool, AllocError>
    requires { IsTypeClass class }
    ensures { IfOk result (λ yes. yes ≡ is_of class token.now) }
{
    if !matches!(
        token.kind,
        TokenKind::Name | TokenKind::BangName | TokenKind::Memref
    ) {
        return Ok(false);
    }
    match class {
        Class::PlainType | Class::OnlyPlainType => Ok(low_type(alloc, token)?.is_some()),
        Class::Payload => Ok(token.payload(alloc)?.is_some()),
        Class::MemrefType => Ok(matches!(token.ty(alloc)?, Some(Ty::Memref(_)))),
        Class::GroupType => Ok(matches!(token.ty(alloc)?, Some(Ty::Group))),
        _ => unreachable!(),
    }
}

/// Whether the token is of the class, whatever the state.
#[tactic(auto, unfolding(low_grammar::specs::Rules::is_of))]
fn is_of(alloc: Global, class: Class, token: &TextToken) -> Result<bool, AllocError>
    ensures { IfOk result (λ yes. yes ≡ is_of class token.now) }
{
    let kind = token.kind;
    let text = token.text.as_slice();
    match class {
        Class::Byte(byte) => Ok(is_byte(byte, kind)),
        Class::Arrow => Ok(matches!(kind, TokenKind::Arrow)),
        Class::Key(keyword) => Ok(matches!(kind, TokenKind::Name) && is_word(keyword, text)),
        Class::OpName(op) => Ok(matches!(kind, TokenKind::Name) && is_name_of(op, text)),
        Class::SymbolName => Ok(matches!(kind, TokenKind::SymbolName | TokenKind::SymbolText)),
        Class::Use | Class::Define => Ok(matches!(kind, TokenKind::ValueName)),
        Class::Label | Class::Jump => Ok(matches!(kind, TokenKind::BlockName)),
        Class::Number => Ok(
            matches!(kind, TokenKind::Digits | TokenKind::Hex) && token.number().is_some(),
        ),
        Class::Negated => Ok(is_number_up_to(9_223_372_036_854_775_808, token)),
        Class::Count => Ok(is_number_up_to(4_294_967_295, token)),
        Class::Predicate => Ok(matches!(kind, TokenKind::Name) && token.predicate().is_some()),
        Class::PlainType
        | Class::OnlyPlainType
        | Class::Payload
        | Class::MemrefType
        | Class::GroupType => is_type_of(alloc, class, token),
        Class::ValueType | Class::OnlyValueType => Ok(
            matches!(kind, TokenKind::BangName) && text == b"!async.value".as_slice(),
        ),
        Class::OwedComma => Ok(is_byte(b',', kind)),
        Class::OwedClose => Ok(is_byte(b')', kind)),
        Class::FuncClose => Ok(is_byte(b'}', kind)),
        Class::EntryWord => Ok(is_inner(kind) && !is_byte(b',', kind)),
        Class::AnyWord => Ok(is_inner(kind)),
        Class::End => Ok(matches!(kind, TokenKind::End)),
    }
}

/// Whether one of the names is this one.
#[tactic(auto, using(crate::proofs::Names::among_first))]
fn is_among(names: &NameList<NameText>, text: &[u8]) -> bool
    ensures { result ≡ is_among names.now text.now }
{
    names.first(text).is_some()
}

/// Whether each of the others is one of the names.
fn all_among(names: &NameList<NameText>, sought: &[Bytes]) -> bool
    ensures { result ≡ all_among names.now sought.now }
{
    for name in sought {
        if !is_among(names, name.as_slice()) {
            return false;
        }
    }
    true
}

/// What the state asks of a token of the class besides.
#[tactic(auto, unfolding(low_grammar::specs::Rules::allows))]
fn allows(class: Class, state: &State, token: &TextToken) -> bool
    ensures { result ≡ allows class state.now token.now }
{
    let text = token.text.as_slice();
    match class {
        Class::OpName(kind) => has_results(kind, state.instr.results.len()),
        Class::Define => !is_among(&state.defined, text),
        Class::Label => state.owed == 0 && !is_among(&state.labels, text),
        Class::OnlyPlainType | Class::OnlyValueType => state.owed == 1,
        Class::OwedComma => state.owed > 0,
        Class::OwedClose => state.owed == 0,
        Class::FuncClose => state.owed == 0
            && all_among(&state.defined, state.used.as_slice())
            && all_among(&state.labels, state.jumps.as_slice()),
        _ => true,
    }
}

/// Whether the token is of the class here.
pub fn accepts(
    alloc: Global,
    class: Class,
    state: &State,
    token: &TextToken,
) -> Result<bool, AllocError>
    ensures { IfOk result (λ yes. yes ≡ (is_of class token.now && allows class state.now token.now)) }
{
    let of_class = is_of(alloc, class, token)?;
    Ok(of_class && allows(class, state, token))
}
