//! Which tokens are of which class.
ghost use Rattle.std.specs.Prelude.{◌≡◌, ◌&&◌, true, IfOk, bytes_eq};
ghost use Rattle.module_grammar.specs.Tokens.{word_of, is_index, all_digits, is_up_to};
ghost use Rattle.module_grammar.specs.Rules.{is_of, allows, none_named, are_distinct, are_new, is_byte, is_bracket_byte, is_inner, is_one_type};
ghost use Rattle.module_grammar.specs.State.{is_named, param_names, is_wide};

use crate::names::is_named;
use crate::state::{DictEntry, Name, Param, State, TextToken};
use crate::symbols::{Class, Keyword};
use crate::words::names::{is_name_of, word_of};
use ir_forms::{Ty, Width};
use mlir_lex::TokenKind;
use name_lists::NameList;
use std::alloc::{AllocError, Global};

fn is_word(keyword: Keyword, text: &[u8]) -> bool
    ensures { result ≡ bytes_eq text.now (word_of keyword) }
{
    text == word_of(keyword).as_bytes()
}

pub(crate) fn is_byte(byte: u8, kind: TokenKind) -> bool
    ensures { result ≡ is_byte byte kind }
{
    match kind {
        TokenKind::Byte(other) => other == byte,
        _ => false,
    }
}

fn is_bracket(byte: u8) -> bool
    ensures { result ≡ is_bracket_byte byte }
{
    matches!(byte, b'(' | b')' | b'{' | b'}' | b'[' | b']' | b'<' | b'>')
}

fn is_inner(kind: TokenKind) -> bool
    ensures { result ≡ is_inner kind }
{
    match kind {
        TokenKind::Byte(byte) => !is_bracket(byte),
        TokenKind::End => false,
        _ => true,
    }
}

fn all_digits(text: &[u8]) -> bool
    ensures { result ≡ all_digits text.now }
{
    for byte in text {
        if *byte < 48 || *byte > 57 {
            return false;
        }
    }
    true
}

/// `#` and digits.
fn is_index(text: &[u8]) -> bool
    ensures { result ≡ is_index text.now }
{
    text.len() >= 2 && all_digits(&text[1..])
}

/// Whether the token is a type of this class, which is written by one token.
#[tactic(auto, unfolding(crate::specs::Rules::is_of))]
fn is_type_of(alloc: Global, class: Class, token: &TextToken) -> Result<bool, AllocError>
    requires { is_one_type class ≡ true }
    ensures { IfOk result (λ yes. yes ≡ is_of class token.now) }
{
    if !matches!(
        token.kind,
        TokenKind::Name | TokenKind::BangName | TokenKind::Memref
    ) {
        return Ok(false);
    }
    let ty = token.ty(alloc)?;
    match class {
        Class::PlainType => Ok(ty.is_some()),
        Class::Payload => Ok(matches!(ty, Some(Ty::Int(_) | Ty::Index | Ty::Memref(_)))),
        Class::MemrefType => Ok(matches!(ty, Some(Ty::Memref(_)))),
        Class::GroupType => Ok(matches!(ty, Some(Ty::Group))),
        Class::TruthType => Ok(matches!(ty, Some(Ty::Int(Width::W1)))),
        _ => unreachable!(),
    }
}

/// Whether none of the names is that of one of the tokens.
fn none_named(names: &NameList<Name>, tokens: &[TextToken]) -> bool
    ensures { result ≡ none_named names.now tokens.now }
{
    for token in tokens {
        if is_named(names, token.text.as_slice()) {
            return false;
        }
    }
    true
}

/// Whether no text stands twice among the tokens.
fn are_distinct(tokens: &NameList<TextToken>) -> bool
    ensures { result ≡ are_distinct tokens.now }
{
    let mut at = 0;
    for token in tokens.as_slice() {
        if tokens.first(token.text.as_slice()) != Some(at) {
            return false;
        }
        at += 1;
    }
    true
}

/// Whether one of the parameters has this name.
#[tactic(auto, using(crate::proofs::Named::param_first))]
fn is_param(params: &NameList<Param>, text: &[u8]) -> bool
    ensures { result ≡ is_named (param_names params.now) text.now }
{
    params.first(text).is_some()
}

impl DictEntry {
    /// Whether the entry is whole, and its number isn't below 2^32.
    fn is_wide(self) -> bool
        ensures { result ≡ is_wide self }
    {
        match self {
            DictEntry::Whole {
                number: Some(number),
                at: _,
            } => number >= 4_294_967_296,
            DictEntry::Whole {
                number: None,
                at: _,
            } => true,
            _ => false,
        }
    }
}

/// Whether the token is of the class, whatever the state.
#[tactic(auto, unfolding(crate::specs::Rules::is_of))]
pub fn is_of(alloc: Global, class: Class, token: &TextToken) -> Result<bool, AllocError>
    ensures { IfOk result (λ yes. yes ≡ is_of class token.now) }
{
    let kind = token.kind;
    let text = token.text.as_slice();
    match class {
        Class::Byte(byte) => Ok(is_byte(byte, kind)),
        Class::Arrow => Ok(matches!(kind, TokenKind::Arrow)),
        Class::Key(keyword) => Ok(matches!(kind, TokenKind::Name) && is_word(keyword, text)),
        Class::OpName(op) => Ok(matches!(kind, TokenKind::Name) && is_name_of(op, text)),
        Class::SymbolName => Ok(matches!(kind, TokenKind::SymbolName | TokenKind::SymbolText)),
        Class::Message => Ok(matches!(kind, TokenKind::Text)),
        Class::Use | Class::Param | Class::Result => Ok(matches!(kind, TokenKind::ValueName)),
        Class::Index => Ok(matches!(kind, TokenKind::HashName) && token.joined && is_index(text)),
        Class::Number | Class::HeldNumber => Ok(
            matches!(kind, TokenKind::Digits | TokenKind::Hex) && token.number().is_some(),
        ),
        Class::Negated => Ok(
            matches!(kind, TokenKind::Digits | TokenKind::Hex) && is_negatable(token.number()),
        ),
        Class::Predicate => Ok(matches!(kind, TokenKind::Name) && token.predicate().is_some()),
        Class::PlainType
        | Class::Payload
        | Class::MemrefType
        | Class::GroupType
        | Class::TruthType => is_type_of(alloc, class, token),
        Class::ValueType => Ok(
            matches!(kind, TokenKind::BangName) && text == b"!async.value".as_slice(),
        ),
        Class::BlockName => Ok(matches!(kind, TokenKind::BlockName)),
        Class::HeldEquals => Ok(is_byte(b'=', kind)),
        Class::EntryComma => Ok(is_byte(b',', kind)),
        Class::EntryClose => Ok(is_byte(b'}', kind)),
        Class::EntryWord => Ok(is_inner(kind) && !is_byte(b',', kind)),
        Class::AnyWord => Ok(is_inner(kind)),
        Class::End => Ok(matches!(kind, TokenKind::End)),
    }
}

/// Whether the number is at most 2^63.
fn is_negatable(number: Option<u64>) -> bool
    ensures { result ≡ is_up_to 9223372036854775808 number }
{
    match number {
        Some(number) => number <= 9_223_372_036_854_775_808,
        None => false,
    }
}

impl<'a> State<'a> {
    /// Whether the names held are new: none is visible or a result of the open operation, and none stands twice.
    pub fn holds_new(&self) -> bool
        ensures { result ≡ are_new self.now self.now.held }
    {
        let held = self.held.as_slice();
        none_named(&self.visible, held)
            && none_named(&self.op.results, held)
            && are_distinct(&self.held)
    }

    /// What the state asks of a token of the class besides.
    #[tactic(auto, unfolding(crate::specs::Rules::allows), using(crate::proofs::Named::named_either))]
    pub fn allows(&self, class: Class, token: &TextToken) -> bool
        ensures { result ≡ allows class self.now token.now }
    {
        let text = token.text.as_slice();
        match class {
            Class::Param => !(is_named(&self.visible, text) || is_param(&self.op.params, text)),
            Class::Result => !(is_named(&self.visible, text) || is_named(&self.op.results, text)),
            Class::HeldEquals => self.holds_new(),
            Class::HeldNumber => self.held.len() == 1 && self.holds_new(),
            Class::EntryComma | Class::EntryClose => !self.entry.is_wide(),
            _ => true,
        }
    }

    /// Whether the token is of the class here.
    pub fn accepts(
        &self,
        alloc: Global,
        class: Class,
        token: &TextToken,
    ) -> Result<bool, AllocError>
        ensures { IfOk result (λ yes. yes ≡ (is_of class token.now && allows class self.now token.now)) }
    {
        let of_class = is_of(alloc, class, token)?;
        Ok(of_class && self.allows(class, token))
    }
}
