//! The names of operations, predicates, symbols and strings that tokens write.
ghost use Rattle.std.specs.Prelude.{◌≡◌, map};
ghost use Rattle.module_grammar.specs.Tokens.{is_name_of, kind_among, among, predicates, predicate_of, word_of};
ghost use Rattle.module_grammar.specs.Rules.{kinds_at};
ghost use Rattle.op_table.specs.Rows.{all_kinds};

use crate::state::TextToken;
use crate::symbols::Keyword;
use ir_forms::{Level, OpKind, Pred};

/// Whether the text names the kind. Calls and returns may be written without the dialect.
pub(crate) fn is_name_of(kind: OpKind, text: &[u8]) -> bool
    ensures { result ≡ is_name_of kind text.now }
{
    match kind {
        OpKind::FuncCall => text == b"call".as_slice() || text == b"func.call".as_slice(),
        OpKind::FuncReturn => text == b"return".as_slice() || text == b"func.return".as_slice(),
        _ => text == kind.name().as_bytes(),
    }
}

/// The kind that the text names. Calls and returns may be written without the dialect.
#[tactic(auto, using(crate::proofs::NamedKinds::named_call, crate::proofs::NamedKinds::named_return, crate::proofs::NamedKinds::named_found, crate::proofs::NamedKinds::named_none))]
pub fn kind_of(text: &[u8]) -> Option<OpKind>
    ensures { result ≡ kind_among all_kinds text.now }
{
    if text == b"call".as_slice() {
        return Some(OpKind::FuncCall);
    }
    if text == b"return".as_slice() {
        return Some(OpKind::FuncReturn);
    }
    match std::str::from_utf8(text) {
        Ok(name) => op_table::find(name),
        Err(_) => None,
    }
}

/// The kind that the text names, where bodies of the level may hold it.
#[tactic(auto, using(crate::proofs::NamedKinds::kept_at))]
pub fn kind_at(level: Level, text: &[u8]) -> Option<OpKind>
    ensures { result ≡ kind_among (kinds_at level) text.now }
{
    op_table::finds_in_bodies();
    match kind_of(text) {
        Some(kind) if kind.stands_in_body(level) => Some(kind),
        _ => None,
    }
}

/// The value of the first of these words that is the text.
pub(crate) fn among<T: Copy>(words: &[(&'static str, T)], text: &[u8]) -> Option<T>
    ensures { result ≡ among (map (λ w. (w.0.now, w.1)) words.now) text.now }
{
    for word in words {
        if text == word.0.as_bytes() {
            return Some(word.1);
        }
    }
    None
}

/// The bytes of a word.
pub(crate) fn word_of(keyword: Keyword) -> &'static str
    ensures { result.now ≡ word_of keyword }
{
    match keyword {
        Keyword::As => "as",
        Keyword::Attributes => "attributes",
        Keyword::Do => "do",
        Keyword::Else => "else",
        Keyword::False => "false",
        Keyword::Func => "func.func",
        Keyword::IterArgs => "iter_args",
        Keyword::Loc => "loc",
        Keyword::Module => "module",
        Keyword::Private => "private",
        Keyword::Public => "public",
        Keyword::Step => "step",
        Keyword::To => "to",
        Keyword::True => "true",
    }
}

impl<'a> TextToken<'a> {
    pub fn predicate(&self) -> Option<Pred>
        ensures { result ≡ predicate_of self.now }
    {
        among(
            &[
                ("eq", Pred::Eq),
                ("ne", Pred::Ne),
                ("slt", Pred::Slt),
                ("sle", Pred::Sle),
                ("sgt", Pred::Sgt),
                ("sge", Pred::Sge),
                ("ult", Pred::Ult),
                ("ule", Pred::Ule),
                ("ugt", Pred::Ugt),
                ("uge", Pred::Uge),
            ],
            self.text.as_slice(),
        )
    }
}
