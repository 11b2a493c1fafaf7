//! The kinds of instructions that names and states allow.
ghost use Rattle.std.specs.Prelude.{◌≡◌, ◌&&◌, length};
ghost use Rattle.op_table.specs.Rows.{all_kinds, row_of};
ghost use Rattle.module_grammar.specs.Tokens.{is_name_of, kind_among};
ghost use Rattle.low_grammar.specs.Rules.{has_results};
ghost use Rattle.low_reader.specs.Choices.{stands_in, kind_here};

use ir_forms::OpKind;
use low_forms::{LowKind, low_row};
use low_grammar::State;
use mlir_lex::TokenKind;
use module_grammar::TextToken;
use op_table::{Count, row};

/// Whether the text names the kind. Calls and returns may be written without the dialect.
pub fn is_name_of(kind: OpKind, text: &[u8]) -> bool
    ensures { result ≡ is_name_of kind text.now }
{
    match kind {
        OpKind::FuncCall => text == b"call".as_slice() || text == b"func.call".as_slice(),
        OpKind::FuncReturn => text == b"return".as_slice() || text == b"func.return".as_slice(),
        _ => text == kind.name().as_bytes(),
    }
}

/// The kind that the text names.
#[tactic(auto, using(crate::proofs::OneKind::named_call, crate::proofs::OneKind::named_return, crate::proofs::OneKind::named_found, crate::proofs::OneKind::named_none))]
fn kind_of(text: &[u8]) -> Option<OpKind>
    ensures { result ≡ kind_among all_kinds text.now }
{
    if text == b"call".as_slice() {
        return Some(OpKind::FuncCall);
    }
    if text == b"return".as_slice() {
        return Some(OpKind::FuncReturn);
    }
    match std::str::from_utf8(text) {
        Ok(name) => op_table::find(name),
        Err(_) => None,
    }
}

/// How many results the kind has.
fn results_of(kind: OpKind) -> Count
    ensures { result ≡ (row_of kind).results }
{
    row(kind).results
}

/// Whether an instruction of the kind has so many results.
pub fn has_results(kind: OpKind, results: usize) -> bool
    ensures { result ≡ has_results (row_of kind).results results }
{
    match results_of(kind) {
        Count::Exactly(count) => results == count as usize,
        Count::Any => true,
    }
}

/// Whether lowered code may hold the kind, with as many results as were read.
fn stands_in(state: &State, kind: OpKind) -> bool
    ensures { result ≡ stands_in state.now kind }
{
    low_row(LowKind::Row(kind)).stands && has_results(kind, state.instr.results.len())
}

/// The kind whose form the token begins.
pub fn kind_here(state: &State, token: &TextToken) -> Option<OpKind>
    ensures { result ≡ kind_here state.now token.now }
{
    if !matches!(token.kind, TokenKind::Name) {
        return None;
    }
    match kind_of(token.text.as_slice()) {
        Some(kind) if stands_in(state, kind) => Some(kind),
        _ => None,
    }
}
