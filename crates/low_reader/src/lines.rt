//! The line of a rule that a token begins, put on a stack.
ghost use Rattle.std.specs.Prelude.{◌≡◌, ◌++◌, IfOk, OnOk, reverse};
ghost use Rattle.op_table.specs.Rows.{is_terminator};
ghost use Rattle.rule_machine.specs.Table.{first_line, line_at};
ghost use Rattle.rule_machine.specs.Stacks.{IsPushed};
ghost use Rattle.low_grammar.specs.Rules.{grammar, parts, ends};
ghost use Rattle.low_reader.specs.Choices.{form_lines, line_of_kind, IsRowAt};

use crate::classes::accepts;
use crate::forms::{ends, parts};
use crate::kinds::kind_here;
use crate::piece::push_pieces;
use crate::rows::{Row, rows};
use crate::table::GrammarSymbol;
use ir_forms::OpKind;
use lists::Items;
use low_grammar::{Class, Rule, State};
use module_grammar::TextToken;
use std::alloc::{AllocError, Global};

/// The line of the rule that the token begins, where it is none of a form.
fn row_at(
    alloc: Global,
    rule: Rule,
    state: &State,
    token: &TextToken,
) -> Result<Option<Row>, AllocError>
    ensures { IfOk result (λ row. IsRowAt rule state.now token.now row) }
{
    for row in rows(rule) {
        if accepts(alloc, row.first, state, token)? {
            return Ok(Some(*row));
        }
    }
    Ok(None)
}

/// The kind whose form is the line of the rule that the token begins.
#[tactic(auto, using(crate::proofs::FormLines::form_at))]
fn form_at(rule: Rule, state: &State, token: &TextToken) -> Option<OpKind>
    ensures { first_line grammar (form_lines rule) state.now token.now ≡ line_of_kind result }
{
    op_table::has_distinct_names();
    match rule {
        Rule::Instrs | Rule::Form => kind_here(state, token),
        _ => None,
    }
}

/// Puts what follows the name of an instruction on a stack.
fn push_form(stack: &mut Items<GrammarSymbol>, kind: OpKind) -> Result<(), AllocError>
    ensures { OnOk result (reverse stack.new ≡ (parts kind ++ ends (is_terminator kind)) ++ reverse stack.old) }
{
    push_pieces(stack, ends(kind.is_terminator()))?;
    push_pieces(stack, parts(kind))
}

/// Puts what follows the word of the rule's line that the token begins on a stack, and gives the class of that word.
#[tactic(auto, using(crate::proofs::Pushed::row_pushed, crate::proofs::Pushed::form_pushed))]
pub fn push_line(
    alloc: Global,
    rule: Rule,
    state: &State,
    token: &TextToken,
    stack: &mut Items<GrammarSymbol>,
) -> Result<Option<Class>, AllocError>
    ensures { IfOk result (λ found. IsPushed (line_at grammar rule state.now token.now) found stack.old stack.new) }
{
    if let Some(row) = row_at(alloc, rule, state, token)? {
        push_pieces(stack, row.after)?;
        return Ok(Some(row.first));
    }
    match form_at(rule, state, token) {
        Some(kind) => {
            push_form(stack, kind)?;
            Ok(Some(Class::OpName(kind)))
        }
        None => Ok(None),
    }
}
