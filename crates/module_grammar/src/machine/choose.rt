//! The line of a rule that a token begins.
ghost use Rattle.std.specs.Prelude.{◌≡◌, [], IfOk};
ghost use Rattle.module_grammar.specs.Choices.{IsChosen, form_lines};
ghost use Rattle.module_grammar.specs.Engine.{first_line, line_at};
ghost use Rattle.module_grammar.specs.Rules.{grammar, may_end, ends, form_chosen};

use crate::machine::rows::rows;
use crate::state::{State, TextToken};
use crate::symbols::{Act, Class, Rule, Symbol};
use crate::words::names::kind_at;
use ir_forms::{Level, OpKind};
use mlir_lex::TokenKind;
use std::alloc::{AllocError, Global};

/// A line of a rule: the class of its first word, and what follows that word, in the midst of which the form of an operation
/// may stand.
#[derive(Clone, Copy)]
pub struct Choice {
    pub first: Class,
    pub before: &'static [Symbol],
    pub kind: Option<OpKind>,
    pub after: &'static [Symbol],
}

/// What follows the form of an operation: its end, and the operations after it.
fn ends() -> &'static [Symbol]
    ensures { result.now ≡ ends }
{
    &[
        Symbol::Rule(Rule::OpDict),
        Symbol::Rule(Rule::Location),
        Symbol::Do(Act::EndOp),
        Symbol::Rule(Rule::Body),
    ]
}

/// The line of a form whose name the token is.
fn form_choice(
    level: Level,
    token: &TextToken,
    before: &'static [Symbol],
    after: &'static [Symbol],
) -> Option<Choice>
    ensures { IsChosen (form_chosen level before.now after.now token.now) result }
{
    if !matches!(token.kind, TokenKind::Name) {
        return None;
    }
    match kind_at(level, token.text.as_slice()) {
        Some(kind) => Some(Choice {
            first: Class::OpName(kind),
            before,
            kind: Some(kind),
            after,
        }),
        None => None,
    }
}

/// Whether the rule may be left out.
pub fn may_end(rule: Rule) -> bool
    ensures { result ≡ may_end rule }
{
    !matches!(
        rule,
        Rule::Type
            | Rule::ResultTypes
            | Rule::Dict
            | Rule::Form
            | Rule::Literal
            | Rule::AfterHeld
            | Rule::AfterHeldColon
            | Rule::Branches
            | Rule::BranchTypes
            | Rule::BranchTypeList
    )
}

impl<'a> State<'a> {
    /// The line of the rule that the token begins by the name of an operation.
    fn form_at(&self, level: Level, rule: Rule, token: &TextToken) -> Option<Choice>
        ensures { IsChosen (first_line (grammar level) (form_lines level rule) self.now token.now) result }
    {
        match rule {
            Rule::Body => form_choice(level, token, &[Symbol::Do(Act::BeginOp)], ends()),
            Rule::Form => form_choice(level, token, &[], &[]),
            _ => None,
        }
    }

    /// The line of the rule that the token begins.
    pub fn line_at(
        &self,
        alloc: Global,
        level: Level,
        rule: Rule,
        token: &TextToken,
    ) -> Result<Option<Choice>, AllocError>
        ensures { IfOk result (λ choice. IsChosen (line_at (grammar level) rule self.now token.now) choice) }
    {
        for row in rows(rule) {
            if self.accepts(alloc, row.first, token)? {
                return Ok(Some(Choice {
                    first: row.first,
                    before: &[],
                    kind: None,
                    after: row.after,
                }));
            }
        }
        Ok(self.form_at(level, rule, token))
    }
}
