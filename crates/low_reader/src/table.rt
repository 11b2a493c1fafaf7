//! The table of lowered texts, for the machine.
ghost use Rattle.std.specs.Prelude.{◌≡◌, IfOk, OnOk};
ghost use Rattle.rule_machine.specs.Table.{line_at};
ghost use Rattle.rule_machine.specs.Stacks.{IsPushed};
ghost use Rattle.low_grammar.specs.Rules.{grammar, may_end, reads};

use crate::classes::accepts;
use crate::dispatch::do_act;
use crate::lines::push_line;
use lists::Items;
use low_grammar::{Act, Class, Rule, State};
use module_grammar::TextToken;
use rule_machine::{Rules, Symbol};
use std::alloc::{AllocError, Global};

/// What the lines of the rules are made of.
pub type GrammarSymbol = Symbol<Class, Rule, Act>;

/// Whether the rule may be left out.
fn may_end(rule: Rule) -> bool
    ensures { result ≡ may_end rule }
{
    !matches!(
        rule,
        Rule::Dict
            | Rule::Instrs
            | Rule::Form
            | Rule::NextBlock
            | Rule::Literal
            | Rule::Type
            | Rule::ResultTypes
            | Rule::OwedType
            | Rule::CallResults
    )
}

/// What a word makes of the state.
fn read<'a>(class: Class, token: &TextToken<'a>, state: &mut State<'a>)
    ensures { state.new ≡ reads class token.now state.old }
{
    state.last = token.copy();
    if let Class::OpName(kind) = class {
        state.instr.kind = kind;
    }
}

/// The table of lowered texts.
#[derive(Clone, Copy)]
pub struct LowTable;

impl<'a> Rules<Class, Rule, Act, TextToken<'a>, State<'a>> for LowTable {
    ghost table = { λ _. grammar };

    fn may_end(&self, rule: Rule) -> bool
        ensures { result ≡ grammar.may_end rule }
    {
        may_end(rule)
    }

    fn accepts(
        &self,
        alloc: Global,
        class: Class,
        state: &State<'a>,
        token: &TextToken<'a>,
    ) -> Result<bool, AllocError>
        ensures { IfOk result (λ accepted. accepted ≡ grammar.accepts class state.now token.now) }
    {
        accepts(alloc, class, state, token)
    }

    fn push_line(
        &self,
        alloc: Global,
        rule: Rule,
        state: &State<'a>,
        token: &TextToken<'a>,
        stack: &mut Items<GrammarSymbol>,
    ) -> Result<Option<Class>, AllocError>
        ensures { IfOk result (λ found. IsPushed (line_at grammar rule state.now token.now) found stack.old stack.new) }
    {
        push_line(alloc, rule, state, token, stack)
    }

    fn read(
        &self,
        _alloc: Global,
        class: Class,
        token: &TextToken<'a>,
        state: &mut State<'a>,
    ) -> Result<(), AllocError>
        ensures { OnOk result (state.new ≡ grammar.reads class token.now state.old) }
    {
        read(class, token, state);
        Ok(())
    }

    fn act(&self, alloc: Global, action: Act, state: &mut State<'a>) -> Result<(), AllocError>
        ensures { OnOk result (state.new ≡ grammar.does action state.old) }
    {
        do_act(alloc, action, state)
    }
}
