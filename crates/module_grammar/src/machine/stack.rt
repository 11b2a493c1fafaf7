//! The machine: a stack of symbols that one token after another takes down and builds up.
ghost use Rattle.std.specs.Prelude.{◌≡◌, ◌++◌, Some, None, IfOk, OnOk, MatchBool, reverse};
ghost use Rattle.module_grammar.specs.Engine.{step, close};
ghost use Rattle.module_grammar.specs.Rules.{grammar};
ghost use Rattle.module_grammar.specs.Choices.{form_of, line_of};
ghost use Rattle.module_grammar.specs.State.{at_start, module_of};
ghost use Rattle.module_grammar.specs.Faults.{settled, refusal, limit_passed};
ghost use Rattle.module_grammar.specs.Machines.{place_of, IsStart, IsClosed};
ghost use Rattle.op_table.specs.declared.rows.Level.TheVariants.{Source};

use crate::acts::forms::form;
use crate::faults::{GrammarFault, TextLimits};
use crate::machine::choose::{Choice, may_end};
use crate::refusals::refusal::Spot;
use crate::state::{DictEntry, OpenBody, OpenFunc, OpenOp, State, TextToken};
use crate::symbols::{Act, Class, Rule, Symbol};
use crate::words::bytes::Bytes;
use ir_forms::{Level, Module, OpKind};
use lists::Items;
use mlir_lex::TokenKind;
use name_lists::NameList;
use std::alloc::{AllocError, Global};
use std::mem;

/// What is left of the symbols, the first last, and the state.
#[derive(Drop)]
pub struct Machine<'a> {
    pub stack: Items<Symbol>,
    pub state: State<'a>,
}

/// Puts symbols on a stack, the first on top.
#[tactic(auto, using(crate::proofs::Stacks::reverse_pushed))]
fn push_all(stack: &mut Items<Symbol>, symbols: &[Symbol]) -> Result<(), AllocError>
    ensures { OnOk result (reverse stack.new ≡ symbols.now ++ reverse stack.old) }
{
    let mut at = symbols.len();
    while at > 0 {
        at -= 1;
        stack.push(symbols[at])?;
    }
    Ok(())
}

/// Puts the symbols of an operation's kind and form on a stack.
#[tactic(auto, using(crate::proofs::Stacks::reverse_pushed))]
fn push_form(stack: &mut Items<Symbol>, kind: Option<OpKind>) -> Result<(), AllocError>
    ensures { OnOk result (reverse stack.new ≡ form_of kind ++ reverse stack.old) }
{
    match kind {
        Some(kind) => {
            push_all(stack, form(kind))?;
            stack.push(Symbol::Do(Act::Kind(kind)))
        }
        None => Ok(()),
    }
}

/// Puts the symbols of a line on a stack.
#[tactic(auto, using(crate::proofs::Stacks::three_pushed))]
fn push_line(stack: &mut Items<Symbol>, choice: Choice) -> Result<(), AllocError>
    ensures { OnOk result (reverse stack.new ≡ (line_of choice).after ++ reverse stack.old) }
{
    push_all(stack, choice.after)?;
    push_form(stack, choice.kind)?;
    push_all(stack, choice.before)
}

impl<'a> State<'a> {
    /// The state before the first token.
    fn start(alloc: Global) -> State<'a>
        ensures { result ≡ at_start }
    {
        State {
            last: TextToken {
                kind: TokenKind::End,
                text: Bytes::new(&[]),
                at: 0,
                joined: false,
            },
            read: Items::new(alloc),
            visible: NameList::new(alloc),
            next: 0,
            used: Bytes::new(&[]),
            begun: 0,
            functions: 0,
            deepest: 0,
            counted: 0,
            op: OpenOp::blank(alloc, 0),
            body: OpenBody::blank(alloc),
            outer: Items::new(alloc),
            held: NameList::new(alloc),
            entry: DictEntry::Fresh,
            entry_at: None,
            func: OpenFunc::blank(alloc, 0),
            funcs: Items::new(alloc),
        }
    }
}

impl<'a> Machine<'a> {
    /// What is left of the symbols, the first first.
    #[tactic(auto, using(crate::proofs::Stacks::turned))]
    pub fn left(&self, alloc: Global) -> Result<Items<Symbol>, AllocError>
        ensures { IfOk result (λ left. left ≡ reverse self.now.stack) }
    {
        let mut left = Items::new(alloc);
        push_all(&mut left, self.stack.as_slice())?;
        Ok(left)
    }

    /// The machine before the first token of a text.
    pub fn start(alloc: Global) -> Result<Machine<'a>, AllocError>
        ensures { IfOk result (λ machine. IsStart machine) }
    {
        let mut stack = Items::new(alloc);
        stack.push(Symbol::Word(Class::End))?;
        stack.push(Symbol::Rule(Rule::Text))?;
        Ok(Machine {
            stack,
            state: State::start(alloc),
        })
    }

    /// Takes a token. Where it doesn't fit the machine is no longer of use.
    #[tactic(auto, using(crate::proofs::Stacks::reverse_pushed))]
    pub fn step(
        &mut self,
        alloc: Global,
        level: Level,
        token: &TextToken<'a>,
    ) -> Result<bool, AllocError>
        ensures { IfOk result (λ went. MatchBool went (step (grammar level) (reverse self.old.stack) self.old.state token.now ≡ Some (place_of self.new)) (step (grammar level) (reverse self.old.stack) self.old.state token.now ≡ None)) }
    {
        while let Some(symbol) = self.stack.pop() {
            match symbol {
                Symbol::Do(act) => self.state.act(alloc, act)?,
                Symbol::Word(class) => {
                    if !self.state.accepts(alloc, class, token)? {
                        return Ok(false);
                    }
                    self.state.last = token.copy();
                    return Ok(true);
                }
                Symbol::Rule(rule) => {
                    if let Some(choice) = self.state.line_at(alloc, level, rule, token)? {
                        push_line(&mut self.stack, choice)?;
                        self.state.last = token.copy();
                        return Ok(true);
                    }
                    if !may_end(rule) {
                        return Ok(false);
                    }
                }
            }
        }
        Ok(false)
    }

    /// Does the acts that stand on top. Without memory the machine is no longer of use.
    #[tactic(auto, using(crate::proofs::Stacks::reverse_pushed))]
    pub fn settle(&mut self, alloc: Global) -> Result<(), AllocError>
        ensures { OnOk result (place_of self.new ≡ settled (reverse self.old.stack) self.old.state) }
    {
        while let Some(symbol) = self.stack.pop() {
            match symbol {
                Symbol::Do(act) => self.state.act(alloc, act)?,
                Symbol::Word(_) | Symbol::Rule(_) => {
                    self.stack.push(symbol)?;
                    return Ok(());
                }
            }
        }
        Ok(())
    }

    /// Whether the text, of any level, is at its end behind the last token. Else, or without memory, the machine is no longer of
    /// use.
    #[tactic(auto, using(crate::proofs::Stacks::reverse_pushed))]
    pub fn close(&mut self, alloc: Global) -> Result<bool, AllocError>
        ensures { IfOk result (λ closed. IsClosed closed (close (grammar Source) (reverse self.old.stack) self.old.state) self.new.state) }
    {
        while let Some(symbol) = self.stack.pop() {
            match symbol {
                Symbol::Do(act) => self.state.act(alloc, act)?,
                Symbol::Word(_) => return Ok(false),
                Symbol::Rule(rule) => {
                    if !may_end(rule) {
                        return Ok(false);
                    }
                }
            }
        }
        Ok(true)
    }

    /// The fault of a token that doesn't fit, before the rest.
    pub(crate) fn refusal(
        &self,
        alloc: Global,
        level: Level,
        limits: &TextLimits,
        token: &TextToken<'a>,
        rest: &[TextToken<'a>],
    ) -> Result<GrammarFault, AllocError>
        ensures { IfOk result (λ fault. fault ≡ refusal limits.now level (reverse self.now.stack) self.now.state token.now rest.now) }
    {
        let left = self.left(alloc)?;
        let spot = Spot {
            level,
            left: left.as_slice(),
            state: &self.state,
            token,
            rest,
        };
        spot.refusal(alloc, limits)
    }

    /// The limit that the last token passes, which leads from this state to the other.
    pub(crate) fn last_limit(&self, limits: &TextLimits, now: &State) -> Option<GrammarFault>
        ensures { result ≡ limit_passed limits.now self.now.state now.now self.now.state.last }
    {
        limits.passed(&self.state, now, &self.state.last)
    }

    /// The functions that were read.
    pub fn take_module(&mut self, alloc: Global) -> Module
        ensures { result ≡ module_of self.old.state }
    {
        Module {
            funcs: mem::replace(&mut self.state.funcs, Items::new(alloc)),
        }
    }
}
