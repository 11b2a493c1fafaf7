//! The machine: a stack of symbols that one token after another takes down and builds up.
ghost use Rattle.std.specs.Prelude.{◌≡◌, ◌++◌, IfOk, OnOk, reverse};
ghost use Rattle.rule_machine.specs.Stacks.{IsStep, IsEnd};

use crate::rules::Rules;
use crate::symbol::Symbol;
use lists::Items;
use std::alloc::{AllocError, Global};

/// Puts symbols on a stack, the first on top.
///
/// # Errors
///
/// Where there is no memory.
#[tactic(auto, using(crate::proofs::Stacks::reverse_pushed))]
pub fn push_all<C: Copy, R: Copy, A: Copy>(
    stack: &mut Items<Symbol<C, R, A>>,
    symbols: &[Symbol<C, R, A>],
) -> Result<(), AllocError>
    ensures { OnOk result (reverse stack.new ≡ symbols.now ++ reverse stack.old) }
{
    let mut at = symbols.len();
    while at > 0 {
        at -= 1;
        stack.push(symbols[at])?;
    }
    Ok(())
}

/// Takes a token, and answers whether it fits. Where it doesn't, or without memory, stack and state are of no more use.
///
/// # Errors
///
/// Where there is no memory.
#[tactic(auto, using(crate::proofs::Stacks::reverse_pushed))]
pub fn step<C: Copy, R: Copy, A: Copy, T, S, G: Rules<C, R, A, T, S>>(
    alloc: Global,
    rules: &G,
    stack: &mut Items<Symbol<C, R, A>>,
    state: &mut S,
    token: &T,
) -> Result<bool, AllocError>
    ensures { IfOk result (λ went. IsStep (G.table rules.now) stack.old state.old token.now went stack.new state.new) }
{
    while let Some(symbol) = stack.pop() {
        match symbol {
            Symbol::Do(action) => rules.act(alloc, action, state)?,
            Symbol::Word(class) => {
                if !rules.accepts(alloc, class, state, token)? {
                    return Ok(false);
                }
                rules.read(alloc, class, token, state)?;
                return Ok(true);
            }
            Symbol::Rule(rule) => {
                if let Some(class) = rules.push_line(alloc, rule, state, token, stack)? {
                    rules.read(alloc, class, token, state)?;
                    return Ok(true);
                }
                if !rules.may_end(rule) {
                    return Ok(false);
                }
            }
        }
    }
    Ok(false)
}

/// Whether a text may end behind the last token. Where it may not, or without memory, stack and state are of no more use.
///
/// # Errors
///
/// Where there is no memory.
#[tactic(auto, using(crate::proofs::Stacks::reverse_pushed))]
pub fn close<C: Copy, R: Copy, A: Copy, T, S, G: Rules<C, R, A, T, S>>(
    alloc: Global,
    rules: &G,
    stack: &mut Items<Symbol<C, R, A>>,
    state: &mut S,
) -> Result<bool, AllocError>
    ensures { IfOk result (λ ended. IsEnd (G.table rules.now) stack.old state.old ended state.new) }
{
    while let Some(symbol) = stack.pop() {
        match symbol {
            Symbol::Do(action) => rules.act(alloc, action, state)?,
            Symbol::Word(_) => return Ok(false),
            Symbol::Rule(rule) => {
                if !rules.may_end(rule) {
                    return Ok(false);
                }
            }
        }
    }
    Ok(true)
}
