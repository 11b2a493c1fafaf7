//! The module that the tokens of a text stand for, or the first fault of the text.
ghost use Rattle.std.specs.Prelude.{◌≡◌, Some, IsSome, IfOk, OnOk, option_map, reverse};
ghost use Rattle.module_grammar.specs.Engine.{close};
ghost use Rattle.module_grammar.specs.Rules.{grammar};
ghost use Rattle.module_grammar.specs.State.{at_start};
ghost use Rattle.module_grammar.specs.Texts.{whole};
ghost use Rattle.module_grammar.specs.Faults.{parsed, reached, refusal, limit_passed, ended, module_or};
ghost use Rattle.module_grammar.specs.Machines.{place_of, IsStart, IsTaken};
ghost use Rattle.module_grammar.specs.Asked.{told};

use crate::faults::{GrammarFault, TextLimits};
use crate::machine::stack::Machine;
use crate::state::{State, TextToken};
use ir_forms::{Level, Module};
use std::alloc::{AllocError, Global};

/// Leads a machine at the start behind these tokens, each of which fits.
fn reach<'a>(
    alloc: Global,
    level: Level,
    tokens: &[TextToken<'a>],
    machine: &mut Machine<'a>,
) -> Result<(), AllocError>
    requires start { IsStart machine.old }
    requires fits { IsSome (reached level whole at_start tokens.now) }
    ensures { OnOk result (reached level whole at_start tokens.now ≡ Some (place_of machine.new)) }
{
    for token in tokens {
        if !machine.step(alloc, level, token)? {
            unreachable!();
        }
        machine.settle(alloc)?;
    }
    Ok(())
}

/// What is asked of the machine behind tokens.
#[derive(Clone, Copy)]
pub(crate) enum Asked<'s, 'a> {
    /// The fault of a token that doesn't fit, before the rest.
    Refusal {
        token: &'s TextToken<'a>,
        rest: &'s [TextToken<'a>],
    },
    /// The limit that a token passes, by which the state is led to `now`.
    Limit {
        now: &'s State<'a>,
        token: &'s TextToken<'a>,
    },
    /// The limit that is passed at the end, by which the state is led to `now`.
    LastLimit {
        now: &'s State<'a>,
    },
}

/// What is asked of a machine at the start, once it is led behind these tokens, each of which fits.
fn fault_over<'a>(
    alloc: Global,
    level: Level,
    limits: &TextLimits,
    tokens: &[TextToken<'a>],
    asked: Asked<'_, 'a>,
    machine: &mut Machine<'a>,
) -> Result<Option<GrammarFault>, AllocError>
    requires start { IsStart machine.old }
    requires fits { IsSome (reached level whole at_start tokens.now) }
    ensures { IfOk result (λ fault. option_map (told limits.now level asked.entry) (reached level whole at_start tokens.now) ≡ Some fault) }
{
    reach(alloc, level, tokens, machine)?;
    match asked {
        Asked::Refusal { token, rest } => {
            let fault = machine.refusal(alloc, level, limits, token, rest)?;
            Ok(Some(fault))
        }
        Asked::Limit { now, token } => Ok(limits.passed(&machine.state, now, token)),
        Asked::LastLimit { now } => Ok(machine.last_limit(limits, now)),
    }
}

/// What is asked of the machine behind these tokens, each of which fits. They are read once more.
#[inline(never)]
fn fault_behind<'a>(
    alloc: Global,
    level: Level,
    limits: &TextLimits,
    tokens: &[TextToken<'a>],
    asked: Asked<'_, 'a>,
) -> Result<Option<GrammarFault>, AllocError>
    requires { IsSome (reached level whole at_start tokens.now) }
    ensures { IfOk result (λ fault. option_map (told limits.now level asked.entry) (reached level whole at_start tokens.now) ≡ Some fault) }
{
    let mut machine = Machine::start(alloc)?;
    fault_over(alloc, level, limits, tokens, asked, &mut machine)
}

/// The fault of a token that doesn't fit between the tokens before it, each of which fits, and the rest.
fn refusal_behind<'a>(
    alloc: Global,
    level: Level,
    limits: &TextLimits,
    tokens: &[TextToken<'a>],
    token: &TextToken<'a>,
    rest: &[TextToken<'a>],
) -> Result<GrammarFault, AllocError>
    requires { IsSome (reached level whole at_start tokens.now) }
    ensures { IfOk result (λ fault. option_map (λ place. refusal limits.now level place.left place.state token.now rest.now) (reached level whole at_start tokens.now) ≡ Some fault) }
{
    match fault_behind(alloc, level, limits, tokens, Asked::Refusal { token, rest })? {
        Some(fault) => Ok(fault),
        None => unreachable!(),
    }
}

/// The limit that a token passes behind these, each of which fits, and by which the state is led to `now`.
#[tactic(auto, using(crate::proofs::Passes::none_passes))]
fn limit_behind<'a>(
    alloc: Global,
    level: Level,
    limits: &TextLimits,
    tokens: &[TextToken<'a>],
    token: &TextToken<'a>,
    now: &State<'a>,
) -> Result<Option<GrammarFault>, AllocError>
    requires { IsSome (reached level whole at_start tokens.now) }
    ensures { IfOk result (λ fault. option_map (λ place. limit_passed limits.now place.state now.now token.now) (reached level whole at_start tokens.now) ≡ Some fault) }
{
    if limits.are_passed(now) {
        fault_behind(alloc, level, limits, tokens, Asked::Limit { now, token })
    } else {
        Ok(None)
    }
}

/// The limit that is passed at the end of the tokens, each of which fits, and by which the state is led to `now`.
#[tactic(auto, using(crate::proofs::Passes::none_passes))]
fn limit_at_end<'a>(
    alloc: Global,
    level: Level,
    limits: &TextLimits,
    tokens: &[TextToken<'a>],
    now: &State<'a>,
) -> Result<Option<GrammarFault>, AllocError>
    requires { IsSome (reached level whole at_start tokens.now) }
    ensures { IfOk result (λ fault. option_map (λ place. limit_passed limits.now place.state now.now place.state.last) (reached level whole at_start tokens.now) ≡ Some fault) }
{
    if limits.are_passed(now) {
        fault_behind(alloc, level, limits, tokens, Asked::LastLimit { now })
    } else {
        Ok(None)
    }
}

/// Takes the token behind these, each of which fits, and before the rest, or answers its fault. Then the machine is no longer of use.
fn take<'a>(
    alloc: Global,
    level: Level,
    limits: &TextLimits,
    tokens: &[TextToken<'a>],
    token: &TextToken<'a>,
    rest: &[TextToken<'a>],
    machine: &mut Machine<'a>,
) -> Result<Option<GrammarFault>, AllocError>
    requires { reached level whole at_start tokens.now ≡ Some (place_of machine.old) }
    ensures { IfOk result (λ fault. IsTaken limits.now level (place_of machine.old) (place_of machine.new) token.now rest.now fault) }
{
    if !machine.step(alloc, level, token)? {
        let fault = refusal_behind(alloc, level, limits, tokens, token, rest)?;
        return Ok(Some(fault));
    }
    machine.settle(alloc)?;
    limit_behind(alloc, level, limits, tokens, token, &machine.state)
}

/// What the machine behind the last of the tokens, each of which fits, answers.
#[tactic(auto, using(crate::proofs::Passes::closes_alike))]
fn finish<'a>(
    alloc: Global,
    level: Level,
    limits: &TextLimits,
    tokens: &[TextToken<'a>],
    machine: &mut Machine<'a>,
) -> Result<Result<Module, GrammarFault>, AllocError>
    requires { reached level whole at_start tokens.now ≡ Some (place_of machine.old) }
    ensures { IfOk result (λ answer. answer ≡ module_or (ended limits.now (close (grammar level) (reverse machine.old.stack) machine.old.state) machine.old.state)) }
{
    let at = machine.state.last.at;
    if !machine.close(alloc)? {
        return Ok(Err(GrammarFault::Syntax { at }));
    }
    if let Some(fault) = limit_at_end(alloc, level, limits, tokens, &machine.state)? {
        return Ok(Err(fault));
    }
    Ok(Ok(machine.take_module(alloc)))
}

/// Reads the tokens from the start of a text on.
fn read_from<'a>(
    alloc: Global,
    level: Level,
    limits: &TextLimits,
    tokens: &[TextToken<'a>],
    machine: &mut Machine<'a>,
) -> Result<Result<Module, GrammarFault>, AllocError>
    requires { IsStart machine.old }
    ensures { IfOk result (λ answer. answer ≡ parsed limits.now level tokens.now) }
{
    for at in 0..tokens.len() {
        let rest = &tokens[at + 1..];
        if let Some(fault) = take(
            alloc,
            level,
            limits,
            &tokens[..at],
            &tokens[at],
            rest,
            machine,
        )? {
            return Ok(Err(fault));
        }
    }
    finish(alloc, level, limits, tokens, machine)
}

/// The module that the tokens of a text of the level stand for, or the first fault. The last token is the end.
///
/// Time is linear in the tokens; names are found by their hashes. For a fault what stands before it is read once more.
pub fn read<'a>(
    alloc: Global,
    level: Level,
    limits: &TextLimits,
    tokens: &[TextToken<'a>],
) -> Result<Result<Module, GrammarFault>, AllocError>
    ensures { IfOk result (λ answer. answer ≡ parsed limits.now level tokens.now) }
{
    let mut machine = Machine::start(alloc)?;
    read_from(alloc, level, limits, tokens, &mut machine)
}
