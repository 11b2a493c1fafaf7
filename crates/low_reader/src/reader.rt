//! The code with names that tokens stand for.
ghost use Rattle.std.specs.Prelude.{◌≡◌, IfOk, reverse};
ghost use Rattle.low_grammar.specs.Texts.{whole};
ghost use Rattle.low_reader.specs.Answers.{IsReading};

use crate::acts::start;
use crate::table::{GrammarSymbol, LowTable};
use lists::Items;
use low_grammar::{Class, NamedFunc, Rule};
use module_grammar::TextToken;
use rule_machine::{Symbol, close, step};
use std::alloc::{AllocError, Global};
use std::mem;

/// A text, and its end.
fn whole(alloc: Global) -> Result<Items<GrammarSymbol>, AllocError>
    ensures { IfOk result (λ stack. reverse stack ≡ whole) }
{
    let mut stack = Items::new(alloc);
    stack.push(Symbol::Word(Class::End))?;
    stack.push(Symbol::Rule(Rule::Text))?;
    Ok(stack)
}

/// The functions that the tokens of a lowered text stand for, or the place of the first token that doesn't fit. The last
/// token is the end.
///
/// Time is that of a sort of the names; each is found in as many steps as the logarithm of their number.
pub fn read_low<'a>(
    alloc: Global,
    tokens: &[TextToken<'a>],
) -> Result<Result<Items<NamedFunc>, usize>, AllocError>
    ensures { IfOk result (λ answer. IsReading tokens.now answer) }
{
    let table = LowTable;
    let mut stack = whole(alloc)?;
    let mut state = start(alloc);
    for at in 0..tokens.len() {
        if !step(alloc, &table, &mut stack, &mut state, &tokens[at])? {
            return Ok(Err(at));
        }
    }
    if !close(alloc, &table, &mut stack, &mut state)? {
        return Ok(Err(tokens.len()));
    }
    Ok(Ok(mem::replace(&mut state.funcs, Items::new(alloc))))
}
