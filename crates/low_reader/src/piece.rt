//! What lines are made of, as constants hold it.
ghost use Rattle.std.specs.Prelude.{◌≡◌, ◌++◌, OnOk, reverse};
ghost use Rattle.low_reader.specs.Choices.{symbol_of, symbols_of};

use crate::table::GrammarSymbol;
use lists::Items;
use low_grammar::{Act, Class, Rule};
use rule_machine::Symbol;
use std::alloc::AllocError;

/// A word of a class, a rule, or an act. Constants can hold lists of lists of these, and not of the machine's symbols, whose
/// type is generic.
#[derive(Clone, Copy)]
pub enum Piece {
    Word(Class),
    Rule(Rule),
    Do(Act),
}

impl Piece {
    /// The symbol that the machine takes.
    fn symbol(self) -> GrammarSymbol
        ensures { result ≡ symbol_of self }
    {
        match self {
            Piece::Word(class) => Symbol::Word(class),
            Piece::Rule(rule) => Symbol::Rule(rule),
            Piece::Do(act) => Symbol::Do(act),
        }
    }
}

/// Puts pieces on a stack, the first on top.
#[tactic(auto, using(rule_machine::proofs::Stacks::reverse_pushed))]
pub fn push_pieces(stack: &mut Items<GrammarSymbol>, pieces: &[Piece]) -> Result<(), AllocError>
    ensures { OnOk result (reverse stack.new ≡ symbols_of pieces.now ++ reverse stack.old) }
{
    let mut at = pieces.len();
    while at > 0 {
        at -= 1;
        stack.push(pieces[at].symbol())?;
    }
    Ok(())
}
