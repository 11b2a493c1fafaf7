//! What holds of printed texts and the grammar: a function's contract is the law, for the proofs of other crates to cite.
ghost use Rattle.round_trip.specs.GivesBack.{GivesBack};

/// The grammar makes of the tokens of a printed text the module that was printed.
pub fn gives_back()
    ensures { GivesBack }
{}
