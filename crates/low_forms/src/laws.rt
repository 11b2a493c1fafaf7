//! What holds of lowered code: each function's contract is a law, for the proofs of other crates to cite.
ghost use Rattle.low_forms.specs.Laws.{TakesOperands, EndsAtTerm};

/// A reference that an instruction takes is one of an operand.
pub fn takes_operands()
    ensures { TakesOperands }
{}

/// Behind the instructions of a block its terminator remains, and behind that nothing.
pub fn ends_at_term()
    ensures { EndsAtTerm }
{}
