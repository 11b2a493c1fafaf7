//! What holds of verified modules: each function's contract is a law, for the proofs of other crates to cite.
ghost use Rattle.ir_verify.specs.Laws.{BreaksNothing, OperandsFit, OperationsStand, LevelIsLeast, LevelIsStructured};

/// In a module that breaks no rule no place of a function's body breaks one.
pub fn breaks_nothing()
    ensures { BreaksNothing }
{}

/// In a module that breaks no rule each operand is visible, and has a type that its operation asks.
pub fn operands_fit()
    ensures { OperandsFit }
{}

/// Every operation of a module, in nested regions too, stands at the level that `verify` answers.
pub fn operations_stand()
    ensures { OperationsStand }
{}

/// That level is the least one at which all operations stand.
pub fn level_is_least()
    ensures { LevelIsLeast }
{}

/// In a module that breaks no rule it is Source, Checked or Split.
pub fn level_is_structured()
    ensures { LevelIsStructured }
{
    op_table::lists_each_kind();
}
