//! The laws of operations that aren't one plain instruction.
ghost use Rattle.outlined_types.specs.Forms.{ChoicesFit, ConditionsFit, EndsFit, LaunchesFit, LoopsFit, TestedLoopsFit, TriedCallsFit};

/// The end of a region that breaks no rule gives values of the types that the region's function, operation or task
/// gives.
pub fn ends_fit()
    ensures { EndsFit }
{}

/// Such a condition has a truth, and values of the types that its loop gives.
pub fn conditions_fit()
    ensures { ConditionsFit }
{}

/// Such a branch has a truth, and two regions without parameters.
pub fn choices_fit()
    ensures { ChoicesFit }
{}

/// Such a counted loop has bounds, a step and values of its results' types, which its region takes.
pub fn loops_fit()
    ensures { LoopsFit }
{}

/// The first region of such a tested loop takes values of its operands' types, the second one values of its results' types.
pub fn tested_loops_fit()
    ensures { TestedLoopsFit }
{}

/// Such a tried call names a function without results, and takes values of its parameters' types.
pub fn tried_calls_fit()
    ensures { TriedCallsFit }
{}

/// Such a launch takes tokens and values, its region takes what these values hold, and it gives a token and values.
pub fn launches_fit()
    ensures { LaunchesFit }
{}
