//! Which registers are live at which places, as truths that definitions can ask for.
#![tactic(auto)]

ghost use Rattle.live_truths.specs.Truths.{TruthsAreExact};

/// A register of a function is live at a place, by paths, exactly where its truth says so.
pub fn truths_are_exact()
    ensures { TruthsAreExact }
{}
