//! What holds of live registers, and of how often blocks are visited to find them.
#![tactic(auto)]

ghost use Rattle.live_laws.specs.Laws.{VisitsAreFew, TakesAreUses};

/// In well formed code the visits of a function are at most its blocks times one more than twice its registers.
pub fn visits_are_few()
    ensures { VisitsAreFew }
{}

/// Where a reference of a register is used or taken, the register is live.
pub fn takes_are_uses()
    ensures { TakesAreUses }
{}
