//! The laws.
ghost use Rattle.source_machine.specs.Laws.{FinishesTheSame, IsNeverStuck, ReachesTheSame};

/// The machine reaches the states that runs in any order of tasks come to, and shows what they log.
pub fn reaches_the_same()
    ensures { ReachesTheSame }
{}

/// Its finished runs are the finished runs in any order of tasks, with the same lists and ends.
pub fn finishes_the_same()
    ensures { FinishesTheSame }
{}

/// It is never stuck.
pub fn never_stuck()
    ensures { IsNeverStuck }
{}
