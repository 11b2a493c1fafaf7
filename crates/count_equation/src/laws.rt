//! The laws.
ghost use Rattle.count_equation.specs.Laws.{BranchesKeep, CoveredKeeps, CoveredRunsKeep, GoneIsUnowned, NoneIsLeft, OwnedIsThere, StartsEqual};
ghost use Rattle.count_equation.specs.Worked.{SevenIsEqual};

/// The equation holds at the start.
pub fn starts_equal()
    ensures { StartsEqual }
{}

/// A step at a covered row keeps it, for code with an ownership table.
pub fn covered_keeps()
    ensures { CoveredKeeps }
{}

/// So does a branch, where no block has two parameters in one register.
pub fn branches_keep()
    ensures { BranchesKeep }
{}

/// So does a run whose steps are at covered rows or are branches.
pub fn covered_runs_keep()
    ensures { CoveredRunsKeep }
{}

/// It holds in each state of a worked run.
pub fn seven_is_equal()
    ensures { SevenIsEqual }
{}

/// Where it holds, an object of which a working frame owns a reference is there.
pub fn owned_is_there()
    ensures { OwnedIsThere }
{}

/// Of an object that isn't there no task owns a reference, and it keeps none.
pub fn gone_is_unowned()
    ensures { GoneIsUnowned }
{}

/// Where a run is finished, no object is there that keeps no reference itself.
pub fn none_is_left()
    ensures { NoneIsLeft }
{}
