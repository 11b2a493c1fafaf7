//! The laws.
ghost use Rattle.check_laws.specs.Laws.{CheckedHasResults, ChecksCallNothing, ChecksChangeNoRun, OperationsHaveResults, PassChangesNoRun, PassHasElements, PassHasResults, PassKeepsRuns, SoundReadsBelow, TypesMakeRanks};
ghost use Rattle.check_laws.specs.Fits.{RanksMakeFit};
ghost use Rattle.check_laws.specs.Silent.{InsertionDecides};
ghost use Rattle.check_laws.specs.Rows.{CellIsTested, DivisionIsTested, ProductIsTested, QuotientIsTested, ShiftIsTested, SpansAreTested, TurnsAreComputed};

/// A division has a result exactly where its divisor isn't 0.
pub fn division_is_tested()
    ensures { DivisionIsTested }
{}

/// A signed quotient has one where besides it isn't that of the least number by -1.
pub fn quotient_is_tested()
    ensures { QuotientIsTested }
{}

/// A shift has one where it is by less than the width.
pub fn shift_is_tested()
    ensures { ShiftIsTested }
{}

/// A cell is there exactly where each index is below its dimension.
pub fn cell_is_tested()
    ensures { CellIsTested }
{}

/// Sizes are within a limit exactly where each is, and each product of the first ones.
pub fn product_is_tested()
    ensures { ProductIsTested }
{}

/// A parallel loop can be entered exactly where its bounds are in range and its turns within their limit.
pub fn spans_are_tested()
    ensures { SpansAreTested }
{}

/// What is computed from the bounds of a dimension are its turns.
pub fn turns_are_computed()
    ensures { TurnsAreComputed }
{}

/// What is inserted before an operation is passed exactly where the operation has a result.
pub fn insertion_decides()
    ensures { InsertionDecides }
{}

/// A module with checks has the calls that it had.
pub fn checks_call_nothing()
    ensures { ChecksCallNothing }
{}

/// Where the values fit, a module and the same with checks have the same runs.
pub fn checks_change_no_run()
    ensures { ChecksChangeNoRun }
{}

/// A sound module reads no value that is made in it.
pub fn sound_reads_below()
    ensures { SoundReadsBelow }
{}

/// With arguments of 64 bits the values fit where the buffers of accesses have the ranks of their types.
pub fn ranks_make_fit()
    ensures { RanksMakeFit }
{}

/// Then a sound module, and what the pass makes of it, have the same runs.
pub fn pass_changes_no_run()
    ensures { PassChangesNoRun }
{}

/// Each operation that a task of a module with checks begins has a result, where its buffers have the ranks of their types.
pub fn operations_have_results()
    ensures { OperationsHaveResults }
{}

/// Where no value is defined twice, the buffers of accesses have the ranks of their types.
pub fn types_make_ranks()
    ensures { TypesMakeRanks }
{}

/// What the pass makes of a well formed module has the runs of the module, for all arguments that fit.
pub fn pass_keeps_runs()
    ensures { PassKeepsRuns }
{}

/// In a well formed module with its checks each operation has a result, for all arguments that fit.
pub fn checked_has_results()
    ensures { CheckedHasResults }
{}

/// So each operation has in what the pass makes of a well formed module.
pub fn pass_has_results()
    ensures { PassHasResults }
{}

/// There each operation that awaits, adds to a group or launches a task has tokens and values of tasks for it.
pub fn pass_has_elements()
    ensures { PassHasElements }
{}
