//! The laws.
ghost use Rattle.row_carry.specs.Laws.{AbsentEndFollows, AbsentFollows, CreateFollows, EndsFollow, RootEndFollows, RootStarts, RootStays, RowsFollow};

/// Where a group is made, both codes make one of the same number and size, and their states agree again: an empty group of size 0
/// is done in both.
pub fn create_follows()
    ensures { CreateFollows }
{}

/// At a row that only code with coroutines has (`async.runtime.create`, `store`, `set_available` and the like) code of
/// blocks is stuck, and so a safe run doesn't stand there.
pub fn absent_follows()
    ensures { AbsentFollows }
{}

/// The same where a block ends in such a row.
pub fn absent_end_follows()
    ensures { AbsentEndFollows }
{}

/// Where the root's last frame returns or fails, the root ends in both, with the same results or the same error.
pub fn root_end_follows()
    ensures { RootEndFollows }
{}

/// In code of blocks the root is the first task at the start of a run, and has not ended.
pub fn root_starts()
    ensures { RootStarts }
{}

/// After each step it is the first task still, and has not ended while it is there: what `root_end_follows` needs.
pub fn root_stays()
    ensures { RootStays }
{}

/// Where code with coroutines has ended, so has code of blocks, with the same end: no task is left, and the root's results and
/// the cells of the arguments are the same.
pub fn ends_follow()
    ensures { EndsFollow }
{}

/// These rows and all that `covered_follows` has: a task's step is followed, unless it stands at a launch, where an element is added
/// to a group, at the end of a launched task, or on the way to the block that sets errors.
pub fn rows_follow()
    ensures { RowsFollow }
{}
