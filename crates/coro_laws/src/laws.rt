//! What the pass of coroutines makes of half-lowered code: each function's contract is a law.
ghost use Rattle.coro_laws.specs.Laws.{CoroutinesNeverWait, CoroutinesStay, CountsSmall, EdgesKept, FitsKept, LabelsStand, NoAwaitsLeft, OneSuspendEach, RuntimeWellFormed, SavesFollowed};

/// Each label stands once in the layout of a function: its number is its place there, and its block
/// stands at that number.
pub fn labels_stand()
    ensures { LabelsStand }
{}

/// The functions stay as many, and the coroutines among them the same.
pub fn coroutines_stay()
    ensures { CoroutinesStay }
{}

/// A coroutine is suspended once for each of its awaits, and once more; no other function is.
pub fn one_suspend_each()
    ensures { OneSuspendEach }
{}

/// In a coroutine nothing waits.
pub fn coroutines_never_wait()
    ensures { CoroutinesNeverWait }
{}

/// No block ends with an await.
pub fn no_awaits_left()
    ensures { NoAwaitsLeft }
{}

/// Each save is followed at once by what resumes, and that by the suspend of the same save, which ends
/// the block. These stand nowhere else, and the first save stands in the first block.
pub fn saves_followed()
    ensures { SavesFollowed }
{}

/// No edge leads to the first block, and none is critical: a block with two edges leads to none to which
/// another edge leads.
pub fn edges_kept()
    ensures { EdgesKept }
{}

/// Before registers are numbered, each register, block and function that is named is there, and each
/// instruction and terminator fits its row.
pub fn fits_kept()
    ensures { FitsKept }
{}

/// Counts stay 1 to 2^23, since the pass makes none.
pub fn counts_stay_small()
    ensures { CountsSmall }
{}

/// What the pass makes of well formed, half-lowered code is well formed.
pub fn runtime_well_formed()
    ensures { RuntimeWellFormed }
{}
