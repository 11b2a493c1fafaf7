//! The laws.
ghost use Rattle.coro_carry.specs.Laws.{BranchFollows, CallFollows, CoveredFollows, InnerFollows, JumpFollows, LoadFollows, MatchGrows, ResumeFollows, ReturnFollows, SaveFollows, StartAgrees, SuspendFollows, TestFollows, WaitFollows};

/// Where a run of a plain function starts, the states agree.
pub fn start_agrees()
    ensures { StartAgrees }
{}

/// An instruction that the pass keeps and that speaks of no object (constants, arithmetic,
/// comparisons, `select`, casts, `memref.dim`, `alloc`, `dealloc`, `load`, `store`, and counts of references) does the same in both codes: states
/// that agree do so again, and the same is shown.
pub fn inner_follows()
    ensures { InnerFollows }
{}

/// So do `br` and `cond_br`, to a block that both have, or to a failure block of a coroutine.
pub fn jump_follows()
    ensures { JumpFollows }
{}

/// A call of a plain function begins it in both codes.
pub fn call_follows()
    ensures { CallFollows }
{}

/// A return or a failure of a frame that was called goes on in both callers, at the same target of the call.
pub fn return_follows()
    ensures { ReturnFollows }
{}

/// At an await of a task `coro.save` keeps the state, and nothing is shown.
pub fn save_follows()
    ensures { SaveFollows }
{}

/// `await_and_resume` goes on as what was kept: as the copy, at the suspend, parked unless the
/// object is done.
pub fn resume_follows()
    ensures { ResumeFollows }
{}

/// There it is parked, or goes on to the block that tests what it awaited.
pub fn suspend_follows()
    ensures { SuspendFollows }
{}

/// At an await of a plain function `runtime.await` has the whole task wait, unless the object is done.
pub fn wait_follows()
    ensures { WaitFollows }
{}

/// `is_error` shows the await, of a token, a value or a group: the high row is taken here, and both
/// codes see the same.
pub fn test_follows()
    ensures { TestFollows }
{}

/// The branch by what was seen leads to where the high row has led.
pub fn branch_follows()
    ensures { BranchFollows }
{}

/// `runtime.load` gives the register the value that the high row has given it.
pub fn load_follows()
    ensures { LoadFollows }
{}

/// All of these together: a task's step is followed, unless it stands at a launch, at a row of
/// groups, at the end of a task or of the run, or on the way to the block that sets errors.
pub fn covered_follows()
    ensures { CoveredFollows }
{}

/// A task stands where it stood after others have made objects.
pub fn match_grows()
    ensures { MatchGrows }
{}
