//! The laws.
ghost use Rattle.block_carry.specs.Held.{NeverStuckHere, QuietHolds, StopsSo};
ghost use Rattle.block_carry.specs.Laws.{CodeFollows, RootStands, StandsLater};
ghost use Rattle.block_carry.specs.Taken.{AddsTaken, AllocsTaken, AwaitsAllTaken, AwaitsTaken, CreatesTaken, FailedTaken, GaveTaken, LaunchesTaken, QuietTaken, ReadsTaken, RootFailedTaken, RootGaveTaken, WritesTaken};

/// Where a stack stands at the code of a task, its steps lead to where it does what the task does next. The forms: all that
/// compute, buffers, assertions, `scf.if`, `scf.for`, `scf.while`, calls and tried calls, groups, awaits, and launches with
/// the awaits before a task's operations. `IsLaid` says how code is laid out for them; parallel loops aren't laid out.
pub fn code_follows()
    ensures { CodeFollows }
{}

/// At the start of a function that is laid out the root's stack stands where the root does.
pub fn root_stands()
    ensures { RootStands }
{}

/// A stack that stands still does where more is known of names, objects and buffers.
pub fn stands_later()
    ensures { StandsLater }
{}

/// Where a stack takes a step that shows nothing, the machine takes it.
pub fn quiet_taken()
    ensures { QuietTaken }
{}

/// Where it asks for a cell, the machine gives its number.
pub fn reads_taken()
    ensures { ReadsTaken }
{}

/// Where it asks to change a cell, the machine changes it.
pub fn writes_taken()
    ensures { WritesTaken }
{}

/// Where it asks for a buffer, the machine makes it.
pub fn allocs_taken()
    ensures { AllocsTaken }
{}

/// Where it asks for a group, the machine makes it.
pub fn creates_taken()
    ensures { CreatesTaken }
{}

/// Where it asks for a task, the machine launches one that stands where the child of the source does.
pub fn launches_taken()
    ensures { LaunchesTaken }
{}

/// Where it awaits a token or value, the machine goes on by what that task ended with, or waits.
pub fn awaits_taken()
    ensures { AwaitsTaken }
{}

/// Where the last frame of a launched task gives values, the machine ends the task with them.
pub fn gave_taken()
    ensures { GaveTaken }
{}

/// Where it fails, the machine ends the task as failed.
pub fn failed_taken()
    ensures { FailedTaken }
{}

/// Where the root's last frame gives values, the machine ends the root with them.
pub fn root_gave_taken()
    ensures { RootGaveTaken }
{}

/// Where it fails, the machine ends the root with the number of the operation.
pub fn root_failed_taken()
    ensures { RootFailedTaken }
{}

/// Where it adds to a group, the machine puts the element behind the others, or a full group stops it.
pub fn adds_taken()
    ensures { AddsTaken }
{}

/// Where it awaits a group, the machine goes on by its elements, or waits.
pub fn awaits_all_taken()
    ensures { AwaitsAllTaken }
{}

/// A stack that holds a task and takes a step that shows nothing holds the task, or the task behind its own such step.
pub fn quiet_holds()
    ensures { QuietHolds }
{}

/// A stack that holds a task and takes no such step asks or ends as the task does next.
pub fn stops_so()
    ensures { StopsSo }
{}

/// The step of a task whose stack holds one of the source isn't stuck.
pub fn never_stuck_here()
    ensures { NeverStuckHere }
{}
