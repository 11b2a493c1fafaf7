//! Replays journals, entry by entry.
ghost use Rattle.std.specs.Prelude.{◌≡◌, ◌<◌, ◌≤◌, ◌^◌, length, slice_get, Some, IfOk, IfErr, OnOk, MatchOption};
ghost use Rattle.step_core.specs.Core.{start};
ghost use Rattle.step_core.specs.Runs.{longest_burst};
ghost use Rattle.step_core.specs.Tasks.{IsReady};
ghost use Rattle.run_journal.specs.Within.{burst_within, replay_within};
ghost use Rattle.run_journal.specs.Replay.{HasReplayFault};
ghost use Rattle.run_journal.specs.Replay as replays;
ghost use Rattle.run_journal.specs.Taken.{IsTaken};
ghost use Rattle.run_journal.specs.Growth.{HasRoom, IsWithin};

use crate::faults::{ReplayFault, TaskLook};
use ir_forms::{ArgValue, FuncNo, TaskNo};
use low_forms::LowModule;
use std::alloc::{AllocError, Global};
use step_core::{Core, Entry, Limits, Step};
use task_stack::{LocalStep, Stack};

/// The number of local steps at which a burst ends without a shared step.
const LONGEST_BURST: u32 = 4096;

/// What became of an entry: its steps were taken, or it isn't possible, and the run has this of its task.
#[derive(Clone, Copy)]
pub(crate) enum Taken {
    Possible,
    Refused(Option<TaskLook>),
}

/// The run that a journal of this code tells, after its last entry.
///
/// # Errors
///
/// `NotARun` with the first entry, from 0, that isn't possible: its task isn't there, is parked, has another number of
/// local steps, or the step after them is stuck or would pass a limit. `OutOfMemory` where memory runs out.
pub fn replay<'a>(
    alloc: Global,
    code: &'a LowModule,
    entry: FuncNo,
    args: &[ArgValue],
    entries: &[Entry],
    limits: Limits,
) -> Result<Core<'a>, ReplayFault>
    requires entry { entry.0 < length code.now.funcs }
    requires args { length args.now < 2 ^ 31 }
    requires entries { length entries.now ≤ 2 ^ 27 }
    ensures ok { IfOk result (λ core. MatchOption (slice_get code.now.funcs entry.0) ⊥ (λ func. (core.code ≡ code.now) × (core.limits ≡ limits) × (replay_within limits code.now entries.now (start entry func args.now) ≡ Some core.core))) }
    ensures fault { IfErr result (λ fault. MatchOption (slice_get code.now.funcs entry.0) ⊥ (λ func. HasReplayFault limits code.now (start entry func args.now) entries.now fault)) }
{
    match Core::start(alloc, code, entry, args, limits) {
        Ok(core) => replay_from(alloc, code, core, entries),
        Err(_) => Err(ReplayFault::OutOfMemory),
    }
}

/// The same from a run in which no step was taken.
fn replay_from<'a>(
    alloc: Global,
    code: &LowModule,
    mut core: Core<'a>,
    entries: &[Entry],
) -> Result<Core<'a>, ReplayFault>
    requires code { core.code ≡ code.now }
    requires within { IsWithin 0 core.core }
    requires entries { length entries.now ≤ 2 ^ 27 }
    ensures ok { IfOk result (λ last. (last.code ≡ core.entry.code) × (last.limits ≡ core.entry.limits) × (replay_within core.entry.limits core.entry.code entries.now core.entry.core ≡ Some last.core)) }
    ensures fault { IfErr result (λ fault. HasReplayFault core.entry.limits core.entry.code core.entry.core entries.now fault) }
{
    match take_entries(alloc, code, &mut core, entries) {
        Ok(()) => Ok(core),
        Err(fault) => Err(fault),
    }
}

/// Takes the steps of these entries.
fn take_entries(
    alloc: Global,
    code: &LowModule,
    core: &mut Core<'_>,
    entries: &[Entry],
) -> Result<(), ReplayFault>
    requires code { core.old.code ≡ code.now }
    requires within { IsWithin 0 core.old.core }
    requires entries { length entries.now ≤ 2 ^ 27 }
    ensures same { OnOk result ((core.new.code ≡ core.old.code) × (core.new.limits ≡ core.old.limits)) }
    ensures ok { OnOk result (replay_within core.old.limits core.old.code entries.now core.old.core ≡ Some core.new.core) }
    ensures fault { IfErr result (λ fault. HasReplayFault core.old.limits core.old.code core.old.core entries.now fault) }
{
    for (at, entry) in entries.iter().enumerate() {
        match take_entry(alloc, code, core, *entry)? {
            Taken::Possible => {}
            Taken::Refused(kept) => {
                return Err(ReplayFault::NotARun {
                    entry: at as u32,
                    named: *entry,
                    kept,
                });
            }
        }
    }
    Ok(())
}

/// Takes the steps of an entry. Where it isn't possible, and where memory runs out, some of them may be taken.
fn take_entry(
    alloc: Global,
    code: &LowModule,
    core: &mut Core<'_>,
    entry: Entry,
) -> Result<Taken, AllocError>
    requires code { core.old.code ≡ code.now }
    requires room { HasRoom core.old.core }
    ensures same { (core.new.code ≡ core.old.code) × (core.new.limits ≡ core.old.limits) }
    ensures taken { IfOk result (λ taken. IsTaken taken core.old.limits core.old.code core.old.core core.new.core entry) }
{
    let Some(found) = core.task(TaskNo(entry.task)) else {
        return Ok(Taken::Refused(None));
    };
    match found.parked {
        Some(_) => {
            let local = local_ahead(alloc, code, &found.stack)?;
            Ok(Taken::Refused(Some(TaskLook {
                parked: true,
                local,
            })))
        }
        None => take_ready(core, entry),
    }
}

/// The same of an entry whose task is ready.
fn take_ready(core: &mut Core<'_>, entry: Entry) -> Result<Taken, AllocError>
    requires ready { IsReady core.old.core.plain.tasks entry.task }
    requires room { HasRoom core.old.core }
    ensures same { (core.new.code ≡ core.old.code) × (core.new.limits ≡ core.old.limits) }
    ensures taken { IfOk result (λ taken. IsTaken taken core.old.limits core.old.code core.old.core core.new.core entry) }
{
    let task = TaskNo(entry.task);
    let local = take_burst(core, task)?;
    let seen = TaskLook {
        parked: false,
        local,
    };
    if local != entry.local {
        return Ok(Taken::Refused(Some(seen)));
    }
    if local == LONGEST_BURST {
        return Ok(Taken::Possible);
    }
    match core.step(task)? {
        Step::Stepped => Ok(Taken::Possible),
        Step::NotReady | Step::Stop(_) => Ok(Taken::Refused(Some(seen))),
    }
}

/// Takes the local steps that a task can take in a row, at most 4,096, and gives their number.
fn take_burst(core: &mut Core<'_>, task: TaskNo) -> Result<u32, AllocError>
    requires room { HasRoom core.old.core }
    ensures same { (core.new.code ≡ core.old.code) × (core.new.limits ≡ core.old.limits) }
    ensures burst { IfOk result (λ local. burst_within core.old.limits core.old.code longest_burst task.0 core.old.core ≡ (local, core.new.core)) }
{
    for taken in 0..LONGEST_BURST {
        if !core.next_is_local(task) {
            return Ok(taken);
        }
        match core.step(task)? {
            Step::Stepped => {}
            Step::NotReady | Step::Stop(_) => return Ok(taken),
        }
    }
    Ok(LONGEST_BURST)
}

/// How many steps a stack can take alone in a row, at most 4,096.
fn local_ahead(alloc: Global, code: &LowModule, stack: &Stack) -> Result<u32, AllocError>
    ensures { IfOk result (λ local. local ≡ replays.local_ahead code.now longest_burst stack.now) }
{
    let mut copy = stack.copy(alloc)?;
    take_alone(alloc, code, &mut copy)
}

/// Takes them, and gives their number.
fn take_alone(alloc: Global, code: &LowModule, stack: &mut Stack) -> Result<u32, AllocError>
    ensures { IfOk result (λ local. local ≡ replays.local_ahead code.now longest_burst stack.old) }
{
    for taken in 0..LONGEST_BURST {
        match stack.local(alloc, code)? {
            LocalStep::Done(_) => {}
            LocalStep::Shared | LocalStep::Stuck | LocalStep::Deep => return Ok(taken),
        }
    }
    Ok(LONGEST_BURST)
}
