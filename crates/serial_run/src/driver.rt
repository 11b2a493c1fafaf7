//! Takes the entries of a run itself, on one thread.
ghost use Rattle.std.specs.Prelude.{◌≡◌, ◌<◌, ◌≤◌, ◌^◌, [], length, IfOk, OnErr};
ghost use Rattle.step_core.specs.Runs.{longest_burst};
ghost use Rattle.step_core.specs.Tasks.{IsReady};
ghost use Rattle.run_journal.specs.Growth.{HasRoom};
ghost use Rattle.run_journal.specs.Within.{burst_within};
ghost use Rattle.serial_run.specs.Outcomes.{IsStart, IsPossible, HasOutcome};
ghost use Rattle.serial_run.specs.Turns.{IsTurn};

use crate::outcome::Outcome;
use crate::turns::{Turns, live_tasks};
use ir_forms::TaskNo;
use std::alloc::{AllocError, Global};
use step_core::{Core, Entry, Limit, Step};

/// The number of local steps at which a burst ends without a shared step.
const LONGEST_BURST: u32 = 4096;

/// What became of a task's turn: this entry was taken, or some of the task's steps were, and then the next one would pass
/// a limit, or what it needs doesn't hold.
#[derive(Clone, Copy)]
pub(crate) enum Turn {
    Taken(Entry),
    Stopped(Limit),
    Stuck,
}

/// Takes entries of a run in which no step was taken, and notes them in `journal`, until the run is finished, a limit would
/// be passed, the journal has `most` entries, or no task can go on. It stays with a task until that parks or ends; tasks that
/// were launched or made ready wait in turn.
///
/// # Errors
///
/// Where memory runs out. The entries that are noted are possible.
pub fn drive(
    alloc: Global,
    core: &mut Core<'_>,
    journal: &mut Vec<Entry>,
    most: u32,
) -> Result<Outcome, AllocError>
    requires start { IsStart core.old.core }
    requires empty { journal.old.items ≡ [] }
    requires most { most ≤ 2 ^ 24 }
    ensures same { IfOk result (λ outcome. (core.new.code ≡ core.old.code) × (core.new.limits ≡ core.old.limits)) }
    ensures outcome { IfOk result (λ outcome. HasOutcome core.old.limits core.old.code most core.old.core journal.new.items core.new.core outcome) }
    ensures err { OnErr result (IsPossible core.old.code core.old.core journal.new.items) }
{
    let mut turns = Turns::new(alloc)?;
    take_turns(core, journal, most, &mut turns)
}

/// The same in these turns.
fn take_turns(
    core: &mut Core<'_>,
    journal: &mut Vec<Entry>,
    most: u32,
    turns: &mut Turns,
) -> Result<Outcome, AllocError>
    requires start { IsStart core.old.core }
    requires empty { journal.old.items ≡ [] }
    requires most { most ≤ 2 ^ 24 }
    ensures same { IfOk result (λ outcome. (core.new.code ≡ core.old.code) × (core.new.limits ≡ core.old.limits)) }
    ensures outcome { IfOk result (λ outcome. HasOutcome core.old.limits core.old.code most core.old.core journal.new.items core.new.core outcome) }
    ensures err { OnErr result (IsPossible core.old.code core.old.core journal.new.items) }
{
    for _noted in 0..most {
        if core.finished() {
            return Ok(Outcome::Finished);
        }
        let Some(task) = turns.next(core) else {
            return Ok(Outcome::Short {
                parked: live_tasks(core),
            });
        };
        match take_turn(core, task, turns)? {
            Turn::Taken(entry) => {
                journal.push(entry)?;
                turns.queue_woken(task)?;
            }
            Turn::Stopped(limit) => return Ok(Outcome::Stopped(limit)),
            Turn::Stuck => {
                return Ok(Outcome::Short {
                    parked: live_tasks(core),
                });
            }
        }
    }
    if core.finished() {
        Ok(Outcome::Finished)
    } else {
        Ok(Outcome::Spent)
    }
}

/// Takes the next entry of a task that is ready.
fn take_turn(core: &mut Core<'_>, task: TaskNo, turns: &mut Turns) -> Result<Turn, AllocError>
    requires ready { IsReady core.old.core.plain.tasks task.0 }
    requires room { HasRoom core.old.core }
    ensures same { IfOk result (λ turn. (core.new.code ≡ core.old.code) × (core.new.limits ≡ core.old.limits)) }
    ensures turn { IfOk result (λ turn. IsTurn turn core.old.limits core.old.code core.old.core core.new.core task.0) }
{
    let local = take_burst(core, task)?;
    let entry = Entry {
        task: task.0,
        local,
    };
    if local == LONGEST_BURST {
        return Ok(Turn::Taken(entry));
    }
    match core.step_waking(task, &mut turns.woken)? {
        Step::Stepped => Ok(Turn::Taken(entry)),
        Step::Stop(limit) => Ok(Turn::Stopped(limit)),
        Step::NotReady => Ok(Turn::Stuck),
    }
}

/// Takes the local steps that a task can take in a row, at most 4,096, and gives their number.
fn take_burst(core: &mut Core<'_>, task: TaskNo) -> Result<u32, AllocError>
    requires room { HasRoom core.old.core }
    ensures same { (core.new.code ≡ core.old.code) × (core.new.limits ≡ core.old.limits) }
    ensures burst { IfOk result (λ local. burst_within core.old.limits core.old.code longest_burst task.0 core.old.core ≡ (local, core.new.core)) }
{
    for taken in 0..LONGEST_BURST {
        if !core.next_is_local(task) {
            return Ok(taken);
        }
        match core.step(task)? {
            Step::Stepped => {}
            Step::NotReady | Step::Stop(_) => return Ok(taken),
        }
    }
    Ok(LONGEST_BURST)
}
