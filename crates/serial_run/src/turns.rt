//! Whose turn it is.
ghost use Rattle.std.specs.Prelude.{◌≡◌, ◌<◌, ◌-◌, ◌^◌, ℕ, length, MatchBool, MatchOption};
ghost use Rattle.step_core.specs.State.{live_tasks};
ghost use Rattle.step_core.specs.Tasks.{IsReady, IsIdle};

use async_objects::WokenList;
use ir_forms::TaskNo;
use std::alloc::{AllocError, Global};
use std::collections::VecDeque;
use step_core::Core;

/// The task that had the last turn, those that wait in turn, and those that a step launched or made ready.
#[derive(Drop)]
pub(crate) struct Turns {
    last: TaskNo,
    waiting: VecDeque<TaskNo>,
    pub(crate) woken: WokenList,
}

impl Turns {
    /// Before the root's first turn.
    pub(crate) fn new(alloc: Global) -> Result<Turns, AllocError> {
        let woken = WokenList::new(alloc, 0)?;
        Ok(Turns {
            last: TaskNo(0),
            waiting: VecDeque::new(alloc),
            woken,
        })
    }

    /// The task whose turn it is: the last one while it is ready, then the first that waits in turn.
    pub(crate) fn next(&mut self, core: &Core<'_>) -> Option<TaskNo>
        ensures { MatchOption result ((t : ℕ) → IsIdle core.now.core.plain.tasks t) (λ next. IsReady core.now.core.plain.tasks next.0) }
    {
        if is_ready(core, self.last) {
            return Some(self.last);
        }
        while let Some(next) = self.waiting.pop_front() {
            if is_ready(core, next) {
                return Some(next);
            }
        }
        find_ready(core)
    }

    /// After a task's turn: puts those that it launched or made ready at the end of those that wait.
    pub(crate) fn queue_woken(&mut self, task: TaskNo) -> Result<(), AllocError> {
        self.last = task;
        for woken in self.woken.as_slice() {
            self.waiting.push_back(*woken)?;
        }
        self.woken.clear();
        Ok(())
    }
}

/// Whether a task is there and not parked.
fn is_ready(core: &Core<'_>, task: TaskNo) -> bool
    ensures { MatchBool result (IsReady core.now.core.plain.tasks task.0) (IsIdle core.now.core.plain.tasks task.0) }
{
    match core.task(task) {
        Some(task) => task.parked.is_none(),
        None => false,
    }
}

/// The first task that is ready.
fn find_ready(core: &Core<'_>) -> Option<TaskNo>
    ensures { MatchOption result ((t : ℕ) → IsIdle core.now.core.plain.tasks t) (λ next. IsReady core.now.core.plain.tasks next.0) }
{
    for task in 0..u64::from(core.counts().tasks) + 1 {
        let task = TaskNo(task as u32);
        if is_ready(core, task) {
            return Some(task);
        }
    }
    None
}

/// How many tasks have not ended.
pub(crate) fn live_tasks(core: &Core<'_>) -> u32
    requires { length core.now.core.plain.tasks < 2 ^ 32 - 1 }
    ensures { result ≡ live_tasks core.now.core.plain.tasks }
{
    let mut live = 0;
    for task in 0..core.counts().tasks + 1 {
        if core.task(TaskNo(task)).is_some() {
            live += 1;
        }
    }
    live
}
