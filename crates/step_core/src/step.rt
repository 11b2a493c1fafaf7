//! The steps of the core.
ghost use Rattle.std.specs.Prelude.{◌≡◌, ◌<◌, ◌-◌, ◌^◌, true, false, Some, None, length, IfOk, OnErr};
ghost use Rattle.task_stack.specs.Local.{free_step};
ghost use Rattle.task_stack.specs.Ahead.{counted, is_shared};
ghost use Rattle.step_core.specs.Parts.{end_or};
ghost use Rattle.step_core.specs.Core.{IsStep, limited_step};
ghost use Rattle.step_core.specs.Running.{IsAnswer, IsTaken};
ghost use Rattle.step_core.specs.Tasks.{stack_at, IsReady};

use crate::counting::{change_count, fits, may_count};
use crate::ends::{RootEnd, Step};
use crate::limits::Limit;
use crate::parts::Row;
use crate::running::Core;
use async_objects::WokenList;
use ir_forms::TaskNo;
use std::alloc::AllocError;
use task_stack::{Ahead, CountStep, LocalStep};

/// A task has at most so many frames.
const MOST_FRAMES: u32 = 1024;

impl<'a> Core<'a> {
    /// Takes the next step of a task. The tasks that it launches or makes ready are added to `woken`, in order.
    ///
    /// # Errors
    ///
    /// Where memory runs out, and where a count of references would pass 2^64 - 1. As after `NotReady` and `Stop`,
    /// nothing has changed.
    pub fn step_waking(&mut self, task: TaskNo, woken: &mut WokenList) -> Result<Step, AllocError>
        requires steps { self.old.core.plain.steps < 2 ^ 40 }
        requires tasks { length self.old.core.plain.tasks < 2 ^ 32 - 1 }
        requires objects { length self.old.core.plain.objects < 2 ^ 32 - 1 }
        requires buffers { length self.old.core.plain.buffers < 2 ^ 32 - 1 }
        ensures step { IfOk result (λ answer. IsAnswer answer self.old self.new woken.old.items woken.new.items (limited_step self.old.limits self.old.code self.old.core task.0)) }
        ensures err { OnErr result ((self.new ≡ self.old) × (woken.new.items ≡ woken.old.items)) }
    {
        if !self.tasks.is_ready(task) {
            return Ok(Step::NotReady);
        }
        match self.tasks.stack(task).ahead(self.code) {
            Ahead::Counts(count) => self.count(task, count),
            Ahead::Shared => self.shared(task, woken),
            Ahead::Alone => self.alone(task),
        }
    }

    /// Takes the next step of a task.
    ///
    /// # Errors
    ///
    /// As `step_waking`.
    pub fn step(&mut self, task: TaskNo) -> Result<Step, AllocError>
        requires steps { self.old.core.plain.steps < 2 ^ 40 }
        requires tasks { length self.old.core.plain.tasks < 2 ^ 32 - 1 }
        requires objects { length self.old.core.plain.objects < 2 ^ 32 - 1 }
        requires buffers { length self.old.core.plain.buffers < 2 ^ 32 - 1 }
        ensures step { IfOk result (λ answer. IsStep answer self.old.core self.new.core (limited_step self.old.limits self.old.code self.old.core task.0)) }
        ensures same { (self.new.code ≡ self.old.code) × (self.new.limits ≡ self.old.limits) }
        ensures err { OnErr result (self.new ≡ self.old) }
    {
        let mut woken = WokenList::new(self.alloc, 0)?;
        self.step_waking(task, &mut woken)
    }

    /// A step that counts references of an object.
    fn count(&mut self, task: TaskNo, count: CountStep) -> Result<Step, AllocError>
        requires ready { IsReady self.old.core.plain.tasks task.0 }
        requires count { counted (free_step self.old.code (stack_at self.old.core.plain.tasks task.0)) ≡ Some count }
        requires steps { self.old.core.plain.steps < 2 ^ 40 }
        ensures step { IfOk result (λ answer. IsTaken answer self.old self.new (limited_step self.old.limits self.old.code self.old.core task.0)) }
        ensures err { OnErr result (self.new ≡ self.old) }
    {
        if !may_count(&self.objects, count) {
            return Ok(Step::NotReady);
        }
        if !fits(&self.objects, count) {
            return Err(AllocError);
        }
        self.gone.reserve(1)?;
        match self.tasks.local(self.alloc, self.code, task)? {
            LocalStep::Done(_) => {
                self.steps += 1;
                change_count(&mut self.objects, &mut self.gone, count);
                Ok(Step::Stepped)
            }
            _ => unreachable!(),
        }
    }

    /// Any other step of the task alone.
    fn alone(&mut self, task: TaskNo) -> Result<Step, AllocError>
        requires ready { IsReady self.old.core.plain.tasks task.0 }
        requires count { counted (free_step self.old.code (stack_at self.old.core.plain.tasks task.0)) ≡ None }
        requires alone { is_shared (free_step self.old.code (stack_at self.old.core.plain.tasks task.0)) ≡ false }
        requires steps { self.old.core.plain.steps < 2 ^ 40 }
        ensures step { IfOk result (λ answer. IsTaken answer self.old self.new (limited_step self.old.limits self.old.code self.old.core task.0)) }
        ensures err { OnErr result (self.new ≡ self.old) }
    {
        match self.tasks.local(self.alloc, self.code, task)? {
            LocalStep::Done(_) => {
                self.steps += 1;
                Ok(Step::Stepped)
            }
            LocalStep::Shared => unreachable!(),
            LocalStep::Stuck => Ok(Step::NotReady),
            LocalStep::Deep => Ok(Step::Stop(Limit::Stack { depth: MOST_FRAMES })),
        }
    }

    /// A shared step.
    fn shared(&mut self, task: TaskNo, woken: &mut WokenList) -> Result<Step, AllocError>
        requires ready { IsReady self.old.core.plain.tasks task.0 }
        requires shared { is_shared (free_step self.old.code (stack_at self.old.core.plain.tasks task.0)) ≡ true }
        requires steps { self.old.core.plain.steps < 2 ^ 40 }
        requires tasks { length self.old.core.plain.tasks < 2 ^ 32 - 1 }
        requires objects { length self.old.core.plain.objects < 2 ^ 32 - 1 }
        requires buffers { length self.old.core.plain.buffers < 2 ^ 32 - 1 }
        ensures step { IfOk result (λ answer. IsAnswer answer self.old self.new woken.old.items woken.new.items (limited_step self.old.limits self.old.code self.old.core task.0)) }
        ensures err { OnErr result ((self.new ≡ self.old) × (woken.new.items ≡ woken.old.items)) }
    {
        let before = woken.as_slice().len();
        woken.reserve(1)?;
        self.tasks.reserve()?;
        let row = self.tasks.shared(
            task,
            self.alloc,
            self.code,
            self.limits,
            &mut self.objects,
            &mut self.cells,
            woken,
            &mut self.gone,
        )?;
        match row {
            Row::Stuck => Ok(Step::NotReady),
            Row::Stop(limit) => Ok(Step::Stop(limit)),
            Row::Goes(parked) => {
                let (_earlier, awake) = woken.as_slice().split_at(before);
                self.tasks.go_on(task, parked, awake);
                self.steps += 1;
                Ok(Step::Stepped)
            }
            Row::Launches(stack) => {
                woken.push(TaskNo(self.tasks.made() as u32));
                self.tasks.push(stack);
                self.steps += 1;
                Ok(Step::Stepped)
            }
            Row::Ends(end) => {
                self.tasks.take_out(task);
                set_end(&mut self.root_end, end);
                self.steps += 1;
                Ok(Step::Stepped)
            }
        }
    }
}

/// The root has ended so, where there is an end.
fn set_end(root_end: &mut Option<RootEnd>, end: Option<RootEnd>)
    ensures { root_end.new ≡ end_or end root_end.old }
{
    match end {
        Some(end) => *root_end = Some(end),
        None => {}
    }
}
