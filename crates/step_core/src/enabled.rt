//! Whether a task can go on, before its step is tried.
ghost use Rattle.std.specs.Prelude.{◌≡◌, ◌↔◌, Some, IsTrue};
ghost use Rattle.step_core.specs.Core.{limited_step};
ghost use Rattle.step_core.specs.Enabled.{is_enabled, core_can, stack_can, task_can, NumbersAreLeft};

use crate::cells::Cells;
use crate::counting::may_count;
use crate::enabled_rows::next_can;
use crate::running::Core;
use crate::tasks::Task;
use async_objects::Objects;
use ir_forms::TaskNo;
use low_forms::LowModule;
use task_stack::{Ahead, Stack};

impl<'a> Core<'a> {
    /// Whether a task can go on: its next step is taken, or a limit stops it. This takes no memory.
    pub fn enabled(&self, task: TaskNo) -> bool
        ensures { result ≡ is_enabled (limited_step self.now.limits self.now.code self.now.core task.0) }
    {
        let _live = self.objects.live();
        self.can_go(task)
    }

    /// Whether numbers are left for a step more: of steps, tasks, objects and buffers.
    pub fn has_numbers(&self) -> bool
        ensures { IsTrue result ↔ NumbersAreLeft self.now.core }
    {
        self.steps < 1 << 40
            && self.tasks.made() < u32::MAX as usize
            && self.objects.made() < u32::MAX
            && self.cells.has_number()
    }

    fn can_go(&self, task: TaskNo) -> bool
        ensures { result ≡ core_can self.now.code self.now.core task.0 }
    {
        match self.tasks.get(task) {
            Some(task) => task_can(self.code, &self.objects, &self.cells, task),
            None => false,
        }
    }
}

/// Whether a task isn't parked, and what its next instruction needs holds.
fn task_can(code: &LowModule, objects: &Objects, cells: &Cells, task: &Task) -> bool
    ensures { result ≡ task_can code.now objects.now.objects objects.now.counts cells.now.buffers (Some task.now) }
{
    match task.parked {
        Some(_o) => false,
        None => stack_can(code, objects, cells, &task.stack),
    }
}

/// Whether what the next instruction needs holds.
fn stack_can(code: &LowModule, objects: &Objects, cells: &Cells, stack: &Stack) -> bool
    ensures { result ≡ stack_can code.now objects.now.objects objects.now.counts cells.now.buffers stack.now }
{
    match stack.ahead(code) {
        Ahead::Counts(count) => may_count(objects, count),
        Ahead::Shared => next_can(code, objects, cells, stack),
        Ahead::Alone => !stack.next_is_stuck(code),
    }
}
