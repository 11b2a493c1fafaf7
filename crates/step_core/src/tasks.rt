//! The tasks of a run, by number.
ghost use Rattle.std.specs.Prelude.{◌≡◌, ◌<◌, ◌≤◌, ◌+◌, ◌-◌, ◌^◌, ◌++◌, ◌∷◌, [], length, slice_set, vec_len, vec_capacity, None, Some, IfOk, OnOk, OnErr, MatchBool};
ghost use Rattle.std.specs.Option.{option_copied};
ghost use Rattle.task_stack.specs.Local.{IsLocal, local_step};
ghost use Rattle.step_core.specs.State.{live_tasks, ready, made_ready, woken};
ghost use Rattle.step_core.specs.Core.{Core};
ghost use Rattle.step_core.specs.Parts.{with_parts, IsRow};
ghost use Rattle.step_core.specs.Running.{next_took};
ghost use Rattle.step_core.specs.Tasks.{in_table, stack_at, put_task, IsReady, IsIdle};

use crate::cells::Cells;
use crate::limits::Limits;
use crate::parts::Row;
use crate::shared::take_row;
use async_objects::{FreedList, Objects, WokenList};
use ir_forms::{ObjNo, TaskNo};
use low_forms::LowModule;
use std::alloc::{AllocError, Global};
use std::marker::Model;
use task_stack::{LocalStep, Stack};

/// A task, ready or parked on an object.
#[derive(Drop)]
pub struct Task {
    pub stack: Stack,
    pub parked: Option<ObjNo>,
}

/// The tasks in the order of launching, the root first. One that has ended leaves its place empty.
#[derive(Drop)]
pub(crate) struct Tasks {
    slots: Vec<Option<Task>>,
    live: usize,
}

impl Model for Tasks {
    ghost use Rattle.std.specs.Prelude.{◌≡◌, ◌-◌, vec_len, vec_capacity};
    ghost use Rattle.step_core.specs.State.{live_tasks};
    ghost use Rattle.step_core.specs.Tasks.{Slots};

    ghost Value = { Slots };

    ghost view = { λ t. record { tasks = t.slots.items; room = vec_capacity t.slots - vec_len t.slots } };

    ghost invariant = { λ t. t.live ≡ live_tasks t.slots.items };
}

impl Tasks {
    /// The root alone.
    pub(crate) fn new(alloc: Global, root: Stack) -> Result<Tasks, AllocError>
        ensures { IfOk result (λ tasks. tasks.tasks ≡ Some (ready root) ∷ []) }
    {
        let mut slots = Vec::with_capacity(alloc, 1)?;
        slots.push_reserved(Some(Task {
            stack: root,
            parked: None,
        }));
        Ok(Tasks { slots, live: 1 })
    }

    /// How many tasks were made.
    pub(crate) fn made(&self) -> usize
        ensures { result ≡ length self.now.tasks }
    {
        self.slots.len()
    }

    /// How many tasks have not ended.
    pub(crate) fn live(&self) -> usize
        ensures value { result ≡ live_tasks self.now.tasks }
        ensures most { result ≤ length self.now.tasks }
    {
        self.live
    }

    /// The task of this number, if it was made and has not ended.
    pub(crate) fn get(&self, task: TaskNo) -> Option<&Task>
        ensures { option_copied result ≡ in_table self.now.tasks task.0 }
    {
        match self.slots.get(task.0 as usize) {
            Some(Some(task)) => Some(task),
            _ => None,
        }
    }

    /// Whether the task of this number is there and not parked.
    pub(crate) fn is_ready(&self, task: TaskNo) -> bool
        ensures { MatchBool result (IsReady self.now.tasks task.0) (IsIdle self.now.tasks task.0) }
    {
        match self.get(task) {
            Some(task) => task.parked.is_none(),
            None => false,
        }
    }

    /// The stack of a task.
    pub(crate) fn stack(&self, task: TaskNo) -> &Stack
        requires { IsReady self.now.tasks task.0 }
        ensures { result.now ≡ stack_at self.now.tasks task.0 }
    {
        match &self.slots[task.0 as usize] {
            Some(task) => &task.stack,
            None => unreachable!(),
        }
    }

    /// Takes a local step of a task, in place.
    pub(crate) fn local(
        &mut self,
        alloc: Global,
        code: &LowModule,
        task: TaskNo,
    ) -> Result<LocalStep, AllocError>
        requires { IsReady self.old.tasks task.0 }
        ensures step { IfOk result (λ step. IsLocal step (stack_at self.old.tasks task.0) (stack_at self.new.tasks task.0) (local_step code.now (stack_at self.old.tasks task.0))) }
        ensures rest { self.new ≡ record self.old { tasks = put_task self.old.tasks task.0 (stack_at self.new.tasks task.0) None } }
        ensures err { OnErr result (self.new ≡ self.old) }
    {
        local_in(&mut self.slots, task.0 as usize, alloc, code)
    }

    /// Takes a shared step of a task, in place. What the row makes of the task beside its stack is still to be done.
    pub(crate) fn shared(
        &mut self,
        task: TaskNo,
        alloc: Global,
        code: &LowModule,
        limits: Limits,
        objects: &mut Objects,
        cells: &mut Cells,
        woken: &mut WokenList,
        gone: &mut FreedList,
    ) -> Result<Row, AllocError>
        requires ready { IsReady self.old.tasks task.0 }
        requires tasks { length self.old.tasks < 2 ^ 32 }
        requires made { length objects.old.objects < 2 ^ 32 - 1 }
        requires buffers { length cells.old.buffers < 2 ^ 32 - 1 }
        requires limit { objects.old.limit ≡ limits.objects }
        ensures row { IfOk result (λ row. (rest : Core) → live_tasks rest.plain.tasks ≡ live_tasks self.old.tasks → IsRow row (with_parts objects.old cells.old.buffers gone.old.items rest) (with_parts objects.new cells.new.buffers gone.new.items rest) woken.old.items woken.new.items task.0 (stack_at self.old.tasks task.0) (stack_at self.new.tasks task.0) (next_took limits code.now (with_parts objects.old cells.old.buffers gone.old.items rest) task.0 (stack_at self.old.tasks task.0))) }
        ensures rest { self.new ≡ record self.old { tasks = put_task self.old.tasks task.0 (stack_at self.new.tasks task.0) None } }
        ensures err { OnErr result ((self.new ≡ self.old) × (objects.new ≡ objects.old) × (cells.new.buffers ≡ cells.old.buffers) × (gone.new.items ≡ gone.old.items) × (woken.new.items ≡ woken.old.items)) }
        ensures kept { objects.new.limit ≡ objects.old.limit }
        ensures places { length woken.old.items + woken.old.room ≤ length woken.new.items + woken.new.room }
    {
        let live = self.live() as u32;
        shared_in(
            &mut self.slots,
            task,
            alloc,
            code,
            limits,
            live,
            objects,
            cells,
            woken,
            gone,
        )
    }

    /// Reserves a place for one more task.
    pub(crate) fn reserve(&mut self) -> Result<(), AllocError>
        ensures tasks { self.new.tasks ≡ self.old.tasks }
        ensures room { OnOk result (0 < self.new.room) }
    {
        self.slots.reserve(1)
    }

    /// Adds a task with this stack, in a reserved place.
    pub(crate) fn push(&mut self, stack: Stack)
        requires room { 0 < self.old.room }
        requires few { length self.old.tasks < 2 ^ 32 - 1 }
        ensures { self.new.tasks ≡ self.old.tasks ++ Some (ready stack) ∷ [] }
    {
        self.slots.push_reserved(Some(Task {
            stack,
            parked: None,
        }));
        self.live += 1;
    }

    /// Has a task that is ready wait for an object.
    pub(crate) fn park(&mut self, task: TaskNo, o: ObjNo)
        requires { IsReady self.old.tasks task.0 }
        ensures { self.new ≡ record self.old { tasks = put_task self.old.tasks task.0 (stack_at self.old.tasks task.0) (Some o) } }
    {
        park_in(&mut self.slots, task.0 as usize, o);
    }

    /// Takes out a task that is ready and ends.
    pub(crate) fn take_out(&mut self, task: TaskNo)
        requires { IsReady self.old.tasks task.0 }
        ensures { self.new ≡ record self.old { tasks = slice_set self.old.tasks task.0 None } }
    {
        self.slots[task.0 as usize] = None;
        self.live -= 1;
    }

    /// Has a task go on, or wait for an object, and makes these tasks ready, in order.
    #[tactic(auto, using(crate::proofs::Live::same_put))]
    pub(crate) fn go_on(&mut self, task: TaskNo, parked: Option<ObjNo>, tasks: &[TaskNo])
        requires { IsReady self.old.tasks task.0 }
        ensures { self.new ≡ record self.old { tasks = woken tasks.now (put_task self.old.tasks task.0 (stack_at self.old.tasks task.0) parked) } }
    {
        match parked {
            Some(o) => {
                self.park(task, o);
                self.wake(tasks);
            }
            None => self.wake(tasks),
        }
    }

    /// Makes these tasks ready, in order.
    fn wake(&mut self, tasks: &[TaskNo])
        ensures { self.new ≡ record self.old { tasks = woken tasks.now self.old.tasks } }
    {
        wake_all(&mut self.slots, tasks);
    }
}

fn local_in(
    slots: &mut Vec<Option<Task>>,
    at: usize,
    alloc: Global,
    code: &LowModule,
) -> Result<LocalStep, AllocError>
    requires { IsReady slots.old.items at }
    ensures step { IfOk result (λ step. IsLocal step (stack_at slots.old.items at) (stack_at slots.new.items at) (local_step code.now (stack_at slots.old.items at))) }
    ensures rest { slots.new.items ≡ put_task slots.old.items at (stack_at slots.new.items at) None }
    ensures live { live_tasks slots.new.items ≡ live_tasks slots.old.items }
    ensures capacity { (vec_capacity slots.new ≡ vec_capacity slots.old) × (vec_len slots.new ≡ vec_len slots.old) }
    ensures err { OnErr result (slots.new.items ≡ slots.old.items) }
{
    match &mut slots[at] {
        Some(task) => task.stack.local(alloc, code),
        None => unreachable!(),
    }
}

/// Takes a shared step of a task, in place.
fn shared_in(
    slots: &mut Vec<Option<Task>>,
    task: TaskNo,
    alloc: Global,
    code: &LowModule,
    limits: Limits,
    live: u32,
    objects: &mut Objects,
    cells: &mut Cells,
    woken: &mut WokenList,
    gone: &mut FreedList,
) -> Result<Row, AllocError>
    requires ready { IsReady slots.old.items task.0 }
    requires made { length objects.old.objects < 2 ^ 32 - 1 }
    requires buffers { length cells.old.buffers < 2 ^ 32 - 1 }
    requires limit { objects.old.limit ≡ limits.objects }
    ensures row { IfOk result (λ row. (rest : Core) → live_tasks rest.plain.tasks ≡ live → IsRow row (with_parts objects.old cells.old.buffers gone.old.items rest) (with_parts objects.new cells.new.buffers gone.new.items rest) woken.old.items woken.new.items task.0 (stack_at slots.old.items task.0) (stack_at slots.new.items task.0) (next_took limits code.now (with_parts objects.old cells.old.buffers gone.old.items rest) task.0 (stack_at slots.old.items task.0))) }
    ensures rest { slots.new.items ≡ put_task slots.old.items task.0 (stack_at slots.new.items task.0) None }
    ensures live { live_tasks slots.new.items ≡ live_tasks slots.old.items }
    ensures capacity { (vec_capacity slots.new ≡ vec_capacity slots.old) × (vec_len slots.new ≡ vec_len slots.old) }
    ensures err { OnErr result ((slots.new.items ≡ slots.old.items) × (objects.new ≡ objects.old) × (cells.new.buffers ≡ cells.old.buffers) × (gone.new.items ≡ gone.old.items) × (woken.new.items ≡ woken.old.items)) }
    ensures kept { objects.new.limit ≡ objects.old.limit }
    ensures places { length woken.old.items + woken.old.room ≤ length woken.new.items + woken.new.room }
{
    match &mut slots[task.0 as usize] {
        Some(slot) => shared_next(
            alloc,
            code,
            limits,
            live,
            task,
            &mut slot.stack,
            objects,
            cells,
            woken,
            gone,
        ),
        None => unreachable!(),
    }
}

/// Takes the shared step of this stack.
fn shared_next(
    alloc: Global,
    code: &LowModule,
    limits: Limits,
    live: u32,
    task: TaskNo,
    stack: &mut Stack,
    objects: &mut Objects,
    cells: &mut Cells,
    woken: &mut WokenList,
    gone: &mut FreedList,
) -> Result<Row, AllocError>
    requires made { length objects.old.objects < 2 ^ 32 - 1 }
    requires buffers { length cells.old.buffers < 2 ^ 32 - 1 }
    requires limit { objects.old.limit ≡ limits.objects }
    ensures row { IfOk result (λ row. (rest : Core) → live_tasks rest.plain.tasks ≡ live → IsRow row (with_parts objects.old cells.old.buffers gone.old.items rest) (with_parts objects.new cells.new.buffers gone.new.items rest) woken.old.items woken.new.items task.0 stack.old stack.new (next_took limits code.now (with_parts objects.old cells.old.buffers gone.old.items rest) task.0 stack.old)) }
    ensures err { OnErr result ((stack.new ≡ stack.old) × (objects.new ≡ objects.old) × (cells.new.buffers ≡ cells.old.buffers) × (gone.new.items ≡ gone.old.items) × (woken.new.items ≡ woken.old.items)) }
    ensures kept { objects.new.limit ≡ objects.old.limit }
    ensures places { length woken.old.items + woken.old.room ≤ length woken.new.items + woken.new.room }
{
    match stack.next(code) {
        Some((func, instr)) => take_row(
            alloc, limits, live, task, stack, objects, cells, woken, gone, func, instr,
        ),
        None => Ok(Row::Stuck),
    }
}

fn park_in(slots: &mut Vec<Option<Task>>, at: usize, o: ObjNo)
    requires { IsReady slots.old.items at }
    ensures task { slots.new.items ≡ put_task slots.old.items at (stack_at slots.old.items at) (Some o) }
    ensures live { live_tasks slots.new.items ≡ live_tasks slots.old.items }
    ensures capacity { (vec_capacity slots.new ≡ vec_capacity slots.old) × (vec_len slots.new ≡ vec_len slots.old) }
{
    match &mut slots[at] {
        Some(task) => task.parked = Some(o),
        None => unreachable!(),
    }
}

#[tactic(auto, using(crate::proofs::Live::wake_next))]
fn wake_all(slots: &mut Vec<Option<Task>>, tasks: &[TaskNo])
    ensures tasks { slots.new.items ≡ woken tasks.now slots.old.items }
    ensures live { live_tasks slots.new.items ≡ live_tasks slots.old.items }
    ensures capacity { (vec_capacity slots.new ≡ vec_capacity slots.old) × (vec_len slots.new ≡ vec_len slots.old) }
{
    for task in tasks {
        wake_in(slots, task.0 as usize);
    }
}

fn wake_in(slots: &mut Vec<Option<Task>>, at: usize)
    ensures task { slots.new.items ≡ slice_set slots.old.items at (made_ready (in_table slots.old.items at)) }
    ensures live { live_tasks slots.new.items ≡ live_tasks slots.old.items }
    ensures capacity { (vec_capacity slots.new ≡ vec_capacity slots.old) × (vec_len slots.new ≡ vec_len slots.old) }
{
    if at < slots.len() {
        match &mut slots[at] {
            Some(task) => task.parked = None,
            None => {}
        }
    }
}
