//! The core: a run of lowered code, and what is seen of it.
ghost use Rattle.std.specs.Prelude.{◌≡◌, ◌↔◌, ◌<◌, ◌^◌, [], length, slice_get, IsTrue, IfOk, MatchOption};
ghost use Rattle.std.specs.Option.{option_copied};
ghost use Rattle.step_core.specs.Core.{start};
ghost use Rattle.task_stack.specs.Frames.{root_stack};
ghost use Rattle.step_core.specs.State.{argument_vals, counts_of};
ghost use Rattle.step_core.specs.Tasks.{in_table};
ghost use Rattle.step_core.specs.Runs.{IsFinished, next_is_local};

use crate::cells::{ArgBuffer, Cells};
use crate::ends::{Counts, RootEnd};
use crate::limits::Limits;
use crate::start::{argument_buffers, argument_vals};
use crate::tasks::{Task, Tasks};
use async_objects::{FreedList, Objects};
use ir_forms::{ArgValue, FuncNo, TaskNo};
use lists::Items;
use low_forms::{LowFunc, LowModule};
use std::alloc::{AllocError, Global};
use std::marker::Model;
use task_stack::Stack;

/// A run of lowered code: its tasks, what they share, and the root's end.
#[derive(Drop)]
pub struct Core<'a> {
    pub(crate) alloc: Global,
    pub(crate) code: &'a LowModule,
    pub(crate) limits: Limits,
    pub(crate) tasks: Tasks,
    pub(crate) objects: Objects,
    pub(crate) cells: Cells,
    pub(crate) arguments: Items<ArgBuffer>,
    pub(crate) root_end: Option<RootEnd>,
    pub(crate) steps: u64,
    pub(crate) gone: FreedList,
}

impl<'a> Model for Core<'a> {
    ghost use Rattle.std.specs.Prelude.{◌≡◌, ◌<◌, ◌^◌, length};
    ghost use Rattle.step_core.specs.Running.{Running, core_of};

    ghost Value = { Running };

    ghost view = { λ c. record { code = c.code.now; limits = c.limits; core = core_of c.tasks.tasks c.objects c.cells.buffers c.arguments c.root_end c.steps c.gone.items } };

    ghost invariant = { λ c. (c.objects.limit ≡ c.limits.objects) × (length c.tasks.tasks < 2 ^ 32) };
}

/// So many arguments fit into no memory.
const MOST_ARGUMENTS: usize = (1 << 32) - 1;

impl<'a> Core<'a> {
    /// A run in which no step was taken: the root alone, at the start of this function, whose parameters have these values.
    ///
    /// # Errors
    ///
    /// Where memory runs out.
    pub fn start(
        alloc: Global,
        code: &'a LowModule,
        entry: FuncNo,
        args: &[ArgValue],
        limits: Limits,
    ) -> Result<Core<'a>, AllocError>
        requires { entry.0 < length code.now.funcs }
        ensures { IfOk result (λ core. MatchOption (slice_get code.now.funcs entry.0) ⊥ (λ func. core ≡ record { code = code.now; limits = limits; core = start entry func args.now })) }
    {
        let func = match code.funcs.get(entry.0 as usize) {
            Some(func) => func,
            None => unreachable!(),
        };
        if args.len() > MOST_ARGUMENTS {
            return Err(AllocError);
        }
        let arguments = argument_buffers(alloc, func, args)?;
        let cells = Cells::of(alloc, args)?;
        let root = root(alloc, entry, func, args)?;
        let tasks = Tasks::new(alloc, root)?;
        let objects = Objects::new(alloc, limits.objects, 0, 0)?;
        let gone = FreedList::new(alloc, 0)?;
        Ok(Core {
            alloc,
            code,
            limits,
            tasks,
            objects,
            cells,
            arguments,
            root_end: None,
            steps: 0,
            gone,
        })
    }

    /// What the root's last frame gave, once it has ended.
    pub fn root_end(&self) -> Option<&RootEnd>
        ensures { option_copied result ≡ self.now.core.plain.root_end }
    {
        self.root_end.as_ref()
    }

    /// Whether the root has ended and no task is left.
    pub fn finished(&self) -> bool
        ensures { IsTrue result ↔ IsFinished self.now.core }
    {
        self.root_end.is_some() && self.tasks.live() == 0
    }

    /// How many tasks, objects and steps were made so far. The root isn't counted.
    pub fn counts(&self) -> Counts
        ensures { result ≡ counts_of self.now.core.plain }
    {
        Counts {
            tasks: self.tasks.made().saturating_sub(1) as u32,
            objects: self.objects.made(),
            steps: self.steps,
        }
    }

    /// A task by its number, if it was launched, or is the root, and has not ended.
    pub fn task(&self, task: TaskNo) -> Option<&Task>
        ensures { option_copied result ≡ in_table self.now.core.plain.tasks task.0 }
    {
        self.tasks.get(task)
    }

    /// Whether the next instruction of a task is a step of the task alone. Of a task that isn't there it is not.
    pub fn next_is_local(&self, task: TaskNo) -> bool
        ensures { result ≡ next_is_local self.now.code self.now.core task.0 }
    {
        match self.tasks.get(task) {
            Some(task) => !task.stack.next_is_shared(self.code),
            None => false,
        }
    }
}

/// The stack of a root.
fn root(
    alloc: Global,
    entry: FuncNo,
    func: &LowFunc,
    args: &[ArgValue],
) -> Result<Stack, AllocError>
    requires { length args.now < 2 ^ 32 }
    ensures { IfOk result (λ stack. stack ≡ root_stack entry func.now (argument_vals 0 args.now)) }
{
    let vals = argument_vals(alloc, args)?;
    Stack::root(alloc, entry, func, vals.as_slice())
}
