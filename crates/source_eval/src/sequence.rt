//! The sequential run: the tasks that haven't ended, each above its maker, and what they share.
ghost use Rattle.std.specs.Prelude.{◌≡◌, ◌+◌, ◌^◌, ◌<◌, ℕ, None, Some, map, reverse, IfOk, OnOk};
ghost use Rattle.source_meaning.specs.Tasks as spec;
ghost use Rattle.source_meaning.specs.Tasks.{Ask, resumed};
ghost use Rattle.source_meaning.specs.Sequential as run;
ghost use Rattle.source_meaning.specs.World.{is_good};
ghost use Rattle.source_meaning.specs.Sequential.{finishes, move, stops, takes, unless_stopped};
ghost use Rattle.source_state.specs.Seen.{Alike, outcome_of};
ghost use Rattle.source_tasks.specs.Asking.{IsAsk};
ghost use Rattle.source_eval.specs.Following.{IsLike, IsMoved, IsPut, IsTaken, IsEntry, left_to_begin, running_of};

use crate::answers::{Answered, answer};
use crate::ends::end_from;
use crate::joins::Running;
use crate::made::{iteration_path, launch_path, show};
use ir_forms::{Action, Path, TraceEntry, Ty, ValueNo};
use lists::Items;
use source_meaning::{SourceEnd, Val};
use source_state::{Ended, Shared};
use source_tasks::{Asked, Facts, Names, Step, Task};
use std::alloc::{AllocError, Global};
use std::mem;

/// The entry of a run: the types of its results, and its parameters.
#[derive(Clone, Copy)]
pub(crate) struct Entry<'a> {
    pub(crate) results: &'a [Ty],
    pub(crate) params: &'a [(ValueNo, Ty)],
}

/// The task that steps, the tasks below it, the shared state, and what was done.
#[derive(Drop)]
pub(crate) struct Sequence<'a> {
    pub(crate) top: Running<'a>,
    pub(crate) below: Vec<Running<'a>>,
    pub(crate) shared: Shared,
    pub(crate) entries: Items<TraceEntry>,
}

/// Whether a task ended without failure.
fn ended_well(ended: &Ended) -> bool
    ensures { result ≡ is_good (Some (outcome_of ended.now)) }
{
    match ended {
        Ended::Gave(_) => true,
        Ended::FailedAt(_) => false,
    }
}

impl<'a> Sequence<'a> {
    /// Puts a task that begins on top.
    #[tactic(auto, using(crate::proofs::Moves::pushed))]
    fn put(&mut self, path: Path, task: Task<'a>) -> Result<(), AllocError>
        ensures { OnOk result (IsPut self.old self.new path task.entry) }
    {
        let begun = Running {
            path,
            taken: 0,
            begun: 0,
            task,
        };
        let maker = mem::replace(&mut self.top, begun);
        self.below.push(maker)?;
        Ok(())
    }

    /// The next iteration of the loop that the top task joins begins.
    fn begin(&mut self, alloc: Global, task: Task<'a>) -> Result<(), AllocError>
        requires { self.old.top.begun + 1 < 2 ^ 32 }
        ensures { OnOk result ((p : spec.Program) (k : ℕ) (w : run.Sequence) → left_to_begin self.old.top.begun self.old.top.task ≡ Some task.entry → IsLike self.old w → IsMoved None self.new (move p k w)) }
    {
        let path = iteration_path(
            alloc,
            self.top.path.as_slice(),
            self.top.taken,
            self.top.begun,
        )?;
        self.top.begun += 1;
        self.put(path, task)
    }

    /// The top task ends, and with the root the run.
    fn finish(
        &mut self,
        alloc: Global,
        entry: Entry<'a>,
        ended: Ended,
    ) -> Result<Option<SourceEnd>, AllocError>
        ensures { IfOk result (λ end. (p : spec.Program) (k : ℕ) (w : run.Sequence) (top : run.Running) → IsEntry p k entry.entry → Alike self.old.shared w.world → w.trace ≡ self.old.entries → top.path ≡ self.old.top.path → IsMoved end self.new (finishes p k w top (map running_of (reverse self.old.below.items)) (outcome_of ended))) }
    {
        let good = ended_well(&ended);
        show(
            alloc,
            &mut self.entries,
            self.top.path.as_slice(),
            Action::End(good),
        )?;
        match self.below.pop() {
            None => {
                let end = end_from(alloc, entry.results, entry.params, &self.shared, ended)?;
                Ok(Some(end))
            }
            Some(maker) => {
                let over = mem::replace(&mut self.top, maker);
                self.shared.end(alloc, over.path.as_slice(), ended)?;
                Ok(None)
            }
        }
    }

    /// The top task has taken an action, and goes on with the answer; what it launched comes on top.
    fn take(
        &mut self,
        alloc: Global,
        at: u32,
        names: Names<'a>,
        action: Action,
        given: Option<Items<Val>>,
        launched: Option<Task<'a>>,
    ) -> Result<(), AllocError>
        requires { self.old.top.taken + 1 < 2 ^ 32 }
        ensures { OnOk result (IsTaken self.old self.new at names.entry action given launched.entry) }
    {
        show(alloc, &mut self.entries, self.top.path.as_slice(), action)?;
        self.top.taken += 1;
        self.top.begun = 0;
        self.top.task.resume(at, &names, given)?;
        match launched {
            Some(task) => {
                let path = launch_path(alloc, self.top.path.as_slice(), self.top.taken)?;
                self.put(path, task)
            }
            None => Ok(()),
        }
    }

    /// The shared state answers to what the top task asks.
    fn serve(
        &mut self,
        alloc: Global,
        at: u32,
        asked: Asked<'a>,
        names: Names<'a>,
    ) -> Result<Option<SourceEnd>, AllocError>
        requires counts { self.old.top.taken + 1 < 2 ^ 32 }
        requires posed { (t : spec.Task) × (a : Ask) × IsAsk asked t a }
        ensures { IfOk result (λ end. (w : run.Sequence) (top : run.Running) (t : spec.Task) (a : Ask) → IsAsk asked.entry t a → Alike self.old.shared w.world → w.trace ≡ self.old.entries → top.path ≡ self.old.top.path → top.taken ≡ self.old.top.taken → IsMoved end self.new (unless_stopped (stops w.world a) w.trace (takes w top (map running_of (reverse self.old.below.items)) a (resumed at names.entry self.old.top.task)))) }
    {
        let taken = self.top.taken;
        match answer(
            alloc,
            &mut self.shared,
            self.top.path.as_slice(),
            taken,
            asked,
        )? {
            Answered::Stops(end) => Ok(Some(end)),
            Answered::Goes {
                action,
                answer,
                launched,
            } => {
                self.take(alloc, at, names, action, answer, launched)?;
                Ok(None)
            }
        }
    }

    /// The top task takes a step.
    fn step(
        &mut self,
        alloc: Global,
        facts: &Facts<'a>,
        entry: Entry<'a>,
    ) -> Result<Option<SourceEnd>, AllocError>
        requires counts { self.old.top.taken + 1 < 2 ^ 32 }
        requires none { left_to_begin self.old.top.begun self.old.top.task ≡ None }
        ensures { IfOk result (λ end. (k : ℕ) (w : run.Sequence) → IsEntry facts.now k entry.entry → IsLike self.old w → IsMoved end self.new (move facts.now k w)) }
    {
        match self.top.task.step(alloc, facts)? {
            Step::Went => Ok(None),
            Step::Asks { at, asked, names } => self.serve(alloc, at, asked, names),
            Step::Gave(vals) => self.finish(alloc, entry, Ended::Gave(vals)),
            Step::Failed { at } => self.finish(alloc, entry, Ended::FailedAt(at)),
        }
    }

    /// One step of the run: an iteration begins, or the top task takes a step. The answer is the run's end, once it
    /// comes.
    pub(crate) fn advance(
        &mut self,
        alloc: Global,
        facts: &Facts<'a>,
        entry: Entry<'a>,
    ) -> Result<Option<SourceEnd>, AllocError>
        ensures { IfOk result (λ end. (k : ℕ) (w : run.Sequence) → IsEntry facts.now k entry.entry → IsLike self.old w → IsMoved end self.new (move facts.now k w)) }
    {
        if self.top.taken >= 4_294_967_295 || self.top.begun >= 4_294_967_295 {
            return Err(AllocError);
        }
        match self.top.next_iteration(alloc)? {
            Some(task) => {
                self.begin(alloc, task)?;
                Ok(None)
            }
            None => self.step(alloc, facts, entry),
        }
    }
}
