//! A task's next step.
ghost use Rattle.std.specs.Prelude.{◌≡◌, ◌∷◌, [], slice_get, Some, IfOk, OnOk};
ghost use Rattle.std.specs.Option.{option_copied};
ghost use Rattle.ir_forms.specs.declared.ops.Op.{out-Op};
ghost use Rattle.source_meaning.specs.Tasks as task;
ghost use Rattle.source_meaning.specs.Tasks.{Program, Failing, Next, resumed};
ghost use Rattle.source_meaning.specs.Steps.{acts, begins, next, next_op, next_pending};
ghost use Rattle.source_tasks.specs.Asking.{IsStep, task_of};
ghost use Rattle.source_tasks.specs.Pending.{joined};
ghost use Rattle.source_tasks.specs.Code.{IsNext};

use crate::facts::Facts;
use crate::flow::scope_of;
use crate::loops::Loop;
use crate::names::Names;
use crate::pending::{Due, Waiting};
use crate::rows::{Row, row_of};
use crate::step::{Asked, Step};
use crate::task::{Did, Task};
use ir_forms::Op;
use lists::Items;
use source_meaning::Val;
use std::alloc::{AllocError, Global};

impl<'a> Task<'a> {
    /// The task of the function at this place, with these values of its parameters.
    pub fn of_function(
        alloc: Global,
        facts: &Facts<'a>,
        place: usize,
        vals: Items<Val>,
    ) -> Result<Task<'a>, AllocError>
        ensures { IfOk result (λ t. t ≡ task_of facts.now place vals) }
    {
        let scope = scope_of(alloc, facts, place, vals)?;
        Ok(Task {
            pending: Vec::new(alloc),
            rest: facts.ops(place),
            frames: Vec::new(alloc),
            scope,
        })
    }

    /// Whether the next step begins an operation.
    pub fn begins(&self) -> bool
        ensures { result ≡ begins self.now }
    {
        self.pending.is_empty() && !self.rest.is_empty()
    }

    /// The loop whose end is the next step.
    pub fn joining(&self) -> Option<&Loop<'a>>
        ensures { option_copied result ≡ joined self.now }
    {
        let Some(waiting) = self.pending.last() else {
            return None;
        };
        match &waiting.due {
            Due::Join(entered) => Some(entered),
            _ => None,
        }
    }

    /// The task goes on with the answer to what it asked: the names get these values, or the operation of this number fails.
    pub fn resume(
        &mut self,
        at: u32,
        names: &Names<'a>,
        answer: Option<Items<Val>>,
    ) -> Result<(), AllocError>
        ensures { OnOk result (self.new ≡ resumed at names.now self.old answer) }
    {
        match answer {
            Some(vals) => self.bind_answer(names, vals),
            None => self.fail_next(at),
        }
    }

    fn bind_answer(&mut self, names: &Names<'a>, vals: Items<Val>) -> Result<(), AllocError>
        ensures { OnOk result (self.new ≡ resumed 0 names.now self.old (Some vals)) }
    {
        match names.param {
            Some(param) => self.bind(&[param], vals),
            None => self.bind(names.results, vals),
        }
    }

    /// The operation of this number fails next.
    fn fail_next(&mut self, at: u32) -> Result<(), AllocError>
        ensures { OnOk result (self.new ≡ record self.old { pending = Failing at ∷ [] }) }
    {
        self.pending.clear();
        self.pending.push(Waiting { at, due: Due::Fail })?;
        Ok(())
    }

    /// A step that asks nothing; a failure is caught, or ends the task.
    pub(crate) fn settle(&mut self, alloc: Global, did: Did) -> Result<Step<'a>, AllocError>
        ensures { IfOk result (λ step. (before : task.Task) (n : Next) → IsNext did self.old n → IsStep step before self.new n) }
    {
        match did {
            Did::Went => Ok(Step::Went),
            Did::Gave(vals) => Ok(Step::Gave(vals)),
            Did::Fails { at } => {
                if self.catch(alloc, at)? {
                    Ok(Step::Went)
                } else {
                    Ok(Step::Failed { at })
                }
            }
        }
    }

    /// The operation is taken.
    fn take(&mut self, alloc: Global, facts: &Facts<'a>, op: &'a Op) -> Result<Step<'a>, AllocError>
        ensures { IfOk result (λ step. (before : task.Task) → IsStep step before self.new (acts facts.now (out-Op op.now) self.old)) }
    {
        match row_of(op.kind) {
            Row::Number(row) => {
                let did = self.number_step(alloc, op, row)?;
                self.settle(alloc, did)
            }
            Row::Flow(row) => {
                let did = self.flow_step(alloc, facts, op, row)?;
                self.settle(alloc, did)
            }
            Row::Ask(row) => self.ask_step(alloc, facts, op, row),
            Row::End => {
                let did = self.end_region(alloc, op)?;
                self.settle(alloc, did)
            }
            Row::Skip => Ok(Step::Went),
        }
    }

    /// The next operation of the region; where none is left the region gives nothing.
    fn op_step(&mut self, alloc: Global, facts: &Facts<'a>) -> Result<Step<'a>, AllocError>
        ensures { IfOk result (λ step. (before : task.Task) → IsStep step before self.new (next_op facts.now self.old.rest self.old)) }
    {
        match self.rest.split_first() {
            Some((op, rest)) => {
                self.rest = rest;
                self.take(alloc, facts, op)
            }
            None => {
                let did = self.leave(alloc, Items::new(alloc))?;
                self.settle(alloc, did)
            }
        }
    }

    /// What was pending first.
    fn pending_step(&mut self, alloc: Global, waiting: Waiting<'a>) -> Result<Step<'a>, AllocError>
        ensures { IfOk result (λ step. (p : Program) → IsStep step (record self.old { pending = waiting.entry ∷ self.old.pending }) self.new (next_pending p (waiting.entry ∷ self.old.pending) (record self.old { pending = waiting.entry ∷ self.old.pending }))) }
    {
        let Waiting { at, due } = waiting;
        match due {
            Due::Await { element, param } => Ok(Step::Asks {
                at,
                asked: Asked::AwaitsOne(element),
                names: Names {
                    param,
                    results: &[],
                },
            }),
            Due::Join(entered) => Ok(Step::Asks {
                at,
                asked: Asked::JoinsAll {
                    total: entered.total(),
                },
                names: Names {
                    param: None,
                    results: &[],
                },
            }),
            Due::Fail => {
                self.pending.clear();
                self.settle(alloc, Did::Fails { at })
            }
        }
    }

    /// The next step. Where it asks, `resume` is owed the answer before the step after it.
    #[tactic(auto, using(crate::proofs::Puts::reverse_snoc))]
    pub fn step(&mut self, alloc: Global, facts: &Facts<'a>) -> Result<Step<'a>, AllocError>
        ensures { IfOk result (λ step. IsStep step self.old self.new (next facts.now self.old)) }
    {
        match self.pending.pop() {
            Some(waiting) => {
                let step = self.pending_step(alloc, waiting)?;
                Ok(step)
            }
            None => self.op_step(alloc, facts),
        }
    }
}
