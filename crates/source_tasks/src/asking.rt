//! The operations that ask the shared state.
ghost use Rattle.std.specs.Prelude.{◌≡◌, ◌∷◌, [], Some, IfOk, OnOk};
ghost use Rattle.ir_forms.specs.declared.ops.Op.{out-Op};
ghost use Rattle.ir_forms.specs.Ops.{results_of};
ghost use Rattle.ir_verify.specs.declared.place.Nest.TheVariants.{InTask};
ghost use Rattle.source_meaning.specs.Values.{values_at, group_in, or_else};
ghost use Rattle.source_meaning.specs.Rows.{spans_of, turns_of, product_within, most_elements};
ghost use Rattle.source_meaning.specs.Tasks as task;
ghost use Rattle.source_meaning.specs.Tasks.{AwaitsAll, Joining, Next, Asks};
ghost use Rattle.source_meaning.specs.Steps.{operands, value, numbers, group, loads, stores, allocates, creates, adds, awaits_one, launches, child_of, loop_of, enters};
ghost use Rattle.source_tasks.specs.Asking.{IsPosed, IsStep};
ghost use Rattle.source_tasks.specs.Rows.{ask_does};

use crate::facts::Facts;
use crate::forms::{back, group, region_ops, region_params};
use crate::loops::{Loop, Span, spans_of, total_of};
use crate::names::Names;
use crate::pending::{Due, Waiting, first_awaits};
use crate::rows::AskRow;
use crate::sizes::{cell_of, dims_of, fit_sizes, sizes};
use crate::step::{Asked, Step};
use crate::task::{Did, Task};
use ir_forms::{Op, ValueNo};
use ir_verify::Nest;
use lists::Items;
use std::alloc::{AllocError, Global};

/// Groups and parallel loops have at most so many elements and iterations.
const MOST_ELEMENTS: u64 = 2_147_483_648;

impl<'a> Task<'a> {
    /// `memref.load`
    #[tactic(auto, using(crate::proofs::Puts::values_drop))]
    fn load(&self, alloc: Global, op: &Op) -> Result<Option<Asked<'a>>, AllocError>
        ensures { IfOk result (λ asked. IsPosed asked (results_of op.now) (out-Op op.now) self.now (loads (out-Op op.now) (operands self.now (out-Op op.now)) self.now)) }
    {
        let names = op.operands.as_slice();
        let env = &self.scope.env;
        match cell_of(env, env.dims(names, 0), back(names, 1)) {
            Some(cell) => {
                let buffer = env.buffer(alloc, names, 0)?;
                Ok(Some(Asked::Reads { buffer, cell }))
            }
            None => Ok(None),
        }
    }

    /// `memref.store`
    #[tactic(auto, using(crate::proofs::Puts::values_drop))]
    fn store(&self, alloc: Global, op: &Op) -> Result<Option<Asked<'a>>, AllocError>
        ensures { IfOk result (λ asked. IsPosed asked [] (out-Op op.now) self.now (stores (out-Op op.now) (operands self.now (out-Op op.now)) self.now)) }
    {
        let names = op.operands.as_slice();
        let env = &self.scope.env;
        match cell_of(env, env.dims(names, 1), back(names, 2)) {
            Some(cell) => {
                let number = env.number(names, 0);
                let buffer = env.buffer(alloc, names, 1)?;
                Ok(Some(Asked::Writes {
                    buffer,
                    cell,
                    number,
                }))
            }
            None => Ok(None),
        }
    }

    /// `memref.alloc`
    fn allocate(&self, alloc: Global, op: &Op) -> Result<Option<Asked<'a>>, AllocError>
        ensures { IfOk result (λ asked. IsPosed asked (results_of op.now) (out-Op op.now) self.now (allocates (out-Op op.now) (operands self.now (out-Op op.now)) self.now)) }
    {
        let given = self.scope.env.numbers(alloc, op.operands.as_slice())?;
        let sizes = sizes(alloc, dims_of(op.types.as_slice()), given.as_slice())?;
        match fit_sizes(alloc, sizes.as_slice())? {
            Some((dims, cells)) => Ok(Some(Asked::Allocs { dims, cells })),
            None => Ok(None),
        }
    }

    /// `async.create_group`
    #[tactic(auto, using(crate::proofs::Posed::posed_create))]
    fn create(&self, op: &Op) -> Option<Asked<'a>>
        ensures { IsPosed result (results_of op.now) (out-Op op.now) self.now (creates (out-Op op.now) (operands self.now (out-Op op.now)) self.now) }
    {
        let size = self.scope.env.number(op.operands.as_slice(), 0);
        if size <= MOST_ELEMENTS {
            Some(Asked::Creates { size: size as u32 })
        } else {
            None
        }
    }

    /// `async.add_to_group`
    fn add(&self, alloc: Global, facts: &Facts, op: &Op) -> Result<Option<Asked<'a>>, AllocError>
        ensures { IfOk result (λ asked. IsPosed asked (results_of op.now) (out-Op op.now) self.now (adds facts.now (out-Op op.now) (operands self.now (out-Op op.now)) self.now)) }
    {
        let names = op.operands.as_slice();
        match self.scope.env.element(alloc, names, 0)? {
            Some(element) => {
                let group = self.scope.env.group(alloc, names, 1)?;
                let used = facts.is_used(self.scope.func, op.results.as_slice().first().copied());
                Ok(Some(Asked::Adds {
                    group,
                    element,
                    used,
                }))
            }
            None => Ok(None),
        }
    }

    /// `async.await`
    #[tactic(auto, using(crate::proofs::Posed::posed_await))]
    fn await_one(&self, alloc: Global, op: &Op) -> Result<Option<Asked<'a>>, AllocError>
        ensures { IfOk result (λ asked. IsPosed asked (results_of op.now) (out-Op op.now) self.now (awaits_one (out-Op op.now) (operands self.now (out-Op op.now)) self.now)) }
    {
        match self.scope.env.element(alloc, op.operands.as_slice(), 0)? {
            Some(element) => Ok(Some(Asked::AwaitsOne(element))),
            None => Ok(None),
        }
    }

    /// The task that `async.execute` launches: it sees its maker's values.
    #[tactic(auto, using(crate::proofs::Puts::group_values))]
    fn child(&self, alloc: Global, op: &'a Op) -> Result<Task<'a>, AllocError>
        ensures { IfOk result (λ t. t ≡ child_of (out-Op op.now) (operands self.now (out-Op op.now)) self.now) }
    {
        let scope = self.scope.copy_in(alloc, Nest::InTask)?;
        let env = &self.scope.env;
        let params = region_params(op, 0);
        let pending = first_awaits(alloc, env, op.at, group(op, 0), params, group(op, 1))?;
        Ok(Task {
            pending,
            rest: region_ops(op, 0),
            frames: Vec::new(alloc),
            scope,
        })
    }

    /// `async.execute`
    #[tactic(auto, using(crate::proofs::Posed::posed_launch))]
    fn launch(&self, alloc: Global, op: &'a Op) -> Result<Option<Asked<'a>>, AllocError>
        ensures { IfOk result (λ asked. IsPosed asked (results_of op.now) (out-Op op.now) self.now (launches (out-Op op.now) (operands self.now (out-Op op.now)) self.now)) }
    {
        let task = self.child(alloc, op)?;
        let results = op.results.len().saturating_sub(1);
        Ok(Some(Asked::Launches { task, results }))
    }

    /// The dimensions of a parallel loop. None where a bound or a step is out of range.
    #[tactic(auto, using(crate::proofs::Puts::group_values))]
    fn dimensions(&self, alloc: Global, op: &Op) -> Result<Option<Items<Span>>, AllocError>
        ensures { IfOk result (λ spans. spans ≡ spans_of (numbers (group (out-Op op.now) (operands self.now (out-Op op.now)) 0)) (numbers (group (out-Op op.now) (operands self.now (out-Op op.now)) 1)) (numbers (group (out-Op op.now) (operands self.now (out-Op op.now)) 2))) }
    {
        let env = &self.scope.env;
        let lowers = env.numbers(alloc, group(op, 0))?;
        let uppers = env.numbers(alloc, group(op, 1))?;
        let steps = env.numbers(alloc, group(op, 2))?;
        spans_of(
            alloc,
            lowers.as_slice(),
            uppers.as_slice(),
            steps.as_slice(),
        )
    }

    /// The loop that is entered: its iterations see what their maker sees.
    fn loop_of(
        &self,
        alloc: Global,
        facts: &Facts,
        op: &'a Op,
        spans: Items<Span>,
        total: u32,
    ) -> Result<Loop<'a>, AllocError>
        requires { product_within most_elements (turns_of spans) ≡ Some total }
        ensures { IfOk result (λ l. l ≡ loop_of facts.now (out-Op op.now) self.now spans total) }
    {
        let scope = self.scope.copy_in(alloc, Nest::InLoop)?;
        Ok(Loop {
            scope,
            params: region_params(op, 0),
            body: region_ops(op, 0),
            spans,
            total,
            split: facts.is_split(&self.scope),
        })
    }

    /// The loop's end comes next.
    fn join_next(&mut self, at: u32, entered: Loop<'a>) -> Result<(), AllocError>
        ensures { OnOk result (self.new ≡ record self.old { pending = Joining at entered.entry ∷ [] }) }
    {
        self.pending.clear();
        self.pending.push(Waiting {
            at,
            due: Due::Join(entered),
        })?;
        Ok(())
    }

    /// `scf.parallel`
    #[tactic(auto, using(crate::proofs::Posed::posed_none, crate::proofs::Posed::posed_many))]
    fn enter_loop(
        &mut self,
        alloc: Global,
        facts: &Facts,
        op: &'a Op,
    ) -> Result<Option<Asked<'a>>, AllocError>
        ensures { IfOk result (λ asked. IsPosed asked [] (out-Op op.now) self.new (enters facts.now (out-Op op.now) (operands self.old (out-Op op.now)) self.old)) }
    {
        let Some(spans) = self.dimensions(alloc, op)? else {
            return Ok(None);
        };
        let Some(total) = total_of(spans.as_slice()) else {
            return Ok(None);
        };
        let entered = self.loop_of(alloc, facts, op, spans, total)?;
        let split = entered.split;
        self.join_next(op.at, entered)?;
        Ok(Some(Asked::Enters { total, split }))
    }

    /// What is asked for these names, or a failure of the operation.
    fn pose(
        &mut self,
        alloc: Global,
        op: &'a Op,
        asked: Option<Asked<'a>>,
        results: &'a [ValueNo],
    ) -> Result<Step<'a>, AllocError>
        ensures { IfOk result (λ step. (before : task.Task) (n : Next) → IsPosed asked.entry results.now (out-Op op.now) self.old n → IsStep step before self.new n) }
    {
        match asked {
            Some(asked) => Ok(Step::Asks {
                at: op.at,
                asked,
                names: Names {
                    param: None,
                    results,
                },
            }),
            None => self.settle(alloc, Did::Fails { at: op.at }),
        }
    }

    /// What an operation does that asks the shared state.
    #[tactic(auto, using(crate::proofs::Posed::posed_all))]
    pub(crate) fn ask_step(
        &mut self,
        alloc: Global,
        facts: &Facts,
        op: &'a Op,
        row: AskRow,
    ) -> Result<Step<'a>, AllocError>
        ensures { IfOk result (λ step. (before : task.Task) → IsStep step before self.new (ask_does row facts.now (out-Op op.now) (operands self.old (out-Op op.now)) self.old)) }
    {
        let results = op.results.as_slice();
        match row {
            AskRow::Load => {
                let asked = self.load(alloc, op)?;
                self.pose(alloc, op, asked, results)
            }
            AskRow::Store => {
                let asked = self.store(alloc, op)?;
                self.pose(alloc, op, asked, &[])
            }
            AskRow::Alloc => {
                let asked = self.allocate(alloc, op)?;
                self.pose(alloc, op, asked, results)
            }
            AskRow::Create => {
                let asked = self.create(op);
                self.pose(alloc, op, asked, results)
            }
            AskRow::Add => {
                let asked = self.add(alloc, facts, op)?;
                self.pose(alloc, op, asked, results)
            }
            AskRow::Await => {
                let asked = self.await_one(alloc, op)?;
                self.pose(alloc, op, asked, results)
            }
            AskRow::AwaitAll => {
                let group = self.scope.env.group(alloc, op.operands.as_slice(), 0)?;
                self.pose(alloc, op, Some(Asked::AwaitsAll(group)), &[])
            }
            AskRow::Execute => {
                let asked = self.launch(alloc, op)?;
                self.pose(alloc, op, asked, results)
            }
            AskRow::Parallel => {
                let asked = self.enter_loop(alloc, facts, op)?;
                self.pose(alloc, op, asked, &[])
            }
        }
    }
}
