//! How a task enters and leaves regions and functions, and where a failure is caught.
ghost use Rattle.std.specs.Prelude.{◌≡◌, Some, None, IfOk, OnOk, MatchBool};
ghost use Rattle.ir_forms.specs.declared.ops.Op.{out-Op};
ghost use Rattle.ir_forms.specs.Ops.{attr_of};
ghost use Rattle.ir_verify.specs.Calls.{callee_place};
ghost use Rattle.source_meaning.specs.Parts.{region_of};
ghost use Rattle.source_meaning.specs.Tasks.{Next, Goes, Ends, FailedAt, Tests};
ghost use Rattle.source_meaning.specs.Flow.{scope_of, called, entered, left, gives, tried, fails, caught_at};
ghost use Rattle.source_meaning.specs.Steps.{operands, loops};
ghost use Rattle.source_tasks.specs.Code.{IsNext, after_of, saved_scope};

use crate::env::Env;
use crate::facts::Facts;
use crate::forms::{are_bounds, back, stepped};
use crate::frames::{Follow, Frame, Scope};
use crate::task::{Did, Task, names_of};
use ir_forms::Op;
use ir_verify::Nest;
use lists::Items;
use source_meaning::Val;
use std::alloc::{AllocError, Global};
use std::mem;

impl<'a> Task<'a> {
    /// Into the function at this place.
    #[tactic(auto, using(crate::proofs::Puts::reverse_snoc))]
    fn call_at(
        &mut self,
        alloc: Global,
        facts: &Facts<'a>,
        op: &'a Op,
        follow: Follow,
        place: usize,
    ) -> Result<(), AllocError>
        ensures { OnOk result (self.new ≡ called facts.now (after_of follow (out-Op op.now) self.old.scope) (Some place) (operands self.old (out-Op op.now)) self.old) }
    {
        let vals = self.scope.env.values(alloc, op.operands.as_slice())?;
        let scope = scope_of(alloc, facts, place, vals)?;
        let saved = mem::replace(&mut self.scope, scope);
        self.frames.push(Frame {
            follow,
            op,
            rest: self.rest,
            saved: Some(saved),
        })?;
        self.rest = facts.ops(place);
        Ok(())
    }

    /// Into a function that isn't there, which has no operations.
    #[tactic(auto, using(crate::proofs::Puts::reverse_snoc))]
    fn call_nothing(
        &mut self,
        alloc: Global,
        facts: &Facts<'a>,
        op: &'a Op,
        follow: Follow,
    ) -> Result<(), AllocError>
        ensures { OnOk result (self.new ≡ called facts.now (after_of follow (out-Op op.now) self.old.scope) None (operands self.old (out-Op op.now)) self.old) }
    {
        let saved = self.scope.copy(alloc)?;
        self.frames.push(Frame {
            follow,
            op,
            rest: self.rest,
            saved: Some(saved),
        })?;
        self.rest = &[];
        Ok(())
    }

    /// Into the function that the operation names, with what follows its end.
    pub(crate) fn call(
        &mut self,
        alloc: Global,
        facts: &Facts<'a>,
        op: &'a Op,
        follow: Follow,
    ) -> Result<(), AllocError>
        ensures { OnOk result (self.new ≡ called facts.now (after_of follow (out-Op op.now) self.old.scope) (callee_place facts.now.funcs (attr_of op.now)) (operands self.old (out-Op op.now)) self.old) }
    {
        match facts.callee(&op.attr) {
            Some(place) => self.call_at(alloc, facts, op, follow, place),
            None => self.call_nothing(alloc, facts, op, follow),
        }
    }

    /// `scf.while`
    pub(crate) fn begin_while(&mut self, alloc: Global, op: &'a Op) -> Result<(), AllocError>
        ensures { OnOk result (self.new ≡ entered (Tests (out-Op op.now)) (region_of (out-Op op.now) 0) (operands self.old (out-Op op.now)) self.old) }
    {
        let vals = self.scope.env.values(alloc, op.operands.as_slice())?;
        self.enter(alloc, op, Follow::Tests, 0, vals)
    }

    /// A terminator gives its operands.
    pub(crate) fn end_region(&mut self, alloc: Global, op: &'a Op) -> Result<Did, AllocError>
        ensures { IfOk result (λ d. IsNext d self.new (gives (operands self.old (out-Op op.now)) self.old)) }
    {
        let vals = self.scope.env.values(alloc, op.operands.as_slice())?;
        self.leave(alloc, vals)
    }

    /// `scf.for`
    #[tactic(auto, using(crate::proofs::Puts::values_drop))]
    pub(crate) fn begin_loop(&mut self, alloc: Global, op: &'a Op) -> Result<Did, AllocError>
        ensures { IfOk result (λ d. IsNext d self.new (loops (out-Op op.now) (operands self.old (out-Op op.now)) self.old)) }
    {
        let names = op.operands.as_slice();
        let lower = self.scope.env.number(names, 0);
        let upper = self.scope.env.number(names, 1);
        let step = self.scope.env.number(names, 2);
        if are_bounds(lower, upper, step) {
            let vals = self.scope.env.values(alloc, back(names, 3))?;
            self.turn(alloc, op, lower, upper, step, vals)?;
            Ok(Did::Went)
        } else {
            Ok(Did::Fails { at: op.at })
        }
    }

    /// Behind a region that gave these values.
    fn leave_into(
        &mut self,
        alloc: Global,
        frame: Frame<'a>,
        vals: Items<Val>,
    ) -> Result<(), AllocError>
        ensures { OnOk result (self.new ≡ left frame.entry.0 vals (record self.old { rest = frame.entry.1 })) }
    {
        let Frame {
            follow,
            op,
            rest,
            saved,
        } = frame;
        self.rest = rest;
        match follow {
            Follow::Joins => self.bind(op.results.as_slice(), vals),
            Follow::Turns { i, upper, step } => {
                self.turn(alloc, op, stepped(i, step), upper, step, vals)
            }
            Follow::Tests => self.test(alloc, op, vals),
            Follow::Repeats => self.enter(alloc, op, Follow::Tests, 0, vals),
            Follow::Returns => {
                self.scope = or_empty(alloc, saved);
                self.bind(op.results.as_slice(), vals)
            }
            Follow::Tries => {
                self.scope = or_empty(alloc, saved);
                self.give(op.results.as_slice(), Val::Number(1))
            }
        }
    }

    /// The region that the task is in gives these values.
    #[tactic(auto, using(crate::proofs::Puts::reverse_snoc))]
    pub(crate) fn leave(&mut self, alloc: Global, vals: Items<Val>) -> Result<Did, AllocError>
        ensures { IfOk result (λ d. IsNext d self.new (gives vals self.old)) }
    {
        match self.frames.pop() {
            None => Ok(Did::Gave(vals)),
            Some(frame) => {
                self.leave_into(alloc, frame, vals)?;
                Ok(Did::Went)
            }
        }
    }

    /// The innermost frame takes the failure, if its call is tried.
    fn catch_in(&mut self, alloc: Global, frame: Frame<'a>) -> Result<bool, AllocError>
        ensures { IfOk result (λ went. MatchBool went
            ((outer : Next) → caught_at (tried frame.entry.0) (record self.old { rest = frame.entry.1 }) outer ≡ Goes self.new)
            ((tried frame.entry.0 ≡ None) × (self.new ≡ self.old))) }
    {
        let Frame {
            follow,
            op,
            rest,
            saved,
        } = frame;
        match follow {
            Follow::Tries => {
                self.rest = rest;
                self.scope = or_empty(alloc, saved);
                self.give(op.results.as_slice(), Val::Number(0))?;
                Ok(true)
            }
            Follow::Joins => Ok(false),
            Follow::Turns { .. } => Ok(false),
            Follow::Tests => Ok(false),
            Follow::Repeats => Ok(false),
            Follow::Returns => Ok(false),
        }
    }

    /// The operation of this number fails: the innermost call that is tried goes on, or else the task ends.
    #[tactic(auto, using(crate::proofs::Caught::caught_popped, crate::proofs::Puts::reverse_snoc))]
    pub(crate) fn catch(&mut self, alloc: Global, at: u32) -> Result<bool, AllocError>
        ensures { IfOk result (λ went. MatchBool went (fails at self.old ≡ Goes self.new) (fails at self.old ≡ Ends (FailedAt at))) }
    {
        loop {
            let Some(frame) = self.frames.pop() else {
                return Ok(false);
            };
            if self.catch_in(alloc, frame)? {
                return Ok(true);
            }
        }
    }
}

/// What the function at this place begins with.
pub(crate) fn scope_of(
    alloc: Global,
    facts: &Facts,
    place: usize,
    vals: Items<Val>,
) -> Result<Scope, AllocError>
    ensures { IfOk result (λ scope. scope ≡ scope_of facts.now place vals) }
{
    let names = names_of(alloc, facts.params(place))?;
    let mut env = Env::new(alloc);
    env.bind(names.as_slice(), vals)?;
    Ok(Scope {
        func: place,
        nest: Nest::InFunction,
        env,
    })
}

/// The scope that was kept, or that of no values.
fn or_empty(alloc: Global, saved: Option<Scope>) -> Scope
    ensures { result ≡ saved_scope saved }
{
    match saved {
        Some(scope) => scope,
        None => Scope {
            func: 0,
            nest: Nest::InFunction,
            env: Env::new(alloc),
        },
    }
}
