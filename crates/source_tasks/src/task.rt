//! A task of the run, and the steps that it takes by itself.
ghost use Rattle.std.specs.Prelude.{◌≡◌, ◌∷◌, [], None, slice_get, IfOk, OnOk, MatchOption};
ghost use Rattle.ir_forms.specs.Ops.{attr_of};
ghost use Rattle.source_meaning.specs.Values.{number_in, dims_in};
ghost use Rattle.ir_forms.specs.declared.ops.Op.{out-Op};
ghost use Rattle.source_meaning.specs.declared.values.Val.{Val};
ghost use Rattle.source_meaning.specs.Parts.{region_of, names_of};
ghost use Rattle.source_meaning.specs.Rows.{literal_bits, at_width, compared_at};
ghost use Rattle.source_meaning.specs.Tasks.{bound};
ghost use Rattle.source_meaning.specs.Flow.{entered, turned, tested};
ghost use Rattle.source_meaning.specs.Steps.{operands, value, number, computes, binary, extends_sign, fits_width, selects, asserts, branches, result_width, written_width, makes};
ghost use Rattle.source_tasks.specs.Code.{IsNext, after_of, saved_scope};

use crate::forms::{
    branch_of, compared_at, cut, is_below, literal, region_ops, region_params, result_at,
    sign_cast, width,
};
use crate::frames::{Follow, Frame, Scope};
use crate::pending::Waiting;
use int_ops::BinOp;
use ir_forms::{Op, Ty, ValueNo};
use lists::Items;
use source_meaning::Val;
use std::alloc::{AllocError, Global};
use std::marker::Model;

/// A task: what is left of it.
#[derive(Drop)]
pub struct Task<'a> {
    pub(crate) pending: Vec<Waiting<'a>>,
    pub(crate) rest: &'a [Op],
    pub(crate) frames: Vec<Frame<'a>>,
    pub(crate) scope: Scope,
}

impl<'a> Model for Task<'a> {
    ghost use Rattle.ir_forms.specs.contracts.ops.Op as op_code;
    ghost use Rattle.ir_forms.specs.contracts.ops.Region as region_code;
    ghost use Rattle.std.specs.Coded.{codes};
    ghost use Rattle.std.specs.Prelude.{reverse};
    ghost use Rattle.source_meaning.specs.Tasks.{Task};

    ghost Value = { Task };

    ghost coded = { Prim.hlevel (codes, op_code.the_row.coded, region_code.the_row.coded) };

    ghost view = { λ t. record { pending = reverse t.pending.items; rest = t.rest.now; frames = reverse t.frames.items; scope = t.scope } };
}

/// What a step that asks nothing came to: the task goes on, or ends with these values, or the operation
/// of this number fails.
#[derive(Drop)]
pub enum Did {
    Went,
    Gave(Items<Val>),
    Fails { at: u32 },
}

pub(crate) fn names_of(
    alloc: Global,
    params: &[(ValueNo, Ty)],
) -> Result<Items<ValueNo>, AllocError>
    ensures { IfOk result (λ names. names ≡ names_of params.now) }
{
    let mut names = Items::new(alloc);
    for param in params {
        names.push(param.0)?;
    }
    Ok(names)
}

/// The first value and the others.
fn split_front(vals: Items<Val>) -> Option<(Val, Items<Val>)>
    ensures { MatchOption result (vals ≡ []) (λ s. vals ≡ s.0 ∷ s.1) }
{
    let mut vals = vals.into_vec();
    if vals.is_empty() {
        return None;
    }
    let first = vals.remove(0);
    Some((first, Items::from_vec(vals)))
}

/// This value in front of the others.
fn with_front(alloc: Global, first: Val, vals: Items<Val>) -> Result<Items<Val>, AllocError>
    ensures { IfOk result (λ all. all ≡ first ∷ vals) }
{
    let mut all = Items::new(alloc);
    all.push(first)?;
    all.append(vals)?;
    Ok(all)
}

impl<'a> Task<'a> {
    pub(crate) fn bind(&mut self, names: &[ValueNo], vals: Items<Val>) -> Result<(), AllocError>
        ensures { OnOk result (self.new ≡ bound names.now vals self.old) }
    {
        self.scope.env.bind(names, vals)
    }

    /// Gives the one value its name.
    pub(crate) fn give(&mut self, names: &[ValueNo], val: Val) -> Result<(), AllocError>
        ensures { OnOk result (self.new ≡ bound names.now (val ∷ []) self.old) }
    {
        match names.first() {
            Some(name) => self.scope.env.put(*name, val),
            None => Ok(()),
        }
    }

    /// Into a region of the operation.
    #[tactic(auto, using(crate::proofs::Puts::reverse_snoc))]
    pub(crate) fn enter(
        &mut self,
        alloc: Global,
        op: &'a Op,
        follow: Follow,
        region: usize,
        vals: Items<Val>,
    ) -> Result<(), AllocError>
        ensures { OnOk result (self.new ≡ entered (after_of follow (out-Op op.now) (saved_scope None)) (region_of (out-Op op.now) region) vals self.old) }
    {
        self.frames.push(Frame {
            follow,
            op,
            rest: self.rest,
            saved: None,
        })?;
        self.rest = region_ops(op, region);
        let names = names_of(alloc, region_params(op, region))?;
        self.bind(names.as_slice(), vals)
    }

    /// The turn of a loop whose variable has these bits, or the loop's end.
    pub(crate) fn turn(
        &mut self,
        alloc: Global,
        op: &'a Op,
        i: u64,
        upper: u64,
        step: u64,
        vals: Items<Val>,
    ) -> Result<(), AllocError>
        ensures { OnOk result (self.new ≡ turned (out-Op op.now) i upper step vals self.old) }
    {
        if is_below(i, upper) {
            let vals = with_front(alloc, Val::Number(i), vals)?;
            self.enter(alloc, op, Follow::Turns { i, upper, step }, 0, vals)
        } else {
            self.bind(op.results.as_slice(), vals)
        }
    }

    /// Behind the test of `scf.while`, whose first value is the answer.
    pub(crate) fn test(
        &mut self,
        alloc: Global,
        op: &'a Op,
        vals: Items<Val>,
    ) -> Result<(), AllocError>
        ensures { OnOk result (self.new ≡ tested (out-Op op.now) vals self.old) }
    {
        let Some((answer, vals)) = split_front(vals) else {
            return Ok(());
        };
        if number_in(&answer) == 0 {
            self.bind(op.results.as_slice(), vals)
        } else {
            self.enter(alloc, op, Follow::Repeats, 1, vals)
        }
    }
}

fn number_in(val: &Val) -> u64
    ensures { result ≡ number_in val.now }
{
    match val {
        Val::Number(n) => *n,
        _ => 0,
    }
}

impl<'a> Task<'a> {
    /// The one result, or a failure.
    pub(crate) fn compute(&mut self, op: &Op, number: Option<u64>) -> Result<Did, AllocError>
        ensures { IfOk result (λ d. IsNext d self.new (computes (out-Op op.now) self.old number)) }
    {
        match number {
            Some(n) => {
                self.give(op.results.as_slice(), Val::Number(n))?;
                Ok(Did::Went)
            }
            None => Ok(Did::Fails { at: op.at }),
        }
    }

    /// An operation on two numbers.
    pub(crate) fn binary(&mut self, op: &Op, how: BinOp) -> Result<Did, AllocError>
        ensures { IfOk result (λ d. IsNext d self.new (binary how (out-Op op.now) (operands self.old (out-Op op.now)) self.old)) }
    {
        let names = op.operands.as_slice();
        let a = self.scope.env.number(names, 0);
        let b = self.scope.env.number(names, 1);
        let number = result_at(width(op.types.as_slice()), how, a, b);
        self.compute(op, number)
    }

    pub(crate) fn constant(&mut self, op: &Op) -> Result<Did, AllocError>
        ensures { IfOk result (λ d. IsNext d self.new (makes (out-Op op.now) self.old (at_width (result_width (out-Op op.now)) (literal_bits (attr_of op.now))))) }
    {
        let n = cut(width(op.types.as_slice()), literal(&op.attr));
        self.compute(op, Some(n))
    }

    pub(crate) fn compare(&mut self, op: &Op) -> Result<Did, AllocError>
        ensures { IfOk result (λ d. IsNext d self.new (makes (out-Op op.now) self.old (compared_at (written_width (out-Op op.now)) (attr_of op.now) (number (operands self.old (out-Op op.now)) 0) (number (operands self.old (out-Op op.now)) 1)))) }
    {
        let names = op.operands.as_slice();
        let a = self.scope.env.number(names, 0);
        let b = self.scope.env.number(names, 1);
        let n = compared_at(width(op.written.as_slice()), &op.attr, a, b);
        self.compute(op, Some(n))
    }

    pub(crate) fn dimension(&mut self, op: &Op) -> Result<Did, AllocError>
        ensures { IfOk result (λ d. IsNext d self.new (computes (out-Op op.now) self.old (slice_get (dims_in (value (operands self.old (out-Op op.now)) 0)) (number (operands self.old (out-Op op.now)) 1)))) }
    {
        let names = op.operands.as_slice();
        let place = self.scope.env.number(names, 1);
        let size = match self.scope.env.dims(names, 0).get(place as usize) {
            Some(size) => Some(*size as u64),
            None => None,
        };
        self.compute(op, size)
    }

    /// A cast by sign.
    pub(crate) fn extend_sign(&mut self, op: &Op) -> Result<Did, AllocError>
        ensures { IfOk result (λ d. IsNext d self.new (extends_sign (out-Op op.now) (operands self.old (out-Op op.now)) self.old)) }
    {
        let n = self.scope.env.number(op.operands.as_slice(), 0);
        let n = sign_cast(width(op.written.as_slice()), width(op.types.as_slice()), n);
        self.compute(op, Some(n))
    }

    /// A cast by zeros, or to a narrower width.
    pub(crate) fn fit_width(&mut self, op: &Op) -> Result<Did, AllocError>
        ensures { IfOk result (λ d. IsNext d self.new (fits_width (out-Op op.now) (operands self.old (out-Op op.now)) self.old)) }
    {
        let n = self.scope.env.number(op.operands.as_slice(), 0);
        let n = cut(width(op.types.as_slice()), n);
        self.compute(op, Some(n))
    }

    pub(crate) fn select(&mut self, alloc: Global, op: &Op) -> Result<Did, AllocError>
        ensures { IfOk result (λ d. IsNext d self.new (selects (out-Op op.now) (operands self.old (out-Op op.now)) self.old)) }
    {
        let names = op.operands.as_slice();
        let chosen = if self.scope.env.number(names, 0) == 0 {
            2
        } else {
            1
        };
        let val = self.scope.env.value(alloc, names, chosen)?;
        self.give(op.results.as_slice(), val)?;
        Ok(Did::Went)
    }

    pub(crate) fn assert_true(&self, op: &Op) -> Did
        ensures { IsNext result self.now (asserts (out-Op op.now) (operands self.now (out-Op op.now)) self.now) }
    {
        if self.scope.env.number(op.operands.as_slice(), 0) == 0 {
            Did::Fails { at: op.at }
        } else {
            Did::Went
        }
    }

    /// `scf.if`; a second region that is missing has no operations.
    pub(crate) fn branch(&mut self, alloc: Global, op: &'a Op) -> Result<Did, AllocError>
        ensures { IfOk result (λ d. IsNext d self.new (branches (out-Op op.now) (operands self.old (out-Op op.now)) self.old)) }
    {
        let taken = branch_of(self.scope.env.number(op.operands.as_slice(), 0));
        self.enter(alloc, op, Follow::Joins, taken, Items::new(alloc))?;
        Ok(Did::Went)
    }
}
