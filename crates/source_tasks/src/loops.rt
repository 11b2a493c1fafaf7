//! Parallel loops and their iterations.
ghost use Rattle.std.specs.Prelude.{◌≡◌, ◌<◌, true, false, map, Some, IfOk, MatchOption};
ghost use Rattle.source_meaning.specs.declared.values.Val.TheVariants.{Number};
ghost use Rattle.source_meaning.specs.Rows.{are_bounds, turns_between, turns_of, spans_of, product_within, most_elements, variables};
ghost use Rattle.source_meaning.specs.Sequential.{iteration};

use crate::forms::are_bounds;
use crate::frames::Scope;
use crate::task::{Task, names_of};
use int_ops::{BinOp, Pred, Width, apply_at, cmp_at};
use ir_forms::{Op, Ty, ValueNo};
use lists::Items;
use source_meaning::Val;
use std::alloc::{AllocError, Global};
use std::marker::Model;

/// One dimension of a parallel loop.
#[derive(Drop)]
pub struct Span {
    lower: u64,
    step: u64,
    turns: u64,
}

impl Model for Span {
    ghost use Rattle.source_meaning.specs.Tasks.{Span};

    ghost Value = { Span };

    ghost view = { λ s. record { lower = s.lower; step = s.step; turns = s.turns } };
}

/// A parallel loop that is entered: its body with the values that it sees, its dimensions, how many
/// iterations it has, and whether it is split.
#[derive(Drop)]
pub struct Loop<'a> {
    pub(crate) scope: Scope,
    pub(crate) params: &'a [(ValueNo, Ty)],
    pub(crate) body: &'a [Op],
    pub(crate) spans: Items<Span>,
    pub(crate) total: u32,
    pub(crate) split: bool,
}

impl<'a> Model for Loop<'a> {
    ghost use Rattle.std.specs.Prelude.{◌≡◌, Some};
    ghost use Rattle.ir_forms.specs.contracts.ops.Op as op_code;
    ghost use Rattle.ir_forms.specs.contracts.ops.Region as region_code;
    ghost use Rattle.std.specs.Coded.{codes};
    ghost use Rattle.source_meaning.specs.Parts.{names_of};
    ghost use Rattle.source_meaning.specs.Rows.{turns_of, product_within, most_elements};
    ghost use Rattle.source_meaning.specs.Tasks.{Loop};

    ghost Value = { Loop };

    ghost coded = { Prim.hlevel (codes, op_code.the_row.coded, region_code.the_row.coded) };

    ghost view = { λ l. record { scope = l.scope; params = names_of l.params.now; body = l.body.now; spans = l.spans; total = l.total; split = l.split } };

    ghost invariant = { λ l. product_within most_elements (turns_of l.spans) ≡ Some l.total };
}

impl<'a> Loop<'a> {
    /// How many iterations the loop has.
    pub fn total(&self) -> u32
        ensures { result ≡ self.now.total }
    {
        self.total
    }

    /// The iteration of this number, as a task.
    pub fn iteration(&self, alloc: Global, i: u32) -> Result<Task<'a>, AllocError>
        requires { i < self.now.total }
        ensures { IfOk result (λ t. t ≡ iteration self.now i) }
    {
        let names = names_of(alloc, self.params)?;
        let vals = variables(alloc, self.spans.as_slice(), self.total, i)?;
        let mut scope = self.scope.copy(alloc)?;
        scope.env.bind(names.as_slice(), vals)?;
        Ok(Task {
            pending: Vec::new(alloc),
            rest: self.body,
            frames: Vec::new(alloc),
            scope,
        })
    }
}

/// How many turns there are from the lower bound up to the upper one.
#[tactic(auto, unfolding(int_ops::specs::Arithmetic::arith_result), using(crate::proofs::Spans::turns_fit))]
fn turns_between(lower: u64, upper: u64, step: u64) -> u64
    requires { 0 < step }
    ensures { result ≡ turns_between lower upper step }
{
    if cmp_at(Width::W64, Pred::Sle, upper, lower) {
        return 0;
    }
    match apply_at(Width::W64, BinOp::Sub, upper, lower) {
        Some(distance) => distance.saturating_sub(1) / step + 1,
        None => 0,
    }
}

/// One dimension, where its bounds and step are in range.
#[tactic(auto, using(crate::proofs::Spans::no_step))]
fn span_of(lower: u64, upper: u64, step: u64) -> Option<Span>
    ensures { MatchOption result (are_bounds lower upper step ≡ false) (λ s. (are_bounds lower upper step ≡ true) × (s ≡ record { lower = lower; step = step; turns = turns_between lower upper step })) }
{
    if step == 0 {
        return None;
    }
    if !are_bounds(lower, upper, step) {
        return None;
    }
    let turns = turns_between(lower, upper, step);
    Some(Span { lower, step, turns })
}

/// The dimensions of a parallel loop. None where a bound or a step is out of range.
pub(crate) fn spans_of(
    alloc: Global,
    lowers: &[u64],
    uppers: &[u64],
    steps: &[u64],
) -> Result<Option<Items<Span>>, AllocError>
    ensures { IfOk result (λ spans. spans ≡ spans_of lowers.now uppers.now steps.now) }
{
    let mut lowers = lowers;
    let mut uppers = uppers;
    let mut steps = steps;
    let mut spans = Items::new(alloc);
    loop {
        let Some((lower, more_lowers)) = lowers.split_first() else {
            return Ok(Some(spans));
        };
        let Some((upper, more_uppers)) = uppers.split_first() else {
            return Ok(Some(spans));
        };
        let Some((step, more_steps)) = steps.split_first() else {
            return Ok(Some(spans));
        };
        let Some(span) = span_of(*lower, *upper, *step) else {
            return Ok(None);
        };
        spans.push(span)?;
        lowers = more_lowers;
        uppers = more_uppers;
        steps = more_steps;
    }
}

/// How many iterations these dimensions have, if there are not too many.
pub(crate) fn total_of(spans: &[Span]) -> Option<u32>
    ensures { result ≡ product_within most_elements (turns_of spans.now) }
{
    let mut total = 1u64;
    for span in spans {
        let more = total.saturating_mul(span.turns);
        if span.turns > 2_147_483_648 || more > 2_147_483_648 {
            return None;
        }
        total = more;
    }
    Some(total as u32)
}

/// The variables of the iteration of this number, the last dimension the fastest.
fn variables(alloc: Global, spans: &[Span], total: u32, i: u32) -> Result<Items<Val>, AllocError>
    requires total { product_within most_elements (turns_of spans.now) ≡ Some total }
    requires within { i < total }
    ensures { IfOk result (λ vals. vals ≡ map Number (variables spans.now i)) }
{
    let mut vals = Items::new(alloc);
    let mut later = total as u64;
    for span in spans {
        later /= span.turns;
        let turn = i as u64 / later % span.turns;
        vals.push(Val::Number(span.lower.wrapping_add(turn.wrapping_mul(span.step))))?;
    }
    Ok(vals)
}
