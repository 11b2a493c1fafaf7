//! What a task does before its next operation.
ghost use Rattle.std.specs.Prelude.{◌≡◌, ◌∷◌, ◌++◌, [], map, reverse, slice_get, IfOk};
ghost use Rattle.source_meaning.specs.Values.{maybe, values_at};
ghost use Rattle.source_meaning.specs.Tasks.{Awaits, Failing};
ghost use Rattle.source_meaning.specs.Steps.{awaits_each, awaits_for};
ghost use Rattle.source_tasks.specs.Numbers.{param_names};

use crate::env::Env;
use crate::loops::Loop;
use ir_forms::{ElementName, Ty, ValueNo};
use lists::Items;
use std::alloc::{AllocError, Global};
use std::marker::Model;

/// An await, with the parameter that gets the value; the end of a parallel loop; or a failure.
#[derive(Drop)]
pub enum Due<'a> {
    Await {
        element: ElementName,
        param: Option<ValueNo>,
    },
    Join(Loop<'a>),
    Fail,
}

/// What comes before the next operation, with the number of the operation at which it fails.
#[derive(Drop)]
pub struct Waiting<'a> {
    pub(crate) at: u32,
    pub(crate) due: Due<'a>,
}

impl<'a> Model for Waiting<'a> {
    ghost use Rattle.ir_forms.specs.contracts.ops.Op as op_code;
    ghost use Rattle.ir_forms.specs.contracts.ops.Region as region_code;
    ghost use Rattle.std.specs.Coded.{codes};
    ghost use Rattle.source_meaning.specs.Tasks.{Pending};
    ghost use Rattle.source_tasks.specs.Pending.{due_at};

    ghost Value = { Pending };

    ghost coded = { Prim.hlevel (codes, op_code.the_row.coded, region_code.the_row.coded) };

    ghost view = { λ w. due_at w.at w.due };
}

/// An await of this element; what is no token or value ends the task.
fn waiting_for<'a>(at: u32, element: Option<ElementName>, param: Option<ValueNo>) -> Waiting<'a>
    ensures { result ≡ maybe (Failing at) (λ x. Awaits at x (param_names param)) element }
{
    let due = match element {
        Some(element) => Due::Await { element, param },
        None => Due::Fail,
    };
    Waiting { at, due }
}

/// The parameter at a place.
fn param_at(params: &[(ValueNo, Ty)], i: usize) -> Option<ValueNo>
    ensures { param_names result ≡ maybe [] (λ x. x.0 ∷ []) (slice_get params.now i) }
{
    match params.get(i) {
        Some(param) => Some(param.0),
        None => None,
    }
}

/// The awaits of a launched task's dependencies.
fn awaits_each<'a>(
    alloc: Global,
    env: &Env,
    at: u32,
    names: &[ValueNo],
) -> Result<Items<Waiting<'a>>, AllocError>
    ensures { IfOk result (λ ws. ws ≡ awaits_each at (values_at env.now names.now)) }
{
    let mut pending = Items::new(alloc);
    for i in 0..names.len() {
        let element = env.element(alloc, names, i)?;
        pending.push(waiting_for(at, element, None))?;
    }
    Ok(pending)
}

/// The awaits of its value operands, each with the parameter that gets the value.
fn awaits_for<'a>(
    alloc: Global,
    env: &Env,
    at: u32,
    params: &[(ValueNo, Ty)],
    names: &[ValueNo],
) -> Result<Items<Waiting<'a>>, AllocError>
    ensures { IfOk result (λ ws. ws ≡ awaits_for at (map (λ x. x.0) params.now) (values_at env.now names.now)) }
{
    let mut pending = Items::new(alloc);
    for i in 0..names.len() {
        let element = env.element(alloc, names, i)?;
        let param = param_at(params, i);
        pending.push(waiting_for(at, element, param))?;
    }
    Ok(pending)
}

/// What a launched task awaits before its first operation, the first last.
#[tactic(auto, using(crate::proofs::Puts::reverse_twice))]
pub(crate) fn first_awaits<'a>(
    alloc: Global,
    env: &Env,
    at: u32,
    dependencies: &[ValueNo],
    params: &[(ValueNo, Ty)],
    operands: &[ValueNo],
) -> Result<Vec<Waiting<'a>>, AllocError>
    ensures { IfOk result (λ ws. reverse ws.items ≡ awaits_each at (values_at env.now dependencies.now) ++ awaits_for at (map (λ x. x.0) params.now) (values_at env.now operands.now)) }
{
    let mut pending = awaits_each(alloc, env, at, dependencies)?;
    pending.append(awaits_for(alloc, env, at, params, operands)?)?;
    let mut pending = pending.into_vec();
    pending.reverse();
    Ok(pending)
}
