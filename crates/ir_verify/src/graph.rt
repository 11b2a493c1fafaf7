//! The calls of each function.
ghost use Rattle.std.specs.Prelude.{◌≡◌, ◌++◌, OnOk, IfOk};
ghost use Rattle.ir_forms.specs.Ops.{kind_of, attr_of};
ghost use Rattle.ir_verify.specs.Calls.{call_of, calls_at, calls_in, graph_of, AreMarks};

use crate::breaks::is_call;
use crate::calls::{Call, call_to, marks};
use crate::form::form_of;
use crate::names::Names;
use crate::place::Nest;
use crate::standing::nest_in;
use ir_forms::{Func, Op, Region};
use lists::Items;
use std::alloc::{AllocError, Global};

/// Adds the call that an operation is, if it names a function.
fn note_call(calls: &mut Items<Call>, names: &Names, op: &Op, nest: Nest) -> Result<(), AllocError>
    ensures { OnOk result (calls.new ≡ calls.old ++ call_of names.now (kind_of op.now) (attr_of op.now) nest) }
{
    if is_call(form_of(op)) {
        if let Some(call) = call_to(names, &op.attr, nest) {
            calls.push(call)?;
        }
    }
    Ok(())
}

/// Adds the calls of an operation that stands here, those in its regions too.
#[cycle(calls)]
fn note_op(calls: &mut Items<Call>, names: &Names, op: &Op, nest: Nest) -> Result<(), AllocError>
    ensures { OnOk result (calls.new ≡ calls.old ++ calls_at names.now op.now nest) }
{
    note_call(calls, names, op, nest)?;
    let inner = nest_in(op.kind, nest);
    for region in op.regions.as_slice() {
        note_region(calls, names, region, inner)?;
    }
    Ok(())
}

#[cycle(calls)]
fn note_region(
    calls: &mut Items<Call>,
    names: &Names,
    region: &Region,
    nest: Nest,
) -> Result<(), AllocError>
    ensures { OnOk result (calls.new ≡ calls.old ++ calls_in names.now region.now nest) }
{
    for op in region.ops.as_slice() {
        note_op(calls, names, op, nest)?;
    }
    Ok(())
}

/// The calls of each function, in the order of the functions.
pub(crate) fn graph_of(
    alloc: Global,
    names: &Names,
    funcs: &[Func],
) -> Result<Vec<Items<Call>>, AllocError>
    requires { names.now ≡ funcs.now }
    ensures { IfOk result (λ graph. graph.items ≡ graph_of funcs.now) }
{
    let mut graph = Vec::new(alloc);
    for func in funcs {
        let mut calls = Items::new(alloc);
        note_region(&mut calls, names, &func.body, Nest::InFunction)?;
        graph.push(calls)?;
    }
    Ok(graph)
}

/// Of each function, by its place, whether a task calls it.
pub fn task_called(alloc: Global, funcs: &[Func]) -> Result<Vec<bool>, AllocError>
    ensures { IfOk result (λ called. AreMarks (graph_of funcs.now) called.items) }
{
    let names = Names::new(alloc, funcs)?;
    let graph = graph_of(alloc, &names, funcs)?;
    marks(alloc, graph.as_slice())
}
