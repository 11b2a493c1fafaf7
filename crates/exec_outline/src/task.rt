//! A task and its launch.
ghost use Rattle.std.specs.Prelude.{◌≡◌, ◌++◌, ◌+◌, drop, map, IfOk};
ghost use Rattle.ir_forms.specs.declared.ops.Op.{out-Op};
ghost use Rattle.ir_forms.specs.declared.ops.Region.{out-Region};
ghost use Rattle.exec_outline.specs.Shape as shape;
ghost use Rattle.exec_outline.specs.Shape.{awaits_each, awaits_for, dependencies, dependency_count, value_operands};

use crate::awaits::{awaits_each, awaits_for, tokens};
use ir_forms::{Attr, Func, Op, Region, Ty, ValTy, ValueNo, copy_memref, copy_type, copy_types};
use lists::Items;
use made_funcs::{Values, numbered, with_values};
use std::alloc::{AllocError, Global};

fn dependency_count(groups: &[u32]) -> u32
    ensures { result ≡ dependency_count groups.now }
{
    match groups {
        [] => 0,
        [count, ..] => *count,
    }
}

/// The parameters for the dependencies of a task.
fn dependencies(alloc: Global, values: &Values, op: &Op) -> Result<Items<(ValueNo, Ty)>, AllocError>
    ensures { IfOk result (λ params. params ≡ dependencies values.now (out-Op op.now)) }
{
    let types = tokens(alloc, dependency_count(op.groups.as_slice()))?;
    numbered(alloc, values.first_free(), types.as_slice())
}

/// The parameters for the value operands of a task.
fn value_operands(
    alloc: Global,
    values: &Values,
    op: &Op,
) -> Result<Items<(ValueNo, Ty)>, AllocError>
    ensures { IfOk result (λ params. params ≡ value_operands values.now (out-Op op.now)) }
{
    let dependencies = dependency_count(op.groups.as_slice()) as u64;
    let free = values
        .first_free()
        .checked_add(dependencies)
        .ok_or(AllocError)?;
    numbered(alloc, free, op.written.as_slice())
}

/// What a value of a type holds; another type stays as it is.
fn held(alloc: Global, ty: &Ty) -> Result<Ty, AllocError>
    ensures { IfOk result (λ held. held ≡ shape.held ty.now) }
{
    match ty {
        Ty::Value(ValTy::Int(width)) => Ok(Ty::Int(*width)),
        Ty::Value(ValTy::Index) => Ok(Ty::Index),
        Ty::Value(ValTy::Memref(memref)) => {
            let memref = copy_memref(alloc, memref)?;
            Ok(Ty::Memref(memref))
        }
        _ => copy_type(alloc, ty),
    }
}

fn held_types(alloc: Global, types: &[Ty]) -> Result<Items<Ty>, AllocError>
    ensures { IfOk result (λ held. held ≡ map shape.held types.now) }
{
    let mut all = Items::new(alloc);
    for ty in types {
        all.push(held(alloc, ty)?)?;
    }
    Ok(all)
}

/// The types of what a task yields: what the values hold that its launch gives behind its token.
fn task_results(alloc: Global, types: &[Ty]) -> Result<Items<Ty>, AllocError>
    ensures { IfOk result (λ results. results ≡ map shape.held (drop 1 types.now)) }
{
    match types {
        [] => Ok(Items::new(alloc)),
        [_, values @ ..] => held_types(alloc, values),
    }
}

/// The operations of a task: awaits, and then those of its region.
fn task_ops(
    alloc: Global,
    at: u32,
    dependencies: &[(ValueNo, Ty)],
    values: &[(ValueNo, Ty)],
    body: Region,
) -> Result<Items<Op>, AllocError>
    ensures { IfOk result (λ ops. ops ≡ (awaits_each at dependencies.now ++ awaits_for at values.now (out-Region body).params) ++ (out-Region body).ops) }
{
    let mut ops = awaits_each(alloc, at, dependencies)?;
    ops.append(awaits_for(alloc, at, values, body.params.as_slice())?)?;
    ops.append(body.ops)?;
    Ok(ops)
}

/// The function of a task, which captures these values and has this region.
pub(crate) fn task(
    alloc: Global,
    values: &Values,
    op: &Op,
    name: &[u8],
    captured: &[u32],
    body: Region,
) -> Result<Func, AllocError>
    ensures { IfOk result (λ func. func ≡ shape.task values.now (out-Op op.now) name.now captured.now body) }
{
    let mut params = dependencies(alloc, values, op)?;
    let operands = value_operands(alloc, values, op)?;
    let ops = task_ops(alloc, op.at, params.as_slice(), operands.as_slice(), body)?;
    params.append(operands)?;
    params.append(values.typed(alloc, captured)?)?;
    let name = Items::from_slice(alloc, name)?;
    let results = task_results(alloc, op.types.as_slice())?;
    Ok(Func {
        name,
        params,
        results,
        body: Region {
            params: Items::new(alloc),
            ops,
        },
        at: op.at,
    })
}

/// The launch of a task, in the place of its region.
pub(crate) fn launch(
    alloc: Global,
    op: &Op,
    name: &[u8],
    captured: &[u32],
) -> Result<Op, AllocError>
    ensures { IfOk result (λ launch. launch ≡ shape.launch (out-Op op.now) name.now captured.now) }
{
    let operands = with_values(alloc, op.operands.as_slice(), captured)?;
    let groups = Items::from_slice(alloc, op.groups.as_slice())?;
    let written = copy_types(alloc, op.written.as_slice())?;
    let results = Items::from_slice(alloc, op.results.as_slice())?;
    let types = copy_types(alloc, op.types.as_slice())?;
    let name = Items::from_slice(alloc, name)?;
    Ok(Op {
        kind: op.kind,
        at: op.at,
        operands,
        groups,
        written,
        results,
        types,
        attr: Attr::Callee(name),
        regions: Items::new(alloc),
    })
}
