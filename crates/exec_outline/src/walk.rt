//! A module with its tasks.
ghost use Rattle.std.specs.Prelude.{◌≡◌, ◌+◌, length, map, IfOk};
ghost use Rattle.std.specs.Option.{option_copied};
ghost use Rattle.ir_forms.specs.declared.ops.Op.{out-Op};
ghost use Rattle.exec_outline.specs.Shape as shape;
ghost use Rattle.exec_outline.specs.Shape.{in_order, is_execute, launched, outlined_func, outlined_op, outlined_region, task_region};

use crate::task::{launch, task};
use ir_forms::{Func, Module, Op, OpKind, Region, copy_op, copy_params};
use lists::Items;
use made_funcs::{Taken, Values, captures_of, with_body};
use std::alloc::{AllocError, Global};

/// The number of the next task behind these.
fn next_number(first: usize, tasks: usize) -> Result<usize, AllocError>
    ensures { IfOk result (λ number. number ≡ first + tasks) }
{
    first.checked_add(tasks).ok_or(AllocError)
}

/// A launch of a region that is outlined already, and its function with those of the tasks in it.
fn launched(
    alloc: Global,
    taken: &Taken<'_>,
    values: &Values,
    op: &Op,
    number: usize,
    body: Region,
    inner: Items<Func>,
) -> Result<(Op, Items<Func>), AllocError>
    ensures { IfOk result (λ done. launched taken.now values.now (out-Op op.now) number (body, inner) ≡ done) }
{
    let name = taken.made_name(alloc, b"aio.task.", number)?;
    let captured = captures_of(alloc, &body)?;
    let launch = launch(alloc, op, &name, &captured)?;
    let task = task(alloc, values, op, &name, &captured, body)?;
    let mut tasks = Items::new(alloc);
    tasks.push(task)?;
    tasks.append(inner)?;
    Ok((launch, tasks))
}

fn is_execute(kind: OpKind) -> bool
    ensures { result ≡ is_execute kind }
{
    match kind {
        OpKind::AsyncExecute => true,
        _ => false,
    }
}

/// The region of a task.
fn task_region(op: &Op) -> Option<&Region>
    ensures { option_copied result ≡ task_region (out-Op op.now).kind (out-Op op.now).regions }
{
    if is_execute(op.kind) {
        op.regions.get(0)
    } else {
        None
    }
}

/// The operations with launches in the places of tasks, and the functions of the tasks in them.
#[cycle(walk)]
fn outlined_ops(
    alloc: Global,
    taken: &Taken<'_>,
    values: &Values,
    ops: &[Op],
    first: usize,
) -> Result<(Items<Op>, Items<Func>), AllocError>
    ensures { IfOk result (λ done. in_order (map (outlined_op taken.now values.now) ops.now) first ≡ done) }
{
    let mut all = Items::new(alloc);
    let mut tasks = Items::new(alloc);
    let mut next = first;
    for op in ops {
        let (outlined, more) = outlined_op(alloc, taken, values, op, next)?;
        next = next_number(next, more.len())?;
        all.push(outlined)?;
        tasks.append(more)?;
    }
    Ok((all, tasks))
}

#[cycle(walk)]
fn outlined_op(
    alloc: Global,
    taken: &Taken<'_>,
    values: &Values,
    op: &Op,
    number: usize,
) -> Result<(Op, Items<Func>), AllocError>
    ensures { IfOk result (λ done. outlined_op taken.now values.now op.now number ≡ done) }
{
    match task_region(op) {
        Some(region) => {
            let inside = next_number(number, 1)?;
            let (body, inner) = outlined_region(alloc, taken, values, region, inside)?;
            launched(alloc, taken, values, op, number, body, inner)
        }
        None => {
            let regions = op.regions.as_slice();
            let (regions, tasks) = outlined_regions(alloc, taken, values, regions, number)?;
            Ok((copy_op(alloc, op, regions)?, tasks))
        }
    }
}

#[cycle(walk)]
fn outlined_regions(
    alloc: Global,
    taken: &Taken<'_>,
    values: &Values,
    regions: &[Region],
    first: usize,
) -> Result<(Items<Region>, Items<Func>), AllocError>
    ensures { IfOk result (λ done. in_order (map (outlined_region taken.now values.now) regions.now) first ≡ done) }
{
    let mut all = Items::new(alloc);
    let mut tasks = Items::new(alloc);
    let mut next = first;
    for region in regions {
        let (outlined, more) = outlined_region(alloc, taken, values, region, next)?;
        next = next_number(next, more.len())?;
        all.push(outlined)?;
        tasks.append(more)?;
    }
    Ok((all, tasks))
}

#[cycle(walk)]
fn outlined_region(
    alloc: Global,
    taken: &Taken<'_>,
    values: &Values,
    region: &Region,
    first: usize,
) -> Result<(Region, Items<Func>), AllocError>
    ensures { IfOk result (λ done. outlined_region taken.now values.now region.now first ≡ done) }
{
    let params = copy_params(alloc, region.params.as_slice())?;
    let (ops, tasks) = outlined_ops(alloc, taken, values, region.ops.as_slice(), first)?;
    Ok((Region { params, ops }, tasks))
}

/// The function with launches in the places of its tasks, and the functions of these.
fn outlined_func(
    alloc: Global,
    taken: &Taken<'_>,
    func: &Func,
    first: usize,
) -> Result<(Func, Items<Func>), AllocError>
    ensures { IfOk result (λ done. outlined_func taken.now func.now first ≡ done) }
{
    let values = Values::of_func(alloc, func)?;
    let (body, tasks) = outlined_region(alloc, taken, &values, &func.body, first)?;
    Ok((with_body(alloc, func, body)?, tasks))
}

/// The functions with launches in the places of tasks, and the functions of all tasks.
fn outlined_funcs(alloc: Global, funcs: &[Func]) -> Result<(Items<Func>, Items<Func>), AllocError>
    ensures { IfOk result (λ done. in_order (map (outlined_func funcs.now) funcs.now) 0 ≡ done) }
{
    let taken = Taken::new(alloc, funcs)?;
    let mut all = Items::new(alloc);
    let mut tasks = Items::new(alloc);
    let mut next = 0;
    for func in funcs {
        let (outlined, more) = outlined_func(alloc, &taken, func, next)?;
        next = next_number(next, more.len())?;
        all.push(outlined)?;
        tasks.append(more)?;
    }
    Ok((all, tasks))
}

/// The module with its tasks behind all other functions.
pub(crate) fn outlined(alloc: Global, program: &Module) -> Result<Module, AllocError>
    ensures { IfOk result (λ done. done ≡ shape.outlined program.now) }
{
    let (mut funcs, tasks) = outlined_funcs(alloc, program.funcs.as_slice())?;
    funcs.append(tasks)?;
    Ok(Module { funcs })
}
