//! A module without parallel loops.
ghost use Rattle.std.specs.Prelude.{◌≡◌, ◌+◌, ◌++◌, length, map, slice_get, IfOk};
ghost use Rattle.std.specs.Option.{option_copied};
ghost use Rattle.ir_forms.specs.declared.ops.Op.{out-Op};
ghost use Rattle.ir_forms.specs.Numbers.{joined};
ghost use Rattle.ir_verify.specs.Calls.{is_marked};
ghost use Rattle.ir_verify.specs.Places.{nest_in};
ghost use Rattle.source_meaning.specs.Steps.{split_in};
ghost use Rattle.parallel_for.specs.Shape as shape;
ghost use Rattle.parallel_for.specs.Shape.{in_order, is_parallel, is_reduce, kept, loop_region, looped, module_of, split_func, split_funcs, split_op, split_region};

use crate::plan::{loop_funcs, planned, replacement};
use ir_forms::{Func, Module, Op, OpKind, Region, copy_op, copy_params};
use ir_verify::Nest;
use lists::Items;
use loop_blocks::Options;
use made_funcs::{Taken, Values, with_body};
use made_ops::Insertion;
use std::alloc::{AllocError, Global};

/// How many loops stand before, and the number of the function's next value.
#[derive(Clone, Copy)]
pub struct Next {
    pub loops: usize,
    pub free: u32,
}

/// Whether a parallel loop is split that stands here, in a function that a task calls or not.
fn split_in(nest: Nest, called: bool) -> bool
    ensures { result ≡ split_in nest called }
{
    match nest {
        Nest::InTask => true,
        Nest::InLoop => false,
        Nest::InFunction => !called,
    }
}

/// What is nearest in the regions of an operation of this kind.
fn nest_in(kind: OpKind, nest: Nest) -> Nest
    ensures { result ≡ nest_in kind nest }
{
    match kind {
        OpKind::AsyncExecute => Nest::InTask,
        OpKind::ScfParallel => Nest::InLoop,
        _ => nest,
    }
}

fn is_parallel(kind: OpKind) -> bool
    ensures { result ≡ is_parallel kind }
{
    match kind {
        OpKind::ScfParallel => true,
        _ => false,
    }
}

fn is_reduce(kind: OpKind) -> bool
    ensures { result ≡ is_reduce kind }
{
    match kind {
        OpKind::ScfReduce => true,
        _ => false,
    }
}

/// The region of a parallel loop.
fn loop_region(op: &Op) -> Option<&Region>
    ensures { option_copied result ≡ loop_region (out-Op op.now).kind (out-Op op.now).regions }
{
    if is_parallel(op.kind) {
        op.regions.get(0)
    } else {
        None
    }
}

/// A loop within which so many loops stand.
fn inside(next: Next) -> Result<Next, AllocError>
    ensures { IfOk result (λ inner. inner ≡ record next { loops = next.loops + 1 }) }
{
    let loops = next.loops.checked_add(1).ok_or(AllocError)?;
    Ok(Next {
        loops,
        free: next.free,
    })
}

/// An operation with these regions; the end of a parallel loop's region goes.
fn kept(alloc: Global, op: &Op, regions: Items<Region>) -> Result<Items<Op>, AllocError>
    ensures { IfOk result (λ ops. ops ≡ shape.kept_op (out-Op op.now) regions) }
{
    let mut ops = Items::new(alloc);
    if !is_reduce(op.kind) {
        ops.push(copy_op(alloc, op, regions)?)?;
    }
    Ok(ops)
}

/// A loop whose region has become this: what stands in its place, and its functions with those of the loops in it.
#[tactic(auto, using(crate::proofs::Walked::loop_parts))]
fn looped(
    alloc: Global,
    options: Options,
    taken: &Taken<'_>,
    called: bool,
    values: &Values,
    op: &Op,
    nest: Nest,
    next: Next,
    body: Region,
    inner: Items<Func>,
    last: Next,
) -> Result<(Items<Op>, Items<Func>, Next), AllocError>
    ensures { IfOk result (λ done. looped options taken.now called values.now (out-Op op.now) nest next (body, inner, last) ≡ done) }
{
    let split = split_in(nest, called);
    let plan = planned(alloc, taken, values, next.loops, op, &body)?;
    let mut funcs = loop_funcs(alloc, split, &plan, body)?;
    funcs.append(inner)?;
    let made = replacement(alloc, options, split, &plan, last.free)?;
    let Insertion { ops, free, .. } = made;
    Ok((
        ops,
        funcs,
        Next {
            loops: last.loops,
            free,
        },
    ))
}

/// The operations without parallel loops, the functions of these, and where numbers go on.
#[cycle(walk)]
fn split_ops(
    alloc: Global,
    options: Options,
    taken: &Taken<'_>,
    called: bool,
    values: &Values,
    ops: &[Op],
    nest: Nest,
    first: Next,
) -> Result<(Items<Op>, Items<Func>, Next), AllocError>
    ensures { IfOk result (λ done. shape.flat (in_order nest (map (split_op options taken.now called values.now) ops.now) first) ≡ done) }
{
    let mut all = Items::new(alloc);
    let mut funcs = Items::new(alloc);
    let mut next = first;
    for op in ops {
        let (made, more, last) = split_op(alloc, options, taken, called, values, op, nest, next)?;
        all.append(made)?;
        funcs.append(more)?;
        next = last;
    }
    Ok((all, funcs, next))
}

#[cycle(walk)]
fn split_op(
    alloc: Global,
    options: Options,
    taken: &Taken<'_>,
    called: bool,
    values: &Values,
    op: &Op,
    nest: Nest,
    next: Next,
) -> Result<(Items<Op>, Items<Func>, Next), AllocError>
    ensures { IfOk result (λ done. split_op options taken.now called values.now op.now nest next ≡ done) }
{
    let within = nest_in(op.kind, nest);
    match loop_region(op) {
        Some(region) => {
            let begun = inside(next)?;
            let (body, inner, last) = split_region(
                alloc, options, taken, called, values, region, within, begun,
            )?;
            looped(
                alloc, options, taken, called, values, op, nest, next, body, inner, last,
            )
        }
        None => {
            let regions = op.regions.as_slice();
            let (regions, funcs, last) = split_regions(
                alloc, options, taken, called, values, regions, within, next,
            )?;
            Ok((kept(alloc, op, regions)?, funcs, last))
        }
    }
}

#[cycle(walk)]
fn split_regions(
    alloc: Global,
    options: Options,
    taken: &Taken<'_>,
    called: bool,
    values: &Values,
    regions: &[Region],
    nest: Nest,
    first: Next,
) -> Result<(Items<Region>, Items<Func>, Next), AllocError>
    ensures { IfOk result (λ done. in_order nest (map (split_region options taken.now called values.now) regions.now) first ≡ done) }
{
    let mut all = Items::new(alloc);
    let mut funcs = Items::new(alloc);
    let mut next = first;
    for region in regions {
        let (made, more, last) = split_region(
            alloc, options, taken, called, values, region, nest, next,
        )?;
        all.push(made)?;
        funcs.append(more)?;
        next = last;
    }
    Ok((all, funcs, next))
}

#[cycle(walk)]
fn split_region(
    alloc: Global,
    options: Options,
    taken: &Taken<'_>,
    called: bool,
    values: &Values,
    region: &Region,
    nest: Nest,
    first: Next,
) -> Result<(Region, Items<Func>, Next), AllocError>
    ensures { IfOk result (λ done. split_region options taken.now called values.now region.now nest first ≡ done) }
{
    let params = copy_params(alloc, region.params.as_slice())?;
    let ops = region.ops.as_slice();
    let (ops, funcs, last) = split_ops(alloc, options, taken, called, values, ops, nest, first)?;
    Ok((Region { params, ops }, funcs, last))
}

/// What the body of a function becomes before which so many loops stand.
fn split_func(
    alloc: Global,
    options: Options,
    taken: &Taken<'_>,
    called: bool,
    func: &Func,
    loops: usize,
) -> Result<(Region, Items<Func>, Next), AllocError>
    ensures { IfOk result (λ done. split_func options taken.now called func.now loops ≡ done) }
{
    let values = Values::of_func(alloc, func)?;
    let free = u32::try_from(values.first_free()).ok().ok_or(AllocError)?;
    let next = Next { loops, free };
    let body = &func.body;
    split_region(
        alloc,
        options,
        taken,
        called,
        &values,
        body,
        Nest::InFunction,
        next,
    )
}

/// Whether the function at this place is marked.
fn is_marked(marks: &[bool], place: usize) -> bool
    ensures { result ≡ is_marked (slice_get marks.now place) }
{
    match marks.get(place) {
        Some(mark) => *mark,
        None => false,
    }
}

/// The functions without parallel loops, and the functions of all loops.
fn split_funcs(
    alloc: Global,
    options: Options,
    called: &[bool],
    funcs: &[Func],
) -> Result<(Items<Func>, Items<Func>), AllocError>
    ensures { IfOk result (λ done. split_funcs options funcs.now called.now 0 funcs.now 0 ≡ done) }
{
    let taken = Taken::new(alloc, funcs)?;
    let mut all = Items::new(alloc);
    let mut made = Items::new(alloc);
    let mut loops = 0;
    for (place, func) in funcs.iter().enumerate() {
        let is_called = is_marked(called, place);
        let (body, more, last) = split_func(alloc, options, &taken, is_called, func, loops)?;
        all.push(with_body(alloc, func, body)?)?;
        made.append(more)?;
        loops = last.loops;
    }
    Ok((all, made))
}

/// The module with the functions of its loops behind all others.
pub(crate) fn split_module(
    alloc: Global,
    options: Options,
    called: &[bool],
    program: &Module,
) -> Result<Module, AllocError>
    ensures { IfOk result (λ done. done ≡ module_of (split_funcs options program.now.funcs called.now 0 program.now.funcs 0)) }
{
    let (mut funcs, made) = split_funcs(alloc, options, called, program.funcs.as_slice())?;
    funcs.append(made)?;
    Ok(Module { funcs })
}
