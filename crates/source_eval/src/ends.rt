//! The end of a run.
ghost use Rattle.std.specs.Prelude.{◌≡◌, ◌++◌, IfOk, OnOk};
ghost use Rattle.source_meaning.specs.Values as values;
ghost use Rattle.source_meaning.specs.Start as start;
ghost use Rattle.source_state.specs.Seen.{outcome_of};
ghost use Rattle.source_eval.specs.Following as ends;
ghost use Rattle.source_eval.specs.Following.{end_from};

use ir_forms::{Buffer, CellTy, Out, OutTy, Ty, ValueNo};
use lists::Items;
use source_meaning::{SourceEnd, Val};
use source_state::{Ended, Shared};
use std::alloc::{AllocError, Global};

/// The type of a result.
fn out_type(ty: &Ty) -> OutTy
    ensures { result ≡ start.out_type ty.now }
{
    match ty {
        Ty::Int(width) => OutTy::Int(*width),
        _ => OutTy::Index,
    }
}

/// The type of a cell.
fn out_cell(elem: CellTy) -> OutTy
    ensures { result ≡ start.out_cell elem }
{
    match elem {
        CellTy::Int(width) => OutTy::Int(width),
        _ => OutTy::Index,
    }
}

/// The number of a value. What is none counts as 0.
fn bits(val: &Val) -> u64
    ensures { result ≡ values.number_in val.now }
{
    match val {
        Val::Number(number) => *number,
        _ => 0,
    }
}

/// Numbers with their types.
#[tactic(auto, using(crate::proofs::Paths::snoc_append))]
fn outs(alloc: Global, types: &[Ty], vals: &[Val]) -> Result<Items<Out>, AllocError>
    ensures { IfOk result (λ all. all ≡ start.outs types.now vals.now) }
{
    let mut all = Items::new(alloc);
    let mut types_left = types;
    let mut vals_left = vals;
    loop {
        let Some((ty, more_types)) = types_left.split_first() else {
            return Ok(all);
        };
        let Some((val, more_vals)) = vals_left.split_first() else {
            return Ok(all);
        };
        all.push(Out {
            ty: out_type(ty),
            bits: bits(val),
        })?;
        types_left = more_types;
        vals_left = more_vals;
    }
}

/// Cells with their type.
#[tactic(auto, using(crate::proofs::Paths::snoc_append))]
fn cells_out(alloc: Global, elem: CellTy, cells: &[u64]) -> Result<Items<Out>, AllocError>
    ensures { IfOk result (λ all. all ≡ ends.cells_out elem cells.now) }
{
    let ty = out_cell(elem);
    let mut all = Items::new(alloc);
    let mut left = cells;
    loop {
        let Some((number, more)) = left.split_first() else {
            return Ok(all);
        };
        all.push(Out { ty, bits: *number })?;
        left = more;
    }
}

/// Adds the cells of the parameter at this place, if it is a buffer.
fn add_buffer(
    alloc: Global,
    shared: &Shared,
    place: u32,
    ty: &Ty,
    all: &mut Items<Buffer>,
) -> Result<(), AllocError>
    ensures { OnOk result (all.new ≡ all.old ++ start.buffer_out shared.now place ty.now) }
{
    match ty {
        Ty::Memref(memory) => {
            let cells = cells_out(alloc, memory.elem, shared.argument(place))?;
            all.push(Buffer {
                argument: place,
                cells,
            })
        }
        _ => Ok(()),
    }
}

/// The cells of the parameters that are buffers.
#[tactic(auto, using(crate::proofs::Paths::append_more))]
fn buffers_out(
    alloc: Global,
    shared: &Shared,
    params: &[(ValueNo, Ty)],
) -> Result<Items<Buffer>, AllocError>
    ensures { IfOk result (λ all. all ≡ start.buffers_out shared.now 0 params.now) }
{
    if params.len() > 4_294_967_295 {
        return Err(AllocError);
    }
    let mut all = Items::new(alloc);
    let mut left = params;
    let mut place: u32 = 0;
    loop {
        let Some((param, more)) = left.split_first() else {
            return Ok(all);
        };
        add_buffer(alloc, shared, place, &param.1, &mut all)?;
        place += 1;
        left = more;
    }
}

/// The end of a run whose root, of a function with these results and parameters, ended so.
pub(crate) fn end_from(
    alloc: Global,
    results: &[Ty],
    params: &[(ValueNo, Ty)],
    shared: &Shared,
    ended: Ended,
) -> Result<SourceEnd, AllocError>
    ensures { IfOk result (λ end. end ≡ end_from results.now params.now shared.now (outcome_of ended)) }
{
    match ended {
        Ended::Gave(vals) => Ok(SourceEnd::Done {
            results: outs(alloc, results, vals.as_slice())?,
            buffers: buffers_out(alloc, shared, params)?,
        }),
        Ended::FailedAt(op) => Ok(SourceEnd::Failed { op }),
    }
}
