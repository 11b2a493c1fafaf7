//! The rows of shared instructions on cells.
ghost use Rattle.std.specs.Prelude.{◌≡◌, ℕ, ◌<◌, ◌≤◌, ◌+◌, ◌-◌, ◌^◌, ◌∷◌, ◌++◌, [], List, Option, cond, true, false, min, take, drop, length, replicate, None, Some, IfOk, OnErr, MatchOption};
ghost use Rattle.std.specs.Option.{option_copied};
ghost use Rattle.ir_forms.specs.declared.types.Dim.{Dim};
ghost use Rattle.ir_forms.specs.Shapes.{product};
ghost use Rattle.low_forms.specs.Registers.{type_at};
ghost use Rattle.low_forms.specs.declared.code.LowFunc.{LowFunc};
ghost use Rattle.source_meaning.specs.Parts.{dims_of};
ghost use Rattle.source_meaning.specs.Rows.{cell_from, sizes};
ghost use Rattle.task_stack.specs.Local.{operands};
ghost use Rattle.task_stack.specs.Registers.{value, number_in};
ghost use Rattle.task_stack.specs.Shared.{moved};
ghost use Rattle.step_core.specs.State.{buffer_val, cells_used};
ghost use Rattle.step_core.specs.Shared.{numbers, asked_sizes, can_allocate};
ghost use Rattle.step_core.specs.Parts.{capped, cell_named, row_step, allocate_step, CellRow};

use crate::cells::{Cells, buffer_val};
use crate::limits::{Limit, Limits};
use crate::parts::Row;
use crate::rows::SharedRow;
use crate::shared_objects::give;
use async_objects::Val;
use ir_forms::{Dim, Ty};
use lists::Items;
use low_forms::{Instr, LowFunc};
use std::alloc::{AllocError, Global};
use task_stack::Stack;

/// A size of a buffer is at most this.
pub(crate) const MOST_CELLS: u64 = 16_777_216;

/// The sizes of a buffer of this rank.
fn sizes_in(rank: u8, dims: &[u32]) -> &[u32]
    ensures { result.now ≡ take rank dims.now }
{
    let rank = rank as usize;
    if rank < dims.len() {
        &dims[..rank]
    } else {
        dims
    }
}

/// The number of the cell that the operands from this one on name, row by row; none where an index isn't below its size.
#[tactic(auto, using(crate::proofs::CellRows::numbers_at, crate::proofs::CellRows::numbers_end))]
fn cell_of(stack: &Stack, instr: &Instr, first: usize, dims: &[u32]) -> Option<u64>
    requires { first < 8 }
    ensures { MatchOption result (cell_from 0 dims.now (numbers (drop first (operands stack.now instr.now))) ≡ None) (λ c. (n : ℕ) × (cell_from 0 dims.now (numbers (drop first (operands stack.now instr.now))) ≡ Some n) × (c ≡ capped n)) }
{
    let operands = instr.operands.len();
    let mut at = first;
    let mut left = dims;
    let mut cell = 0u64;
    loop {
        let Some((dim, more)) = left.split_first() else {
            return Some(cell);
        };
        if at >= operands {
            return Some(cell);
        }
        let size = *dim as u64;
        let index = stack.number(instr, at);
        if index >= size {
            return None;
        }
        cell = cell.saturating_mul(size).saturating_add(index);
        left = more;
        at += 1;
    }
}

/// The cell of a buffer that the operands from this one on name, if it is there: the buffer's number, and the cell's.
pub(crate) fn cell_there(
    stack: &Stack,
    cells: &Cells,
    instr: &Instr,
    buffer: usize,
) -> Option<(u32, usize)>
    requires { buffer < 4 }
    ensures { MatchOption result (cell_named (value (operands stack.now instr.now) buffer) (numbers (drop (buffer + 1) (operands stack.now instr.now))) cells.now.buffers ≡ None) (λ c. cell_named (value (operands stack.now instr.now) buffer) (numbers (drop (buffer + 1) (operands stack.now instr.now))) cells.now.buffers ≡ Some (c.0, c.1)) }
{
    let Val::Buffer { number, rank, dims } = stack.value(instr, buffer) else {
        return None;
    };
    let Some(cell) = cell_of(stack, instr, buffer + 1, sizes_in(rank, &dims)) else {
        return None;
    };
    if cell < cells.len(number) as u64 {
        Some((number, cell as usize))
    } else {
        None
    }
}

/// Loads a cell.
pub(crate) fn load_cell(stack: &mut Stack, cells: &Cells, instr: &Instr) -> Result<Row, AllocError>
    requires { stack.old.top.current.place.at + 2 < 2 ^ 64 }
    ensures row { IfOk result (λ row. (l : Limits) (f : LowFunc) → CellRow (row_step l SharedRow.LoadCell f instr.now (operands stack.old instr.now)) row cells.now.buffers cells.now.buffers stack.old stack.new) }
    ensures err { OnErr result (stack.new ≡ stack.old) }
{
    let Some((buffer, cell)) = cell_there(stack, cells, instr, 0) else {
        return Ok(Row::Stuck);
    };
    match cells.get(buffer, cell) {
        Some(number) => give(stack, instr, Val::Number(number)),
        None => Ok(Row::Stuck),
    }
}

/// Stores a number in a cell.
pub(crate) fn store_cell(stack: &mut Stack, cells: &mut Cells, instr: &Instr) -> Row
    requires { stack.old.top.current.place.at + 2 < 2 ^ 64 }
    ensures { (l : Limits) (f : LowFunc) → CellRow (row_step l SharedRow.StoreCell f instr.now (operands stack.old instr.now)) result cells.old.buffers cells.new.buffers stack.old stack.new }
{
    let Some((buffer, cell)) = cell_there(stack, cells, instr, 1) else {
        return Row::Stuck;
    };
    cells.set(buffer, cell, stack.number(instr, 0));
    stack.pass();
    Row::Goes(None)
}

/// The type of an instruction's first result.
pub(crate) fn result_type<'a>(func: &'a LowFunc, instr: &Instr) -> Option<&'a Ty>
    ensures { option_copied result ≡ type_at func.now instr.now.results 0 }
{
    match instr.results.as_slice().first() {
        Some(reg) => func.regs.get(reg.0 as usize),
        None => None,
    }
}

/// The dimensions of an allocation.
pub(crate) fn dims_of<'a>(func: &'a LowFunc, instr: &Instr) -> &'a [Dim]
    ensures { result.now ≡ dims_of (type_at func.now instr.now.results 0) }
{
    match result_type(func, instr) {
        Some(Ty::Memref(memory)) => memory.dims.as_slice(),
        _ => &[],
    }
}

fn number_in(val: Val) -> u64
    ensures { result ≡ number_in val }
{
    match val {
        Val::Number(n) => n,
        _ => 0,
    }
}

/// The size of a dimension, and the values that are left for those behind it.
fn size_of(dim: Dim, given: &[Val]) -> (u64, &[Val])
    ensures { (dims : List Dim) → sizes (dim ∷ dims) (numbers given.now) ≡ result.0 ∷ sizes dims (numbers result.1.now) }
{
    match dim {
        Dim::Fixed(size) => (size as u64, given),
        Dim::Dynamic => match given.split_first() {
            Some((size, more)) => (number_in(*size), more),
            None => (0, given),
        },
    }
}

/// The sizes of an allocation: each `?` takes the next of the values.
fn sizes(alloc: Global, dims: &[Dim], given: &[Val]) -> Result<Items<u64>, AllocError>
    ensures { IfOk result (λ all. all ≡ sizes dims.now (numbers given.now)) }
{
    let mut given = given;
    let mut all = Items::new(alloc);
    for dim in dims {
        let (size, more) = size_of(*dim, given);
        all.push(size)?;
        given = more;
    }
    Ok(all)
}

/// The sizes that an allocation asks for.
fn asked_sizes(
    alloc: Global,
    stack: &Stack,
    func: &LowFunc,
    instr: &Instr,
) -> Result<Items<u64>, AllocError>
    ensures { IfOk result (λ all. all ≡ asked_sizes func.now instr.now (operands stack.now instr.now)) }
{
    let vals = stack.values(alloc, instr)?;
    sizes(alloc, dims_of(func, instr), vals.as_slice())
}

/// The sizes, where a buffer may have them.
fn fit(alloc: Global, sizes: &[u64]) -> Result<Option<Items<u32>>, AllocError>
    ensures { IfOk result (λ fit. MatchOption fit (can_allocate sizes.now ≡ false) (λ dims. (can_allocate sizes.now ≡ true) × (dims ≡ sizes.now))) }
{
    if sizes.len() > 4 {
        return Ok(None);
    }
    let mut dims = Items::new(alloc);
    for size in sizes {
        if *size > MOST_CELLS {
            return Ok(None);
        }
        dims.push(*size as u32)?;
    }
    Ok(Some(dims))
}

/// How many cells a buffer of these sizes has; 2^32 stands for all greater numbers.
#[tactic(auto, using(crate::proofs::Products::product_step))]
fn count_of(dims: &[u32]) -> u64
    ensures { result ≡ min (product dims.now) (2 ^ 32) }
{
    let mut cells: u64 = 1;
    for dim in dims {
        cells = (cells * *dim as u64).min(1 << 32);
    }
    cells
}

/// So many cells that hold 0.
#[tactic(auto, using(crate::proofs::CellRows::zeros_more))]
fn zeros(alloc: Global, count: u64) -> Result<Items<u64>, AllocError>
    ensures { IfOk result (λ cells. cells ≡ replicate count 0) }
{
    let mut cells = Items::new(alloc);
    for _turn in 0..count {
        cells.push(0)?;
    }
    Ok(cells)
}

/// The sizes of the buffer that an allocation asks for, where there may be such a buffer.
fn asked_buffer(
    alloc: Global,
    stack: &Stack,
    func: &LowFunc,
    instr: &Instr,
) -> Result<Option<Items<u32>>, AllocError>
    ensures { IfOk result (λ fit. MatchOption fit (can_allocate (asked_sizes func.now instr.now (operands stack.now instr.now)) ≡ false) (λ dims. (can_allocate (asked_sizes func.now instr.now (operands stack.now instr.now)) ≡ true) × (dims ≡ asked_sizes func.now instr.now (operands stack.now instr.now)))) }
{
    let sizes = asked_sizes(alloc, stack, func, instr)?;
    fit(alloc, sizes.as_slice())
}

/// Adds a buffer of these sizes with these cells, or without memory changes nothing.
fn add_buffer(
    stack: &mut Stack,
    cells: &mut Cells,
    instr: &Instr,
    dims: &[u32],
    zeros: Items<u64>,
) -> Result<Row, AllocError>
    requires place { stack.old.top.current.place.at + 2 < 2 ^ 64 }
    requires buffers { length cells.old.buffers < 2 ^ 32 - 1 }
    requires few { cells_used cells.old.buffers + length zeros < 2 ^ 32 }
    ensures ok { IfOk result (λ row. (row ≡ Row.Goes None) × (cells.new.buffers ≡ cells.old.buffers ++ zeros ∷ []) × (stack.new ≡ moved instr.now.results (buffer_val (length cells.old.buffers) dims.now ∷ []) stack.old)) }
    ensures err { OnErr result ((cells.new.buffers ≡ cells.old.buffers) × (stack.new ≡ stack.old)) }
{
    if cells.reserve().is_err() {
        return Err(AllocError);
    }
    let val = buffer_val(cells.made(), dims);
    match give(stack, instr, val) {
        Ok(row) => {
            cells.push(zeros);
            Ok(row)
        }
        Err(wanting) => Err(wanting),
    }
}

/// Allocates a buffer of these sizes, where at most so many cells may be in use.
fn allocate_buffer(
    alloc: Global,
    stack: &mut Stack,
    cells: &mut Cells,
    most: u32,
    instr: &Instr,
    dims: &[u32],
) -> Result<Row, AllocError>
    requires place { stack.old.top.current.place.at + 2 < 2 ^ 64 }
    requires buffers { length cells.old.buffers < 2 ^ 32 - 1 }
    ensures row { IfOk result (λ row. (l : Limits) → l.cells ≡ most → can_allocate dims.now ≡ true → CellRow (allocate_step dims.now l instr.now) row cells.old.buffers cells.new.buffers stack.old stack.new) }
    ensures err { OnErr result ((cells.new.buffers ≡ cells.old.buffers) × (stack.new ≡ stack.old)) }
{
    let used = cells.used();
    let count = count_of(dims);
    if used as u64 + count > most as u64 {
        return Ok(Row::Stop(Limit::Cells { used }));
    }
    match zeros(alloc, count) {
        Ok(zeros) => add_buffer(stack, cells, instr, dims, zeros),
        Err(wanting) => Err(wanting),
    }
}

/// Allocates a buffer.
pub(crate) fn allocate(
    alloc: Global,
    stack: &mut Stack,
    cells: &mut Cells,
    limits: Limits,
    func: &LowFunc,
    instr: &Instr,
) -> Result<Row, AllocError>
    requires place { stack.old.top.current.place.at + 2 < 2 ^ 64 }
    requires buffers { length cells.old.buffers < 2 ^ 32 - 1 }
    ensures row { IfOk result (λ row. CellRow (row_step limits SharedRow.Allocate func.now instr.now (operands stack.old instr.now)) row cells.old.buffers cells.new.buffers stack.old stack.new) }
    ensures err { OnErr result ((cells.new.buffers ≡ cells.old.buffers) × (stack.new ≡ stack.old)) }
{
    match asked_buffer(alloc, stack, func, instr) {
        Ok(Some(dims)) => {
            allocate_buffer(alloc, stack, cells, limits.cells, instr, dims.as_slice())
        }
        Ok(None) => Ok(Row::Stuck),
        Err(wanting) => Err(wanting),
    }
}
