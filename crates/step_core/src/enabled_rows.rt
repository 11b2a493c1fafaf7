//! What shared instructions need, without taking them.
ghost use Rattle.std.specs.Prelude.{◌≡◌, ◌<◌, ◌≤◌, ◌+◌, ◌^◌, ◌∷◌, List, true, false, drop, length};
ghost use Rattle.std.specs.Option.{is_some};
ghost use Rattle.source_meaning.specs.Rows.{sizes};
ghost use Rattle.source_meaning.specs.Values.{maybe};
ghost use Rattle.async_objects.specs.Objects.{object_at, is_done, is_open};
ghost use Rattle.task_stack.specs.Local.{operands};
ghost use Rattle.task_stack.specs.Registers.{value};
ghost use Rattle.task_stack.specs.Shared.{kept, next_of};
ghost use Rattle.ir_forms.specs.declared.types.Dim.{Dim};
ghost use Rattle.ir_forms.specs.Shapes.{most_cells};
ghost use Rattle.step_core.specs.Rows.{shared_row};
ghost use Rattle.step_core.specs.Shared.{numbers, asked_sizes, can_allocate, all_within};
ghost use Rattle.step_core.specs.Parts.{cell_named};
ghost use Rattle.step_core.specs.Enabled.{can_add, is_only, of_named, row_can};

use crate::cells::Cells;
use crate::rows::{SharedRow, shared_row};
use crate::shared_cells::{MOST_CELLS, cell_there, dims_of};
use crate::shared_ends::is_only_frame;
use crate::shared_objects::{is_group, is_open, named};
use async_objects::Objects;
use ir_forms::Dim;
use low_forms::{Instr, LowFunc, LowModule};
use task_stack::Stack;

/// Whether what the next instruction needs holds, which is a shared one.
pub(crate) fn next_can(code: &LowModule, objects: &Objects, cells: &Cells, stack: &Stack) -> bool
    ensures { result ≡ maybe false (λ n. row_can (shared_row n.instr.kind) n.func n.instr (operands stack.now n.instr) objects.now.objects objects.now.counts cells.now.buffers stack.now) (next_of code.now stack.now) }
{
    match stack.next(code) {
        Some((func, instr)) => row_can(objects, cells, stack, func, instr),
        None => false,
    }
}

fn row_can(objects: &Objects, cells: &Cells, stack: &Stack, func: &LowFunc, instr: &Instr) -> bool
    ensures { result ≡ row_can (shared_row instr.now.kind) func.now instr.now (operands stack.now instr.now) objects.now.objects objects.now.counts cells.now.buffers stack.now }
{
    match shared_row(instr.kind) {
        SharedRow::Absent => false,
        SharedRow::Allocate => may_allocate(stack, func, instr),
        SharedRow::Deallocate | SharedRow::Create | SharedRow::CreateGroup => true,
        SharedRow::LoadCell => has_cell(stack, cells, instr, 0),
        SharedRow::StoreCell => has_cell(stack, cells, instr, 1),
        SharedRow::Return | SharedRow::Fail => may_end(stack, true),
        SharedRow::Finish => may_end(stack, false),
        SharedRow::AddToGroup => may_add(stack, objects, instr),
        SharedRow::Resume => may_resume(stack),
        SharedRow::Await => may_await(stack, objects, instr),
        SharedRow::AwaitAndResume => {
            if may_resume(stack) {
                may_await(stack, objects, instr)
            } else {
                false
            }
        }
        SharedRow::IsError => may_look(stack, objects, instr),
        SharedRow::Store => may_set(stack, objects, instr, 1),
        SharedRow::Load => may_load(stack, objects, instr),
        SharedRow::SetAvailable | SharedRow::SetError => may_set(stack, objects, instr, 0),
    }
}

/// Whether a buffer may have the sizes that an allocation asks for.
#[tactic(auto, using(crate::proofs::EnabledLemmas::sizes_length))]
fn may_allocate(stack: &Stack, func: &LowFunc, instr: &Instr) -> bool
    ensures { result ≡ can_allocate (asked_sizes func.now instr.now (operands stack.now instr.now)) }
{
    let dims = dims_of(func, instr);
    if dims.len() > 4 {
        return false;
    }
    are_small(stack, instr, dims)
}

/// The size of a dimension, and the operand that the next `?` takes.
#[tactic(auto, using(crate::proofs::EnabledLemmas::size_next))]
fn next_size(stack: &Stack, instr: &Instr, dim: Dim, given: usize) -> (u64, usize)
    requires { given < 2 ^ 32 }
    ensures size { (dims : List Dim) → sizes (dim ∷ dims) (numbers (drop given (operands stack.now instr.now))) ≡ result.0 ∷ sizes dims (numbers (drop result.1 (operands stack.now instr.now))) }
    ensures next { result.1 ≤ given + 1 }
{
    match dim {
        Dim::Fixed(size) => (u64::from(size), given),
        Dim::Dynamic => (stack.number(instr, given), given + 1),
    }
}

/// Whether none of the sizes is too large. Each `?` takes the next of the operands.
fn are_small(stack: &Stack, instr: &Instr, dims: &[Dim]) -> bool
    requires { length dims.now < 5 }
    ensures { result ≡ all_within most_cells (sizes dims.now (numbers (operands stack.now instr.now))) }
{
    let mut given = 0;
    for dim in dims {
        let (size, next) = next_size(stack, instr, *dim, given);
        if size > MOST_CELLS {
            return false;
        }
        given = next;
    }
    true
}

fn has_cell(stack: &Stack, cells: &Cells, instr: &Instr, buffer: usize) -> bool
    requires { buffer < 4 }
    ensures { result ≡ is_some (cell_named (value (operands stack.now instr.now) buffer) (numbers (drop (buffer + 1) (operands stack.now instr.now))) cells.now.buffers) }
{
    match cell_there(stack, cells, instr, buffer) {
        Some(_cell) => true,
        None => false,
    }
}

fn may_end(stack: &Stack, of_root: bool) -> bool
    ensures { result ≡ is_only stack.now.below stack.now.is_root of_root }
{
    is_only_frame(stack, of_root)
}

fn may_resume(stack: &Stack) -> bool
    ensures { result ≡ is_some (kept stack.now) }
{
    stack.has_copy()
}

fn may_await(stack: &Stack, objects: &Objects, instr: &Instr) -> bool
    ensures { result ≡ of_named (value (operands stack.now instr.now) 0) objects.now.counts (λ o. true) }
{
    match named(stack, objects, instr, 0) {
        Some(_o) => true,
        None => false,
    }
}

fn may_look(stack: &Stack, objects: &Objects, instr: &Instr) -> bool
    ensures { result ≡ of_named (value (operands stack.now instr.now) 0) objects.now.counts (λ o. is_done (object_at objects.now.objects o)) }
{
    match named(stack, objects, instr, 0) {
        Some(o) => objects.is_done(o),
        None => false,
    }
}

fn may_load(stack: &Stack, objects: &Objects, instr: &Instr) -> bool
    ensures { result ≡ of_named (value (operands stack.now instr.now) 0) objects.now.counts (λ o. is_some (object_at objects.now.objects o).payload) }
{
    match named(stack, objects, instr, 0) {
        Some(o) => match objects.load(o) {
            Some(_val) => true,
            None => false,
        },
        None => false,
    }
}

/// Whether the object that this operand names isn't set, and is no group.
fn may_set(stack: &Stack, objects: &Objects, instr: &Instr, i: usize) -> bool
    ensures { result ≡ of_named (value (operands stack.now instr.now) i) objects.now.counts (λ o. is_open (object_at objects.now.objects o)) }
{
    match named(stack, objects, instr, i) {
        Some(o) => is_open(objects, o),
        None => false,
    }
}

/// Whether the operands name an element and a group.
fn may_add(stack: &Stack, objects: &Objects, instr: &Instr) -> bool
    ensures { result ≡ of_named (value (operands stack.now instr.now) 0) objects.now.counts (λ x. of_named (value (operands stack.now instr.now) 1) objects.now.counts (λ g. can_add objects.now.objects x g)) }
{
    let Some(element) = named(stack, objects, instr, 0) else {
        return false;
    };
    let Some(group) = named(stack, objects, instr, 1) else {
        return false;
    };
    if is_group(objects, element) {
        return false;
    }
    is_group(objects, group)
}
