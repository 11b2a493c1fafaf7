//! Shared steps, by the kinds of their instructions.
ghost use Rattle.std.specs.Prelude.{◌≡◌, ◌<◌, ◌≤◌, ◌-◌, ◌+◌, ◌^◌, length, IfOk, OnErr};
ghost use Rattle.low_forms.specs.Registers.{type_at};
ghost use Rattle.task_stack.specs.Local.{operands};
ghost use Rattle.step_core.specs.State.{live_tasks};
ghost use Rattle.step_core.specs.Shared.{kind_of};
ghost use Rattle.step_core.specs.Core.{Core};
ghost use Rattle.step_core.specs.Rows.{shared_row};
ghost use Rattle.step_core.specs.Parts.{with_parts, row_step, IsRow};

use crate::cells::Cells;
use crate::limits::Limits;
use crate::parts::Row;
use crate::rows::{SharedRow, shared_row};
use crate::shared_cells::{allocate, load_cell, result_type, store_cell};
use crate::shared_ends::{deallocate, end_root, fail_root, finish, resume};
use crate::shared_objects::{add, await_and_resume, await_object, create, load, look, set, store};
use async_objects::{FreedList, Kind, Objects, State, WokenList};
use ir_forms::{TaskNo, Ty};
use low_forms::{Instr, LowFunc};
use std::alloc::{AllocError, Global};
use task_stack::Stack;

/// A token, or a value, by the type of the result.
fn made_kind(func: &LowFunc, instr: &Instr) -> Kind
    ensures { result ≡ kind_of (type_at func.now instr.now.results 0) }
{
    match result_type(func, instr) {
        Some(Ty::Value(_held)) => Kind::Value,
        _ => Kind::Token,
    }
}

/// Takes the next instruction of a task, which is a shared one. `live` tells how many tasks there are. The stack goes on,
/// the tasks that the step wakes are added to the list, and so are the objects that go. Where no step is taken, and
/// without memory, nothing has changed.
pub(crate) fn take_row(
    alloc: Global,
    limits: Limits,
    live: u32,
    task: TaskNo,
    stack: &mut Stack,
    objects: &mut Objects,
    cells: &mut Cells,
    woken: &mut WokenList,
    gone: &mut FreedList,
    func: &LowFunc,
    instr: &Instr,
) -> Result<Row, AllocError>
    requires place { stack.old.top.current.place.at + 2 < 2 ^ 64 }
    requires made { length objects.old.objects < 2 ^ 32 - 1 }
    requires buffers { length cells.old.buffers < 2 ^ 32 - 1 }
    requires limit { objects.old.limit ≡ limits.objects }
    ensures row { IfOk result (λ row. (rest : Core) → live_tasks rest.plain.tasks ≡ live → IsRow row (with_parts objects.old cells.old.buffers gone.old.items rest) (with_parts objects.new cells.new.buffers gone.new.items rest) woken.old.items woken.new.items task.0 stack.old stack.new (row_step limits (shared_row instr.now.kind) func.now instr.now (operands stack.old instr.now) (with_parts objects.old cells.old.buffers gone.old.items rest) task.0 stack.old)) }
    ensures err { OnErr result ((objects.new ≡ objects.old) × (stack.new ≡ stack.old) × (cells.new.buffers ≡ cells.old.buffers) × (gone.new.items ≡ gone.old.items) × (woken.new.items ≡ woken.old.items)) }
    ensures kept { objects.new.limit ≡ objects.old.limit }
    ensures places { length woken.old.items + woken.old.room ≤ length woken.new.items + woken.new.room }
{
    match shared_row(instr.kind) {
        SharedRow::Absent => Ok(Row::Stuck),
        SharedRow::Allocate => allocate(alloc, stack, cells, limits, func, instr),
        SharedRow::Deallocate => Ok(deallocate(stack, instr)),
        SharedRow::LoadCell => load_cell(stack, cells, instr),
        SharedRow::StoreCell => Ok(store_cell(stack, cells, instr)),
        SharedRow::Return => end_root(alloc, stack, func, instr),
        SharedRow::Fail => Ok(fail_root(stack, instr)),
        SharedRow::Finish => Ok(finish(stack, instr)),
        SharedRow::Create => create(stack, objects, instr, made_kind(func, instr)),
        SharedRow::CreateGroup => {
            let size = stack.number(instr, 0);
            create(stack, objects, instr, Kind::Group { size })
        }
        SharedRow::AddToGroup => add(stack, objects, woken, instr),
        SharedRow::Resume => Ok(resume(alloc, stack, instr, limits, live)),
        SharedRow::Await => await_object(stack, objects, instr, task),
        SharedRow::AwaitAndResume => await_and_resume(stack, objects, instr, task),
        SharedRow::IsError => look(stack, objects, instr),
        SharedRow::Store => Ok(store(stack, objects, instr)),
        SharedRow::Load => load(stack, objects, instr),
        SharedRow::SetAvailable => set(stack, objects, woken, gone, instr, State::Available),
        SharedRow::SetError => set(stack, objects, woken, gone, instr, State::Error),
    }
}
