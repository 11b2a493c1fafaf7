//! The rows of shared instructions on objects.
ghost use Rattle.std.specs.Prelude.{◌≡◌, ◌<◌, ◌≤◌, ◌+◌, ◌-◌, ◌^◌, ◌∷◌, List, [], cond, true, false, length, None, Some, IfOk, IfSome, OnOk, OnErr};
ghost use Rattle.source_meaning.specs.Rows.{bit};
ghost use Rattle.async_objects.specs.Counts.{IsThere};
ghost use Rattle.async_objects.specs.Objects.{object_at, awaited, is_done, is_error, is_group, is_open, is_unset, state_of};
ghost use Rattle.async_objects.specs.Sound.{awaiting};
ghost use Rattle.async_objects.specs.Tables.{with_objects};
ghost use Rattle.task_stack.specs.Local.{operands};
ghost use Rattle.task_stack.specs.Registers.{value};
ghost use Rattle.task_stack.specs.Shared.{moved, passed};
ghost use Rattle.low_forms.specs.declared.code.LowFunc.{LowFunc};
ghost use Rattle.step_core.specs.declared.limits.Limits.{Limits};
ghost use Rattle.step_core.specs.Parts.{named, create_step, await_step, set_step, row_step, ObjectRow, AwaitRow, WakingRow};

use crate::limits::Limit;
use crate::parts::Row;
use crate::rows::SharedRow;
use async_objects::{
    AddError, Awaited, CreateError, FreedList, Kind, Objects, State, Val, WokenList,
};
use ir_forms::{ObjNo, TaskNo};
use low_forms::Instr;
use std::alloc::AllocError;
use task_stack::Stack;

/// The object that an operand names, if it is there.
pub(crate) fn named(stack: &Stack, objects: &Objects, instr: &Instr, i: usize) -> Option<ObjNo>
    ensures value { result ≡ named (value (operands stack.now instr.now) i) objects.now.counts }
    ensures there { IfSome result (λ o. IsThere objects.now.counts o) }
{
    match stack.value(instr, i) {
        Val::Object(o) => { if objects.is_there(o) { Some(o) } else { None } }
        _ => None,
    }
}

pub(crate) fn is_group(objects: &Objects, o: ObjNo) -> bool
    requires { IsThere objects.now.counts o }
    ensures { result ≡ is_group (object_at objects.now.objects o).kind }
{
    match objects.kind(o) {
        Kind::Group { .. } => true,
        _ => false,
    }
}

/// Whether an object is a token or a value that isn't set.
#[tactic(auto, using(crate::proofs::ObjectRows::open_single, crate::proofs::ObjectRows::open_group))]
pub(crate) fn is_open(objects: &Objects, o: ObjNo) -> bool
    requires { IsThere objects.now.counts o }
    ensures { result ≡ is_open (object_at objects.now.objects o) }
{
    if is_group(objects, o) {
        return false;
    }
    matches!(objects.state(o), State::Unset)
}

/// 1 for an object that is in error, else 0.
fn error_bit(objects: &Objects, o: ObjNo) -> u64
    requires { IsThere objects.now.counts o }
    ensures { result ≡ bit (is_error (state_of (object_at objects.now.objects o))) }
{
    match objects.state(o) {
        State::Error => 1,
        _ => 0,
    }
}

/// The task goes on with this value as the instruction's result.
pub(crate) fn give(stack: &mut Stack, instr: &Instr, val: Val) -> Result<Row, AllocError>
    requires { stack.old.top.current.place.at + 2 < 2 ^ 64 }
    ensures ok { IfOk result (λ row. (row ≡ Row.Goes None) × (stack.new ≡ moved instr.now.results (val ∷ []) stack.old)) }
    ensures err { OnErr result (stack.new ≡ stack.old) }
{
    match stack.give(instr.results.as_slice(), &[val]) {
        Ok(()) => Ok(Row::Goes(None)),
        Err(wanting) => Err(wanting),
    }
}

/// Makes an object of this kind.
pub(crate) fn create(
    stack: &mut Stack,
    objects: &mut Objects,
    instr: &Instr,
    kind: Kind,
) -> Result<Row, AllocError>
    requires place { stack.old.top.current.place.at + 2 < 2 ^ 64 }
    requires made { length objects.old.objects < 2 ^ 32 - 1 }
    ensures row { IfOk result (λ row. (l : Limits) → l.objects ≡ objects.old.limit → ObjectRow (create_step kind l instr.now) row objects.old objects.new stack.old stack.new) }
    ensures err { OnErr result ((objects.new ≡ objects.old) × (stack.new ≡ stack.old)) }
    ensures kept { objects.new.limit ≡ objects.old.limit }
{
    match stack.give_created(objects, kind, instr.results.as_slice()) {
        Ok(_o) => Ok(Row::Goes(None)),
        Err(CreateError::ObjectsFull { live }) => Ok(Row::Stop(Limit::Objects { live })),
        Err(CreateError::OutOfMemory) => Err(AllocError),
    }
}

/// Has a task wait for an object, and gives the object where it isn't done.
fn wait(objects: &mut Objects, o: ObjNo, task: TaskNo) -> Result<Option<ObjNo>, AllocError>
    requires { IsThere objects.old.counts o }
    ensures waits { IfOk result (λ parked. (parked ≡ cond (is_done (object_at objects.old.objects o)) None (Some o)) × (objects.new ≡ with_objects (awaited o task objects.old.objects) objects.old)) }
    ensures err { OnErr result (objects.new ≡ objects.old) }
{
    match objects.await_on(o, task) {
        Ok(Awaited::Ready) => Ok(None),
        Ok(Awaited::Parked) => Ok(Some(o)),
        Err(wanting) => Err(wanting),
    }
}

/// Awaits an object: the task goes on, or is parked until the object is done.
pub(crate) fn await_object(
    stack: &mut Stack,
    objects: &mut Objects,
    instr: &Instr,
    task: TaskNo,
) -> Result<Row, AllocError>
    requires { stack.old.top.current.place.at + 2 < 2 ^ 64 }
    ensures row { IfOk result (λ row. AwaitRow (λ c. await_step (value (operands stack.old instr.now) 0) (passed stack.old) c task.0) row task objects.old objects.new stack.old stack.new) }
    ensures err { OnErr result ((objects.new ≡ objects.old) × (stack.new ≡ stack.old)) }
    ensures kept { objects.new.limit ≡ objects.old.limit }
{
    let Some(o) = named(stack, objects, instr, 0) else {
        return Ok(Row::Stuck);
    };
    match wait(objects, o, task) {
        Ok(parked) => {
            stack.pass();
            Ok(Row::Goes(parked))
        }
        Err(wanting) => Err(wanting),
    }
}

/// Awaits an object; the task goes on as the frame's kept copy.
pub(crate) fn await_and_resume(
    stack: &mut Stack,
    objects: &mut Objects,
    instr: &Instr,
    task: TaskNo,
) -> Result<Row, AllocError>
    ensures row { IfOk result (λ row. (l : Limits) (f : LowFunc) → AwaitRow (λ c. row_step l SharedRow.AwaitAndResume f instr.now (operands stack.old instr.now) c task.0 stack.old) row task objects.old objects.new stack.old stack.new) }
    ensures err { OnErr result ((objects.new ≡ objects.old) × (stack.new ≡ stack.old)) }
    ensures kept { objects.new.limit ≡ objects.old.limit }
{
    if !stack.has_copy() {
        return Ok(Row::Stuck);
    }
    let Some(o) = named(stack, objects, instr, 0) else {
        return Ok(Row::Stuck);
    };
    match wait(objects, o, task) {
        Ok(parked) => {
            stack.become_copy();
            Ok(Row::Goes(parked))
        }
        Err(wanting) => Err(wanting),
    }
}

/// Whether a done object is in error.
pub(crate) fn look(stack: &mut Stack, objects: &Objects, instr: &Instr) -> Result<Row, AllocError>
    requires { stack.old.top.current.place.at + 2 < 2 ^ 64 }
    ensures row { IfOk result (λ row. (l : Limits) (f : LowFunc) → ObjectRow (row_step l SharedRow.IsError f instr.now (operands stack.old instr.now)) row objects.now objects.now stack.old stack.new) }
    ensures err { OnErr result (stack.new ≡ stack.old) }
{
    let Some(o) = named(stack, objects, instr, 0) else {
        return Ok(Row::Stuck);
    };
    if !objects.is_done(o) {
        return Ok(Row::Stuck);
    }
    give(stack, instr, Val::Number(error_bit(objects, o)))
}

/// Loads the payload of an object.
pub(crate) fn load(stack: &mut Stack, objects: &Objects, instr: &Instr) -> Result<Row, AllocError>
    requires { stack.old.top.current.place.at + 2 < 2 ^ 64 }
    ensures row { IfOk result (λ row. (l : Limits) (f : LowFunc) → ObjectRow (row_step l SharedRow.Load f instr.now (operands stack.old instr.now)) row objects.now objects.now stack.old stack.new) }
    ensures err { OnErr result (stack.new ≡ stack.old) }
{
    let Some(o) = named(stack, objects, instr, 0) else {
        return Ok(Row::Stuck);
    };
    match objects.load(o) {
        Some(val) => give(stack, instr, val),
        None => Ok(Row::Stuck),
    }
}

/// Stores a payload in an object that isn't set.
pub(crate) fn store(stack: &mut Stack, objects: &mut Objects, instr: &Instr) -> Row
    requires { stack.old.top.current.place.at + 2 < 2 ^ 64 }
    ensures row { (l : Limits) (f : LowFunc) → ObjectRow (row_step l SharedRow.Store f instr.now (operands stack.old instr.now)) result objects.old objects.new stack.old stack.new }
    ensures kept { objects.new.limit ≡ objects.old.limit }
{
    let Some(o) = named(stack, objects, instr, 1) else {
        return Row::Stuck;
    };
    if !is_open(objects, o) {
        return Row::Stuck;
    }
    objects.store(o, stack.value(instr, 0));
    stack.pass();
    Row::Goes(None)
}

/// So many tasks fit into no list.
const MOST_WOKEN: u64 = (1 << 32) - 1;

/// Reserves places for all tasks that await objects.
fn reserve_woken(woken: &mut WokenList, objects: &Objects) -> Result<(), AllocError>
    ensures items { woken.new.items ≡ woken.old.items }
    ensures room { OnOk result (awaiting objects.now.objects ≤ woken.new.room) }
    ensures kept { woken.old.room ≤ woken.new.room }
{
    let waiting = objects.waiting();
    if waiting > MOST_WOKEN {
        return Err(AllocError);
    }
    woken.reserve(waiting as u32)
}

/// Sets an object that isn't set.
pub(crate) fn set(
    stack: &mut Stack,
    objects: &mut Objects,
    woken: &mut WokenList,
    gone: &mut FreedList,
    instr: &Instr,
    state: State,
) -> Result<Row, AllocError>
    requires place { stack.old.top.current.place.at + 2 < 2 ^ 64 }
    requires state { is_unset state ≡ false }
    ensures row { IfOk result (λ row. WakingRow (set_step state (value (operands stack.old instr.now) 0)) row objects.old objects.new gone.old.items gone.new.items woken.old.items woken.new.items stack.old stack.new) }
    ensures err { OnErr result ((objects.new ≡ objects.old) × (stack.new ≡ stack.old) × (gone.new.items ≡ gone.old.items) × (woken.new.items ≡ woken.old.items)) }
    ensures kept { objects.new.limit ≡ objects.old.limit }
    ensures places { length woken.old.items + woken.old.room ≤ length woken.new.items + woken.new.room }
{
    let Some(o) = named(stack, objects, instr, 0) else {
        return Ok(Row::Stuck);
    };
    if !is_open(objects, o) {
        return Ok(Row::Stuck);
    }
    if reserve_woken(woken, objects).is_err() {
        return Err(AllocError);
    }
    if gone.reserve(objects.live()).is_err() {
        return Err(AllocError);
    }
    objects.set(o, state, woken, gone);
    stack.pass();
    Ok(Row::Goes(None))
}

/// Adds an element to a group.
pub(crate) fn add(
    stack: &mut Stack,
    objects: &mut Objects,
    woken: &mut WokenList,
    instr: &Instr,
) -> Result<Row, AllocError>
    requires { stack.old.top.current.place.at + 2 < 2 ^ 64 }
    ensures row { IfOk result (λ row. (l : Limits) (f : LowFunc) (gone : List ObjNo) → WakingRow (row_step l SharedRow.AddToGroup f instr.now (operands stack.old instr.now)) row objects.old objects.new gone gone woken.old.items woken.new.items stack.old stack.new) }
    ensures err { OnErr result ((objects.new ≡ objects.old) × (stack.new ≡ stack.old) × (woken.new.items ≡ woken.old.items)) }
    ensures kept { objects.new.limit ≡ objects.old.limit }
    ensures places { length woken.old.items + woken.old.room ≤ length woken.new.items + woken.new.room }
{
    let Some(element) = named(stack, objects, instr, 0) else {
        return Ok(Row::Stuck);
    };
    let Some(group) = named(stack, objects, instr, 1) else {
        return Ok(Row::Stuck);
    };
    if is_group(objects, element) {
        return Ok(Row::Stuck);
    }
    if !is_group(objects, group) {
        return Ok(Row::Stuck);
    }
    if objects.count(group) == u64::MAX {
        return Err(AllocError);
    }
    if reserve_woken(woken, objects).is_err() {
        return Err(AllocError);
    }
    match stack.give_added(objects, element, group, woken, instr.results.as_slice()) {
        Ok(_rank) => Ok(Row::Goes(None)),
        Err(AddError::GroupFull { size }) => Ok(Row::Stop(Limit::Group { size })),
        Err(AddError::OutOfMemory) => Err(AllocError),
    }
}
