//! The rows of shared instructions that end a task, launch one, or do nothing to what is shared.
ghost use Rattle.std.specs.Prelude.{◌≡◌, ℕ, ◌<◌, ◌+◌, ◌-◌, ◌%◌, ◌^◌, ◌↔◌, List, [], IsTrue, IfOk};
ghost use Rattle.ir_forms.specs.declared.runs.TaskNo.{TaskNo};
ghost use Rattle.low_forms.specs.declared.code.LowFunc.{LowFunc};
ghost use Rattle.source_meaning.specs.Start.{out_type};
ghost use Rattle.task_stack.specs.Local.{operands};
ghost use Rattle.task_stack.specs.Registers.{number_in};
ghost use Rattle.step_core.specs.State.{live_tasks};
ghost use Rattle.step_core.specs.Shared.{outs};
ghost use Rattle.step_core.specs.Core.{Core};
ghost use Rattle.step_core.specs.Parts.{row_step, IsRow, StackRow};

use crate::ends::RootEnd;
use crate::limits::{Limit, Limits};
use crate::parts::Row;
use crate::rows::SharedRow;
use async_objects::Val;
use ir_forms::{Out, OutTy, Ty};
use lists::Items;
use low_forms::{Instr, LowFunc};
use std::alloc::{AllocError, Global};
use task_stack::Stack;

/// Frees a buffer, which does nothing: its cells stay until the run ends.
pub(crate) fn deallocate(stack: &mut Stack, instr: &Instr) -> Row
    requires { stack.old.top.current.place.at + 2 < 2 ^ 64 }
    ensures { (l : Limits) (f : LowFunc) → StackRow (row_step l SharedRow.Deallocate f instr.now (operands stack.old instr.now)) result stack.old stack.new }
{
    let _kind = instr.kind;
    stack.pass();
    Row::Goes(None)
}

/// Whether the working frame is the only one, of the root or of another task.
pub(crate) fn is_only_frame(stack: &Stack, of_root: bool) -> bool
    ensures { IsTrue result ↔ ((stack.now.below ≡ []) × (stack.now.is_root ≡ of_root)) }
{
    stack.is_last() && stack.is_root() == of_root
}

/// The type of a number that is given back.
fn out_type(ty: &Ty) -> OutTy
    ensures { result ≡ out_type ty.now }
{
    match ty {
        Ty::Int(width) => OutTy::Int(*width),
        _ => OutTy::Index,
    }
}

/// The number of a value. What is none counts as 0.
fn number_in(val: Val) -> u64
    ensures { result ≡ number_in val }
{
    match val {
        Val::Number(n) => n,
        _ => 0,
    }
}

/// Numbers with their types.
#[tactic(auto, using(crate::proofs::EndRows::snoc_append))]
fn outs(alloc: Global, types: &[Ty], vals: &[Val]) -> Result<Items<Out>, AllocError>
    ensures { IfOk result (λ all. all ≡ outs types.now vals.now) }
{
    let mut all = Items::new(alloc);
    let mut types_left = types;
    let mut vals_left = vals;
    loop {
        let Some((ty, more_types)) = types_left.split_first() else {
            return Ok(all);
        };
        let Some((val, more_vals)) = vals_left.split_first() else {
            return Ok(all);
        };
        all.push(Out {
            ty: out_type(ty),
            bits: number_in(*val),
        })?;
        types_left = more_types;
        vals_left = more_vals;
    }
}

/// What the root's last frame returns.
fn results(
    alloc: Global,
    stack: &Stack,
    func: &LowFunc,
    instr: &Instr,
) -> Result<Items<Out>, AllocError>
    ensures { IfOk result (λ all. all ≡ outs func.now.results (operands stack.now instr.now)) }
{
    let vals = stack.values(alloc, instr)?;
    outs(alloc, func.results.as_slice(), vals.as_slice())
}

/// The root's last frame returns.
pub(crate) fn end_root(
    alloc: Global,
    stack: &Stack,
    func: &LowFunc,
    instr: &Instr,
) -> Result<Row, AllocError>
    ensures { IfOk result (λ row. (l : Limits) → StackRow (row_step l SharedRow.Return func.now instr.now (operands stack.now instr.now)) row stack.now stack.now) }
{
    if !is_only_frame(stack, true) {
        return Ok(Row::Stuck);
    }
    match results(alloc, stack, func, instr) {
        Ok(results) => Ok(Row::Ends(Some(RootEnd::Returned { results }))),
        Err(wanting) => Err(wanting),
    }
}

/// The root's last frame fails, at the operation of this number.
pub(crate) fn fail_root(stack: &Stack, instr: &Instr) -> Row
    ensures { (l : Limits) (f : LowFunc) → StackRow (row_step l SharedRow.Fail f instr.now (operands stack.now instr.now)) result stack.now stack.now }
{
    if !is_only_frame(stack, true) {
        return Row::Stuck;
    }
    let op = (stack.number(instr, 0) % (1 << 32)) as u32;
    Row::Ends(Some(RootEnd::FailedAt { op }))
}

/// The only frame of a launched task ends.
pub(crate) fn finish(stack: &Stack, instr: &Instr) -> Row
    ensures { (l : Limits) (f : LowFunc) → StackRow (row_step l SharedRow.Finish f instr.now (operands stack.now instr.now)) result stack.now stack.now }
{
    let _kind = instr.kind;
    if !is_only_frame(stack, false) {
        return Row::Stuck;
    }
    Row::Ends(None)
}

/// Launches the working frame's kept copy as a new task, where `live` tell how many there are.
pub(crate) fn resume(
    alloc: Global,
    stack: &mut Stack,
    instr: &Instr,
    limits: Limits,
    live: u32,
) -> Row
    requires { stack.old.top.current.place.at + 2 < 2 ^ 64 }
    ensures { (f : LowFunc) (c : Core) (woken : List TaskNo) (t : ℕ) → live_tasks c.plain.tasks ≡ live → IsRow result c c woken woken t stack.old stack.new (row_step limits SharedRow.Resume f instr.now (operands stack.old instr.now) c t stack.old) }
{
    let _kind = instr.kind;
    if !stack.has_copy() {
        return Row::Stuck;
    }
    if live >= limits.tasks {
        return Row::Stop(Limit::Tasks { live });
    }
    match stack.resume(alloc) {
        Some(copy) => Row::Launches(copy),
        None => unreachable!(),
    }
}
