//! Which rules an operation breaks in its place.
ghost use Rattle.std.specs.Prelude.{◌≡◌, ◌-◌, ◌<◌, ◌^◌, ◌||◌, length};
ghost use Rattle.ir_forms.specs.Ops.{operands_of, written_of, regions_of, ops_of};
ghost use Rattle.ir_verify.specs.Breaks.{some_at, operand_breaks, written_breaks, result_breaks, param_breaks, last_form, lacks_end, may_be_empty, region_breaks, is_call, is_await, would_block, miscounts, has_results, tries_results, own_breaks, breaks, noted_kind, noted_spot};
ghost use Rattle.std.specs.Option.{option_copied};
ghost use Rattle.ir_verify.specs.Forms.{form};
ghost use Rattle.ir_verify.specs.Places.{types_of, params_of};
ghost use Rattle.ir_verify.specs.Standing.{place_at};

use crate::fault::{Broken, VerifyKind, noted};
use crate::form::{end_asked, ends, form_of, is_ending};
use crate::place::Nest;
use crate::rules::{
    groups_fit, is_in_place, operand_fits, operands_counted, param_fits, params_fit, result_fits,
    types_asked, written_asked, written_fits,
};
use crate::scope::Scope;
use crate::standing::Place;
use crate::types::has_async_cells;
use ir_forms::{Func, Op, Region, Ty, ValueNo};
use op_table::{Form, row};

fn operand_breaks(
    kind: VerifyKind,
    scope: &Scope,
    here: &Place,
    place: usize,
    value: ValueNo,
) -> bool
    ensures { result ≡ operand_breaks kind scope.now (place_at here.now) place value }
{
    match kind {
        VerifyKind::Undefined => !scope.has(value),
        VerifyKind::TypeMismatch => match scope.get(value) {
            Some(t) => !operand_fits(here, place, t),
            None => false,
        },
        _ => false,
    }
}

fn written_breaks(kind: VerifyKind, here: &Place, place: usize, t: &Ty) -> bool
    requires { place < 2 ^ 64 - 1 }
    ensures { result ≡ written_breaks kind (place_at here.now) place t.now }
{
    match kind {
        VerifyKind::TypeMismatch => !written_fits(here, place, t),
        VerifyKind::AsyncInMemref => has_async_cells(t),
        _ => false,
    }
}

fn result_breaks(kind: VerifyKind, here: &Place, place: usize, t: &Ty) -> bool
    ensures { result ≡ result_breaks kind (place_at here.now) place t.now }
{
    match kind {
        VerifyKind::TypeMismatch => !result_fits(here, place, t),
        VerifyKind::AsyncInMemref => has_async_cells(t),
        _ => false,
    }
}

fn param_breaks(
    kind: VerifyKind,
    op: &Op,
    region: usize,
    place: usize,
    param: &(ValueNo, Ty),
) -> bool
    ensures { result ≡ param_breaks kind op.now region place param.now }
{
    match kind {
        VerifyKind::TypeMismatch => !param_fits(op, region, place, &param.1),
        VerifyKind::AsyncInMemref => has_async_cells(&param.1),
        _ => false,
    }
}

fn some_param(kind: VerifyKind, op: &Op, region: usize, params: &[(ValueNo, Ty)]) -> bool
    ensures { result ≡ some_at (param_breaks kind op.now region) params.now }
{
    for (place, param) in params.iter().enumerate() {
        if param_breaks(kind, op, region, place, param) {
            return true;
        }
    }
    false
}

fn some_operand(kind: VerifyKind, scope: &Scope, here: &Place) -> bool
    ensures { result ≡ some_at (operand_breaks kind scope.now (place_at here.now)) (operands_of here.now.op.now) }
{
    let values = here.op.operands.as_slice();
    for (place, value) in values.iter().enumerate() {
        if operand_breaks(kind, scope, here, place, *value) {
            return true;
        }
    }
    false
}

fn some_written(kind: VerifyKind, here: &Place) -> bool
    ensures { result ≡ some_at (written_breaks kind (place_at here.now)) (written_of here.now.op.now) }
{
    let types = here.op.written.as_slice();
    for (place, t) in types.iter().enumerate() {
        if written_breaks(kind, here, place, t) {
            return true;
        }
    }
    false
}

fn some_result(kind: VerifyKind, here: &Place) -> bool
    ensures { result ≡ some_at (result_breaks kind (place_at here.now)) (types_of here.now.op.now) }
{
    let types = here.op.types.as_slice();
    for (place, t) in types.iter().enumerate() {
        if result_breaks(kind, here, place, t) {
            return true;
        }
    }
    false
}

/// The form of the last operation.
fn last_form(ops: &[Op]) -> Form
    ensures { result ≡ last_form ops.now }
{
    match ops {
        [] => Form::Other,
        [.., op] => form_of(op),
    }
}

/// Whether the operations don't end as is asked.
pub(crate) fn lacks_end(asked: Form, ops: &[Op]) -> bool
    ensures { result ≡ lacks_end asked ops.now }
{
    is_ending(asked) && !ends(asked, last_form(ops))
}

/// Whether a region may have no operations: the second one of a branch without results.
fn may_be_empty(form: Form, region: usize, types: &[Ty], ops: &[Op]) -> bool
    ensures { result ≡ may_be_empty form region types.now ops.now }
{
    match form {
        Form::If => region > 0 && types.is_empty() && ops.is_empty(),
        _ => false,
    }
}

fn region_breaks(kind: VerifyKind, op: &Op, place: usize, region: &Region) -> bool
    ensures { result ≡ region_breaks kind op.now place region.now }
{
    let form = form_of(op);
    let ops = region.ops.as_slice();
    match kind {
        VerifyKind::Terminator => {
            !may_be_empty(form, place, op.types.as_slice(), ops)
                && lacks_end(end_asked(form, place), ops)
        }
        VerifyKind::Arity => !params_fit(op, place, region.params.len()),
        VerifyKind::TypeMismatch | VerifyKind::AsyncInMemref => {
            some_param(kind, op, place, region.params.as_slice())
        }
        _ => false,
    }
}

fn some_region(kind: VerifyKind, op: &Op) -> bool
    ensures { result ≡ some_at (region_breaks kind op.now) (regions_of op.now) }
{
    let regions = op.regions.as_slice();
    for (place, region) in regions.iter().enumerate() {
        if region_breaks(kind, op, place, region) {
            return true;
        }
    }
    false
}

pub(crate) fn is_call(form: Form) -> bool
    ensures { result ≡ is_call form }
{
    matches!(form, Form::Call | Form::TryCall)
}

fn is_await(form: Form) -> bool
    ensures { result ≡ is_await form }
{
    matches!(form, Form::Await | Form::AwaitAll)
}

/// Whether an await would block a worker.
fn would_block(nest: Nest, is_called: bool) -> bool
    ensures { result ≡ would_block nest is_called }
{
    match nest {
        Nest::InTask => false,
        Nest::InLoop => true,
        Nest::InFunction => is_called,
    }
}

/// Whether a list of the operation has another length than is asked.
fn miscounts(here: &Place) -> bool
    ensures { result ≡ miscounts (place_at here.now) }
{
    let op = here.op;
    !operands_counted(op)
        || op.written.len() != written_asked(here)
        || op.types.len() != types_asked(here)
        || op.results.len() != op.types.len()
        || op.regions.len() != row(op.kind).regions as usize
        || !groups_fit(op)
}

fn tries_results(form: Form, callee: Option<&Func>) -> bool
    ensures { result ≡ tries_results form (option_copied callee.entry) }
{
    match callee {
        Some(func) if matches!(form, Form::TryCall) => func.results.len() != 0,
        _ => false,
    }
}

fn own_breaks(kind: VerifyKind, here: &Place) -> bool
    ensures { result ≡ own_breaks kind (place_at here.now) }
{
    let form = form_of(here.op);
    match kind {
        VerifyKind::TypeMismatch => matches!(form, Form::Other),
        VerifyKind::Terminator => is_ending(form) && !is_in_place(here),
        VerifyKind::UnknownFunc => is_call(form) && here.callee.is_none(),
        VerifyKind::Arity => miscounts(here) || tries_results(form, here.callee),
        VerifyKind::BlockingAwait => {
            is_await(form) && would_block(here.around.nest, here.around.is_called)
        }
        VerifyKind::Undefined | VerifyKind::AsyncInMemref => false,
    }
}

fn breaks_at_itself_or_region(kind: VerifyKind, here: &Place) -> bool
    ensures { result ≡ (own_breaks kind (place_at here.now) || some_at (region_breaks kind here.now.op.now) (regions_of here.now.op.now)) }
{
    own_breaks(kind, here) || some_region(kind, here.op)
}

fn breaks_at_type(kind: VerifyKind, here: &Place) -> bool
    ensures { result ≡ (some_at (written_breaks kind (place_at here.now)) (written_of here.now.op.now) || (some_at (result_breaks kind (place_at here.now)) (types_of here.now.op.now) || some_at (region_breaks kind here.now.op.now) (regions_of here.now.op.now))) }
{
    some_written(kind, here) || some_result(kind, here) || some_region(kind, here.op)
}

/// Whether the operation breaks the rule of a kind: by itself, at an operand, at a written type, at
/// a result, or at one of its regions. Of these a kind asks only what can break its rule.
pub(crate) fn breaks(kind: VerifyKind, scope: &Scope, here: &Place) -> bool
    ensures { result ≡ breaks kind (record { seen = scope.now; place = place_at here.now }) }
{
    match kind {
        VerifyKind::Undefined => some_operand(kind, scope, here),
        VerifyKind::TypeMismatch => {
            own_breaks(kind, here) || some_operand(kind, scope, here) || breaks_at_type(kind, here)
        }
        VerifyKind::Terminator => breaks_at_itself_or_region(kind, here),
        VerifyKind::UnknownFunc => own_breaks(kind, here),
        VerifyKind::Arity => breaks_at_itself_or_region(kind, here),
        VerifyKind::AsyncInMemref => breaks_at_type(kind, here),
        VerifyKind::BlockingAwait => own_breaks(kind, here),
    }
}

/// The earliest fault so far, with all those of an operation counted.
pub(crate) fn noted_spot(scope: &Scope, here: &Place, best: Option<Broken>) -> Option<Broken>
    ensures { result ≡ noted_spot (record { seen = scope.now; place = place_at here.now }) best }
{
    let best = noted_kind(VerifyKind::Undefined, scope, here, best);
    let best = noted_kind(VerifyKind::TypeMismatch, scope, here, best);
    let best = noted_kind(VerifyKind::Terminator, scope, here, best);
    let best = noted_kind(VerifyKind::UnknownFunc, scope, here, best);
    let best = noted_kind(VerifyKind::Arity, scope, here, best);
    let best = noted_kind(VerifyKind::AsyncInMemref, scope, here, best);
    noted_kind(VerifyKind::BlockingAwait, scope, here, best)
}

fn noted_kind(kind: VerifyKind, scope: &Scope, here: &Place, best: Option<Broken>) -> Option<Broken>
    ensures { result ≡ noted_kind kind (record { seen = scope.now; place = place_at here.now }) best }
{
    let op = here.op.at;
    noted(best, breaks(kind, scope, here), Broken { op, kind })
}
