//! What the verifier asks of an operation in its place, list by list.
ghost use Rattle.std.specs.Prelude.{◌≡◌, ◌+◌, ◌-◌, ◌*◌, ◌<◌, ◌^◌, ◌==◌, length, slice_get, slice_index};
ghost use Rattle.std.specs.Option.{option_copied};
ghost use Rattle.ir_forms.specs.Ops.{operands_of, regions_of, written_of};
ghost use Rattle.ir_verify.specs.Places.{params_of, types_of};
ghost use Rattle.ir_verify.specs.Standing.{around_of, place_at};
ghost use Rattle.ir_verify.specs.Forms.{form};
ghost use Rattle.ir_verify.specs.Types.{same_type, holds, is_element, is_value, dims_of, open_dims, extends, truncates, casts_index};
ghost use Rattle.ir_verify.specs.Rules.{first_type, is_asked, is_held, group, groups_of, dimensions, first_params, end_around, is_in_place, given_types, end_type_in, end_type, end_length_in, end_length, param_type, result_type, param_length, result_length, select_operand, for_operand, condition_operand, indexes, load_operand, store_operand, dim_operand, member_operand, bound_place, task_operand, operand_fits, operands_given, operands_asked, written_fits, end_asks, written_asked, task_result, result_fits, types_given, types_asked, for_param, while_types, param_fits, params_fit, are_groups, are_task_groups, groups_fit};

use crate::form::{end_asked, ends, form_of};
use crate::standing::{Around, Place};
use crate::types::{
    casts_index, extends, holds, is_awaitable, is_element, is_group, is_index, is_memref,
    is_number, is_token, is_truth, is_value, literal_fits, open_rank, rank, same_type, truncates,
};
use ir_forms::{Func, Op, Ty};
use lists::Items;
use op_table::{Count, Form, row};

/// Whether a type is the first of a list.
fn is_first(types: &Items<Ty>, t: &Ty) -> bool
    ensures { result ≡ same_type (first_type types.now) t.now }
{
    match types.get(0) {
        Some(first) => same_type(first, t),
        None => false,
    }
}

/// Whether a type is what a value of the list's first type holds.
fn first_holds(types: &Items<Ty>, t: &Ty) -> bool
    ensures { result ≡ holds (first_type types.now) t.now }
{
    match types.get(0) {
        Some(first) => holds(first, t),
        None => false,
    }
}

/// Whether a type is that of the cells of the list's first type.
fn is_first_element(types: &Items<Ty>, t: &Ty) -> bool
    ensures { result ≡ is_element (first_type types.now) t.now }
{
    match types.get(0) {
        Some(first) => is_element(first, t),
        None => false,
    }
}

fn first_is_value(types: &Items<Ty>) -> bool
    ensures { result ≡ is_value (first_type types.now) }
{
    match types.get(0) {
        Some(first) => is_value(first),
        None => false,
    }
}

/// The number of dimensions of the list's first type.
fn first_rank(types: &Items<Ty>) -> usize
    ensures { result ≡ length (dims_of (first_type types.now)) }
{
    match types.get(0) {
        Some(first) => rank(first),
        None => 0,
    }
}

/// How many sizes of the list's first type are `?`.
fn first_open_rank(types: &Items<Ty>) -> usize
    ensures { result ≡ open_dims (dims_of (first_type types.now)) }
{
    match types.get(0) {
        Some(first) => open_rank(first),
        None => 0,
    }
}

fn extends_to_first(t: &Ty, types: &Items<Ty>) -> bool
    ensures { result ≡ extends t.now (first_type types.now) }
{
    match types.get(0) {
        Some(first) => extends(t, first),
        None => false,
    }
}

fn truncates_to_first(t: &Ty, types: &Items<Ty>) -> bool
    ensures { result ≡ truncates t.now (first_type types.now) }
{
    match types.get(0) {
        Some(first) => truncates(t, first),
        None => false,
    }
}

fn casts_index_to_first(t: &Ty, types: &Items<Ty>) -> bool
    ensures { result ≡ casts_index t.now (first_type types.now) }
{
    match types.get(0) {
        Some(first) => casts_index(t, first),
        None => false,
    }
}

/// Whether a type is the one that is asked at a place of a list, where one is.
fn is_at(asked: &Items<Ty>, place: usize, t: &Ty) -> bool
    ensures { result ≡ is_asked (slice_get asked.now place) t.now }
{
    is_asked(asked.get(place), t)
}

fn is_asked(asked: Option<&Ty>, t: &Ty) -> bool
    ensures { result ≡ is_asked (option_copied asked.entry) t.now }
{
    match asked {
        Some(asked) => same_type(asked, t),
        None => true,
    }
}

fn is_held(asked: Option<&Ty>, t: &Ty) -> bool
    ensures { result ≡ is_held (option_copied asked.entry) t.now }
{
    match asked {
        Some(asked) => holds(asked, t),
        None => true,
    }
}

/// The length of an operand group.
fn group(op: &Op, place: usize) -> usize
    ensures value { result ≡ group op.now place }
    ensures small { result < 2 ^ 32 }
{
    match op.groups.get(place) {
        Some(length) => *length as usize,
        None => 0,
    }
}

/// How many dimensions a parallel loop has.
fn dimensions(op: &Op) -> usize
    ensures { result ≡ dimensions op.now }
{
    match op.regions.get(0) {
        Some(region) => region.params.len(),
        None => 0,
    }
}

/// What ends the region round an operation.
fn end_around(around: &Around) -> Form
    ensures { result ≡ end_around (option_copied around.now.holder) around.now.region }
{
    match around.holder {
        None => Form::Return,
        Some(holder) => end_asked(form_of(holder), around.region),
    }
}

/// Whether the operation ends its region as the region asks.
pub(crate) fn is_in_place(here: &Place) -> bool
    ensures { result ≡ is_in_place (place_at here.now) }
{
    here.is_last && ends(end_around(&here.around), form_of(here.op))
}

/// The type at a place of what the end of the region round the operation gives.
fn end_type<'a>(around: &Around<'a>, place: usize) -> Option<&'a Ty>
    requires { place < 2 ^ 64 - 1 }
    ensures { option_copied result ≡ end_type (around_of around.now) place }
{
    match around.holder {
        None => around.func.results.get(place),
        Some(holder) => end_type_in(holder, around.region, place),
    }
}

fn end_type_in(holder: &Op, region: usize, place: usize) -> Option<&Ty>
    requires { place < 2 ^ 64 - 1 }
    ensures { option_copied result ≡ end_type_in (form holder.now) holder.now region place }
{
    match form_of(holder) {
        Form::Execute => holder.types.get(place + 1),
        Form::While if region > 0 => holder.written.get(place),
        _ => holder.types.get(place),
    }
}

/// How many types the end of the region round the operation gives.
fn end_length(around: &Around) -> usize
    ensures { result ≡ end_length (around_of around.now) }
{
    match around.holder {
        None => around.func.results.len(),
        Some(holder) => end_length_in(holder, around.region),
    }
}

fn end_length_in(holder: &Op, region: usize) -> usize
    ensures { result ≡ end_length_in (form holder.now) holder.now region }
{
    match form_of(holder) {
        Form::Execute => holder.types.len().saturating_sub(1),
        Form::While if region > 0 => holder.written.len(),
        _ => holder.types.len(),
    }
}

/// Whether a type is the one of the called function's parameter at a place, where there is one.
fn is_param(callee: Option<&Func>, place: usize, t: &Ty) -> bool
    ensures { result ≡ is_asked (param_type (option_copied callee.entry) place) t.now }
{
    match callee {
        None => true,
        Some(func) => match func.params.get(place) {
            Some((_, asked)) => same_type(asked, t),
            None => true,
        },
    }
}

fn is_result(callee: Option<&Func>, place: usize, t: &Ty) -> bool
    ensures { result ≡ is_asked (result_type (option_copied callee.entry) place) t.now }
{
    match callee {
        None => true,
        Some(func) => is_at(&func.results, place, t),
    }
}

fn param_length(callee: Option<&Func>, own: usize) -> usize
    ensures { result ≡ param_length (option_copied callee.entry) own }
{
    match callee {
        None => own,
        Some(func) => func.params.len(),
    }
}

fn result_length(callee: Option<&Func>, own: usize) -> usize
    ensures { result ≡ result_length (option_copied callee.entry) own }
{
    match callee {
        None => own,
        Some(func) => func.results.len(),
    }
}

fn select_operand(op: &Op, place: usize, t: &Ty) -> bool
    ensures { result ≡ select_operand op.now place t.now }
{
    if place == 0 {
        is_truth(t)
    } else {
        is_first(&op.written, t)
    }
}

fn for_operand(op: &Op, place: usize, t: &Ty) -> bool
    ensures { result ≡ for_operand op.now place t.now }
{
    if place < 3 {
        is_index(t)
    } else {
        is_at(&op.types, place - 3, t)
    }
}

fn condition_operand(op: &Op, place: usize, t: &Ty) -> bool
    ensures { result ≡ condition_operand op.now place t.now }
{
    if place == 0 {
        is_truth(t)
    } else {
        is_at(&op.written, place - 1, t)
    }
}

/// Whether a type is `index`, or the first written memref has no dimension at this place.
fn indexes(op: &Op, place: usize, t: &Ty) -> bool
    ensures { result ≡ indexes op.now place t.now }
{
    first_rank(&op.written) <= place || is_index(t)
}

fn load_operand(op: &Op, place: usize, t: &Ty) -> bool
    ensures { result ≡ load_operand op.now place t.now }
{
    if place == 0 {
        is_first(&op.written, t)
    } else {
        indexes(op, place - 1, t)
    }
}

fn store_operand(op: &Op, place: usize, t: &Ty) -> bool
    ensures { result ≡ store_operand op.now place t.now }
{
    if place == 0 {
        is_first_element(&op.written, t)
    } else {
        load_operand(op, place - 1, t)
    }
}

fn dim_operand(op: &Op, place: usize, t: &Ty) -> bool
    ensures { result ≡ dim_operand op.now place t.now }
{
    if place == 0 {
        is_first(&op.written, t)
    } else {
        is_index(t)
    }
}

fn member_operand(op: &Op, place: usize, t: &Ty) -> bool
    ensures { result ≡ member_operand op.now place t.now }
{
    if place == 0 {
        is_first(&op.written, t)
    } else {
        is_group(t)
    }
}

/// The place of an operand in its group of a parallel loop's bounds.
fn bound_place(op: &Op, place: usize) -> usize
    ensures { result ≡ bound_place op.now place }
{
    let lowers = group(op, 0);
    let uppers = group(op, 1);
    if place < lowers {
        place
    } else if place < lowers + uppers {
        place - lowers
    } else {
        place - (lowers + uppers)
    }
}

fn task_operand(op: &Op, place: usize, t: &Ty) -> bool
    ensures { result ≡ task_operand op.now place t.now }
{
    let dependencies = group(op, 0);
    if place < dependencies {
        is_token(t)
    } else {
        is_at(&op.written, place - dependencies, t)
    }
}

/// Whether the operand at a place may have this type.
pub(crate) fn operand_fits(here: &Place, place: usize, t: &Ty) -> bool
    ensures { result ≡ operand_fits (form here.now.op.now) (place_at here.now) place t.now }
{
    let op = here.op;
    match form_of(op) {
        Form::Binary | Form::Compare | Form::Extend | Form::Truncate | Form::IndexCast => {
            is_first(&op.written, t)
        }
        Form::Dealloc | Form::Await => is_first(&op.written, t),
        Form::Select => select_operand(op, place, t),
        Form::Assert | Form::If => is_truth(t),
        Form::Call | Form::TryCall | Form::While => is_at(&op.written, place, t),
        Form::Return | Form::Yield | Form::TaskYield => is_at(&op.written, place, t),
        Form::Condition => condition_operand(op, place, t),
        Form::For => for_operand(op, place, t),
        Form::Parallel => dimensions(op) <= bound_place(op, place) || is_index(t),
        Form::Alloc => first_open_rank(&op.types) <= place || is_index(t),
        Form::Load => load_operand(op, place, t),
        Form::Store => store_operand(op, place, t),
        Form::Dim => dim_operand(op, place, t),
        Form::Execute => task_operand(op, place, t),
        Form::AwaitAll => is_group(t),
        Form::CreateGroup => is_index(t),
        Form::AddToGroup => member_operand(op, place, t),
        Form::Constant | Form::Reduce | Form::Other => true,
    }
}

/// Whether the written type at a place may be this one.
pub(crate) fn written_fits(here: &Place, place: usize, t: &Ty) -> bool
    requires { place < 2 ^ 64 - 1 }
    ensures { result ≡ written_fits (form here.now.op.now) (place_at here.now) place t.now }
{
    let op = here.op;
    match form_of(op) {
        Form::Binary | Form::Compare | Form::Select => is_number(t) && is_first(&op.written, t),
        Form::Extend => extends_to_first(t, &op.types),
        Form::Truncate => truncates_to_first(t, &op.types),
        Form::IndexCast => casts_index_to_first(t, &op.types),
        Form::Call | Form::TryCall => is_param(here.callee, place, t),
        Form::Return | Form::Yield | Form::Condition => {
            !is_in_place(here) || is_asked(end_type(&here.around, place), t)
        }
        Form::TaskYield => !is_in_place(here) || is_held(end_type(&here.around, place), t),
        Form::Dealloc | Form::Load | Form::Store | Form::Dim => is_memref(t),
        Form::Execute => is_value(t),
        Form::Await | Form::AddToGroup => is_awaitable(t),
        _ => true,
    }
}

/// Whether the result at a place may have this type.
pub(crate) fn result_fits(here: &Place, place: usize, t: &Ty) -> bool
    ensures { result ≡ result_fits (form here.now.op.now) (place_at here.now) place t.now }
{
    let op = here.op;
    match form_of(op) {
        Form::Binary | Form::Select => is_first(&op.written, t),
        Form::Compare | Form::TryCall => is_truth(t),
        Form::Constant => literal_fits(&op.attr, t),
        Form::Call => is_result(here.callee, place, t),
        Form::Alloc => is_memref(t),
        Form::Load => is_first_element(&op.written, t),
        Form::Dim | Form::AddToGroup => is_index(t),
        Form::Execute if place == 0 => is_token(t),
        Form::Execute => is_value(t),
        Form::Await => first_holds(&op.written, t),
        Form::CreateGroup => is_group(t),
        _ => true,
    }
}

/// Whether the parameter at a place of a region may have this type.
pub(crate) fn param_fits(op: &Op, region: usize, place: usize, t: &Ty) -> bool
    ensures { result ≡ param_fits (form op.now) op.now region place t.now }
{
    match form_of(op) {
        Form::For if place == 0 => is_index(t),
        Form::For => is_at(&op.types, place - 1, t),
        Form::While if region == 0 => is_at(&op.written, place, t),
        Form::While => is_at(&op.types, place, t),
        Form::Parallel => is_index(t),
        Form::Execute => is_held(op.written.get(place), t),
        _ => true,
    }
}

/// Whether a count is so much more than another.
fn exceeds_by(count: usize, base: usize, more: usize) -> bool
    ensures { result ≡ count == base + more }
{
    count >= more && count - more == base
}

fn is_triple(count: usize, base: usize) -> bool
    ensures { result ≡ count == 3 * base }
{
    count % 3 == 0 && count / 3 == base
}

/// Whether there are as many operands as an operation of this form asks, where its row has no count.
fn operands_given(op: &Op, count: usize) -> bool
    ensures { result ≡ count == operands_given (form op.now) op.now }
{
    match form_of(op) {
        Form::Call | Form::TryCall | Form::While => count == op.written.len(),
        Form::Return | Form::Yield | Form::TaskYield => count == op.written.len(),
        Form::Condition => exceeds_by(count, op.written.len(), 1),
        Form::For => exceeds_by(count, op.types.len(), 3),
        Form::Parallel => is_triple(count, dimensions(op)),
        Form::Alloc => count == first_open_rank(&op.types),
        Form::Load => exceeds_by(count, first_rank(&op.written), 1),
        Form::Store => exceeds_by(count, first_rank(&op.written), 2),
        Form::Execute => exceeds_by(count, op.written.len(), group(op, 0)),
        _ => count == 0,
    }
}

/// Whether there are as many operands as the operation asks.
pub(crate) fn operands_counted(op: &Op) -> bool
    ensures { result ≡ length (operands_of op.now) == operands_asked op.now }
{
    let count = op.operands.len();
    match row(op.kind).operands {
        Count::Exactly(asked) => count == asked as usize,
        Count::Any => operands_given(op, count),
    }
}

/// How many written types the end of a region has.
fn end_asks(here: &Place) -> usize
    ensures { result ≡ end_asks (place_at here.now) }
{
    if is_in_place(here) {
        end_length(&here.around)
    } else {
        here.op.written.len()
    }
}

/// How many written types there are.
pub(crate) fn written_asked(here: &Place) -> usize
    ensures { result ≡ written_asked (form here.now.op.now) (place_at here.now) }
{
    let op = here.op;
    match form_of(op) {
        Form::Binary | Form::Compare | Form::Select => 2,
        Form::Extend | Form::Truncate | Form::IndexCast | Form::Await | Form::AddToGroup => 1,
        Form::Dealloc | Form::Load | Form::Store | Form::Dim => 1,
        Form::Call | Form::TryCall => param_length(here.callee, op.written.len()),
        Form::Return | Form::Yield | Form::Condition | Form::TaskYield => end_asks(here),
        Form::While | Form::Execute => op.written.len(),
        _ => 0,
    }
}

/// How many types an operation of this form gives its results, where its row has no count.
fn types_given(here: &Place) -> usize
    ensures { result ≡ types_given (form here.now.op.now) (place_at here.now) }
{
    let op = here.op;
    match form_of(op) {
        Form::Call => result_length(here.callee, op.types.len()),
        Form::Execute => op.types.len().max(1),
        Form::Await => { if first_is_value(&op.written) { 1 } else { 0 } }
        _ => op.types.len(),
    }
}

/// How many types the operation gives its results.
pub(crate) fn types_asked(here: &Place) -> usize
    ensures { result ≡ types_asked (place_at here.now) }
{
    match row(here.op.kind).results {
        Count::Exactly(asked) => asked as usize,
        Count::Any => types_given(here),
    }
}

/// Whether a region has the number of parameters that the operation asks.
pub(crate) fn params_fit(op: &Op, region: usize, count: usize) -> bool
    ensures { result ≡ params_fit (form op.now) op.now region count }
{
    match form_of(op) {
        Form::For => exceeds_by(count, op.types.len(), 1),
        Form::While if region == 0 => count == op.written.len(),
        Form::While => count == op.types.len(),
        Form::Parallel => 1 <= count && count <= 4,
        Form::Execute => count == op.written.len(),
        _ => count == 0,
    }
}

fn are_groups(groups: &[u32], count: usize) -> bool
    ensures { result ≡ are_groups groups.now count }
{
    match groups {
        [a, b, c] => *a as usize == count && *b as usize == count && *c as usize == count,
        _ => false,
    }
}

fn are_task_groups(groups: &[u32], count: usize) -> bool
    ensures { result ≡ are_task_groups groups.now count }
{
    match groups {
        [_, b] => *b as usize == count,
        _ => false,
    }
}

/// Whether the operand groups have the lengths that the operation asks.
pub(crate) fn groups_fit(op: &Op) -> bool
    ensures { result ≡ groups_fit (form op.now) op.now }
{
    match form_of(op) {
        Form::Parallel => are_groups(op.groups.as_slice(), dimensions(op)),
        Form::Execute => are_task_groups(op.groups.as_slice(), op.written.len()),
        _ => true,
    }
}
