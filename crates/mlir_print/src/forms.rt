//! The forms of operations: what stands behind an operation's name, up to its regions.
ghost use Rattle.std.specs.Prelude.{◌≡◌, ◌<◌, ◌++◌, take, drop, slice_get, OnOk, codes};
ghost use Rattle.ir_forms.specs.Ops.{kind_of, operands_of, written_of, attr_of, regions_of};
ghost use Rattle.mlir_print.specs.Docs.{◌<>◌, bytes_of, comma, commas, more, shown, parens, brackets};
ghost use Rattle.mlir_print.specs.Types.{type_doc, types, result_types, results_if_any};
ghost use Rattle.mlir_print.specs.Tokens.{value, attr_doc};
ghost use Rattle.mlir_print.specs.Forms.{types_of, params_at, first_group, second_group, third_group, size_at, values, value_at, uses, typed, listed, typed_values, param, name_of_param, init, inits, more_inits, value_operand, value_operands, more_value_operands, compare_form, cast_form, constant_type, constant_form, call_form, for_form, while_form, parallel_form, condition_form, dependencies, carried_word, carried, for_bounds, parallel_bounds, begun, execute_form, load_form, store_form, form};

use crate::commas::{Print, push_list};
use crate::text::push_text;
use crate::tokens::{push_attr, push_symbol, push_value};
use crate::types::push_type;
use ir_forms::{Attr, Op, Region, Ty, ValueNo};
use lists::Items;
use op_table::Form;
use std::alloc::AllocError;

/// All but the first of these values.
pub(crate) fn after(list: &[ValueNo], count: usize) -> &[ValueNo]
    ensures { result.now ≡ drop count list.now }
{
    &list[count.min(list.len())..]
}

/// The first of these values, as many as this or all.
pub(crate) fn upto(list: &[ValueNo], count: usize) -> &[ValueNo]
    ensures { result.now ≡ take count list.now }
{
    &list[..count.min(list.len())]
}

pub(crate) fn push_value_at(
    text: &mut Vec<u8>,
    list: &Items<ValueNo>,
    at: usize,
) -> Result<(), AllocError>
    ensures { OnOk result (text.new.items ≡ text.old.items ++ bytes_of (value_at list.now at)) }
{
    match list.get(at) {
        None => Ok(()),
        Some(value) => push_value(text, *value),
    }
}

fn push_first_type(text: &mut Vec<u8>, types: &Items<Ty>) -> Result<(), AllocError>
    ensures { OnOk result (text.new.items ≡ text.old.items ++ bytes_of (shown type_doc (slice_get types.now 0))) }
{
    match types.get(0) {
        None => Ok(()),
        Some(ty) => push_type(text, ty),
    }
}

fn push_typed(text: &mut Vec<u8>, types: &Items<Ty>) -> Result<(), AllocError>
    ensures { OnOk result (text.new.items ≡ text.old.items ++ bytes_of (typed types.now)) }
{
    push_text(text, " : ")?;
    push_first_type(text, types)
}

fn push_types_in_parens(text: &mut Vec<u8>, types: &[Ty]) -> Result<(), AllocError>
    ensures { OnOk result (text.new.items ≡ text.old.items ++ bytes_of (parens (commas type_doc types.now))) }
{
    push_text(text, "(")?;
    push_list(text, types)?;
    push_text(text, ")")
}

fn push_listed(text: &mut Vec<u8>, types: &[Ty]) -> Result<(), AllocError>
    ensures { OnOk result (text.new.items ≡ text.old.items ++ bytes_of (listed types.now)) }
{
    push_text(text, " : ")?;
    push_types_in_parens(text, types)
}

/// Adds the types of results: one stands alone, none or several in parentheses.
///
/// # Errors
///
/// Where there is no memory.
pub fn push_result_types(text: &mut Vec<u8>, types: &[Ty]) -> Result<(), AllocError>
    ensures { OnOk result (text.new.items ≡ text.old.items ++ bytes_of (result_types types.now)) }
{
    match types {
        [only] => push_type(text, only),
        _ => push_types_in_parens(text, types),
    }
}

/// Adds the types of results behind an arrow, where there are any.
///
/// # Errors
///
/// Where there is no memory.
pub fn push_results_if_any(text: &mut Vec<u8>, types: &[Ty]) -> Result<(), AllocError>
    ensures { OnOk result (text.new.items ≡ text.old.items ++ bytes_of (results_if_any types.now)) }
{
    if types.is_empty() {
        return Ok(());
    }
    push_text(text, " -> ")?;
    push_result_types(text, types)
}

fn push_uses(text: &mut Vec<u8>, op: &Op) -> Result<(), AllocError>
    ensures { OnOk result (text.new.items ≡ text.old.items ++ bytes_of (uses op.now)) }
{
    push_text(text, " ")?;
    push_list(text, op.operands.as_slice())
}

fn push_typed_values(text: &mut Vec<u8>, list: &[ValueNo], types: &[Ty]) -> Result<(), AllocError>
    ensures { OnOk result (text.new.items ≡ text.old.items ++ bytes_of (typed_values list.now types.now)) }
{
    if list.is_empty() {
        return Ok(());
    }
    push_text(text, " ")?;
    push_list(text, list)?;
    push_text(text, " : ")?;
    push_list(text, types)
}

/// Adds values in parentheses.
pub(crate) fn push_values_in_parens(text: &mut Vec<u8>, list: &[ValueNo]) -> Result<(), AllocError>
    ensures { OnOk result (text.new.items ≡ text.old.items ++ bytes_of (parens (values list.now))) }
{
    push_text(text, "(")?;
    push_list(text, list)?;
    push_text(text, ")")
}

fn push_values_in_brackets(text: &mut Vec<u8>, list: &[ValueNo]) -> Result<(), AllocError>
    ensures { OnOk result (text.new.items ≡ text.old.items ++ bytes_of (brackets (values list.now))) }
{
    push_text(text, "[")?;
    push_list(text, list)?;
    push_text(text, "]")
}

// ---- parameters

/// The parameters of an operation's region, none where the region is missing.
pub(crate) fn params_at(op: &Op, region: usize) -> &[(ValueNo, Ty)]
    ensures { result.now ≡ params_at op.now region }
{
    match op.regions.get(region) {
        None => &[],
        Some(region) => region.params.as_slice(),
    }
}

fn push_more_names(text: &mut Vec<u8>, params: &[(ValueNo, Ty)]) -> Result<(), AllocError>
    ensures { OnOk result (text.new.items ≡ text.old.items ++ bytes_of (more name_of_param params.now)) }
{
    for param in params {
        push_text(text, ", ")?;
        push_value(text, param.0)?;
    }
    Ok(())
}

fn push_names(text: &mut Vec<u8>, params: &[(ValueNo, Ty)]) -> Result<(), AllocError>
    ensures { OnOk result (text.new.items ≡ text.old.items ++ bytes_of (commas name_of_param params.now)) }
{
    match params.split_first() {
        None => Ok(()),
        Some((first, rest)) => {
            push_value(text, first.0)?;
            push_more_names(text, rest)
        }
    }
}

/// Adds a parameter and the value that it begins with.
fn push_init(text: &mut Vec<u8>, param: &(ValueNo, Ty), value: ValueNo) -> Result<(), AllocError>
    ensures { OnOk result (text.new.items ≡ text.old.items ++ bytes_of (init param.now value)) }
{
    push_value(text, param.0)?;
    push_text(text, " = ")?;
    push_value(text, value)
}

fn push_more_inits(
    text: &mut Vec<u8>,
    params: &[(ValueNo, Ty)],
    list: &[ValueNo],
) -> Result<(), AllocError>
    ensures { OnOk result (text.new.items ≡ text.old.items ++ bytes_of (more_inits params.now list.now)) }
{
    for (place, value) in list.iter().enumerate() {
        let Some(param) = params.get(place) else {
            return Ok(());
        };
        push_text(text, ", ")?;
        push_init(text, param, *value)?;
    }
    Ok(())
}

fn push_inits(
    text: &mut Vec<u8>,
    params: &[(ValueNo, Ty)],
    list: &[ValueNo],
) -> Result<(), AllocError>
    ensures { OnOk result (text.new.items ≡ text.old.items ++ bytes_of (inits params.now list.now)) }
{
    match (params.split_first(), list.split_first()) {
        (Some((param, more_params)), Some((value, more_values))) => {
            push_init(text, param, *value)?;
            push_more_inits(text, more_params, more_values)
        }
        _ => Ok(()),
    }
}

/// Adds a value operand, the parameter that gets what it holds, and the value's type.
fn push_value_operand(
    text: &mut Vec<u8>,
    value: ValueNo,
    param: &(ValueNo, Ty),
    ty: &Ty,
) -> Result<(), AllocError>
    ensures { OnOk result (text.new.items ≡ text.old.items ++ bytes_of (value_operand value param.now ty.now)) }
{
    push_value(text, value)?;
    push_text(text, " as ")?;
    push_value(text, param.0)?;
    push_text(text, " : ")?;
    push_type(text, ty)
}

fn push_more_value_operands(
    text: &mut Vec<u8>,
    list: &[ValueNo],
    params: &[(ValueNo, Ty)],
    types: &[Ty],
) -> Result<(), AllocError>
    ensures { OnOk result (text.new.items ≡ text.old.items ++ bytes_of (more_value_operands list.now params.now types.now)) }
{
    for (place, value) in list.iter().enumerate() {
        let Some(param) = params.get(place) else {
            return Ok(());
        };
        let Some(ty) = types.get(place) else {
            return Ok(());
        };
        push_text(text, ", ")?;
        push_value_operand(text, *value, param, ty)?;
    }
    Ok(())
}

fn push_value_operands(
    text: &mut Vec<u8>,
    list: &[ValueNo],
    params: &[(ValueNo, Ty)],
    types: &[Ty],
) -> Result<(), AllocError>
    ensures { OnOk result (text.new.items ≡ text.old.items ++ bytes_of (value_operands list.now params.now types.now)) }
{
    match (
        list.split_first(),
        params.split_first(),
        types.split_first(),
    ) {
        (Some((value, more_values)), Some((param, more_params)), Some((ty, more_types))) => {
            push_text(text, " (")?;
            push_value_operand(text, *value, param, ty)?;
            push_more_value_operands(text, more_values, more_params, more_types)?;
            push_text(text, ")")
        }
        _ => Ok(()),
    }
}

// ---- the forms

fn push_binary(text: &mut Vec<u8>, op: &Op) -> Result<(), AllocError>
    ensures { OnOk result (text.new.items ≡ text.old.items ++ bytes_of (uses op.now <> typed (types_of op.now))) }
{
    push_uses(text, op)?;
    push_typed(text, &op.types)
}

fn push_unary(text: &mut Vec<u8>, op: &Op) -> Result<(), AllocError>
    ensures { OnOk result (text.new.items ≡ text.old.items ++ bytes_of (uses op.now <> typed (written_of op.now))) }
{
    push_uses(text, op)?;
    push_typed(text, &op.written)
}

fn push_compare(text: &mut Vec<u8>, op: &Op) -> Result<(), AllocError>
    ensures { OnOk result (text.new.items ≡ text.old.items ++ bytes_of (compare_form op.now)) }
{
    push_text(text, " ")?;
    push_attr(text, &op.attr)?;
    push_text(text, ", ")?;
    push_list(text, op.operands.as_slice())?;
    push_typed(text, &op.written)
}

fn push_cast(text: &mut Vec<u8>, op: &Op) -> Result<(), AllocError>
    ensures { OnOk result (text.new.items ≡ text.old.items ++ bytes_of (cast_form op.now)) }
{
    push_uses(text, op)?;
    push_typed(text, &op.written)?;
    push_text(text, " to ")?;
    push_first_type(text, &op.types)
}

fn push_constant_type(text: &mut Vec<u8>, attr: &Attr, types: &Items<Ty>) -> Result<(), AllocError>
    ensures { OnOk result (text.new.items ≡ text.old.items ++ bytes_of (constant_type attr.now types.now)) }
{
    match attr {
        Attr::Truth(_) => Ok(()),
        _ => push_typed(text, types),
    }
}

fn push_constant(text: &mut Vec<u8>, op: &Op) -> Result<(), AllocError>
    ensures { OnOk result (text.new.items ≡ text.old.items ++ bytes_of (constant_form op.now)) }
{
    push_text(text, " ")?;
    push_attr(text, &op.attr)?;
    push_constant_type(text, &op.attr, &op.types)
}

fn push_assert(text: &mut Vec<u8>, op: &Op) -> Result<(), AllocError>
    ensures { OnOk result (text.new.items ≡ text.old.items ++ bytes_of (uses op.now <> comma <> attr_doc (attr_of op.now))) }
{
    push_uses(text, op)?;
    push_text(text, ", ")?;
    push_attr(text, &op.attr)
}

fn push_call(text: &mut Vec<u8>, op: &Op) -> Result<(), AllocError>
    ensures { OnOk result (text.new.items ≡ text.old.items ++ bytes_of (call_form op.now)) }
{
    push_text(text, " ")?;
    push_attr(text, &op.attr)?;
    push_values_in_parens(text, op.operands.as_slice())?;
    push_listed(text, op.written.as_slice())?;
    push_text(text, " -> ")?;
    push_result_types(text, op.types.as_slice())
}

fn push_yielded(text: &mut Vec<u8>, op: &Op) -> Result<(), AllocError>
    ensures { OnOk result (text.new.items ≡ text.old.items ++ bytes_of (typed_values (operands_of op.now) (written_of op.now))) }
{
    push_typed_values(text, op.operands.as_slice(), op.written.as_slice())
}

fn push_alloc(text: &mut Vec<u8>, op: &Op) -> Result<(), AllocError>
    ensures { OnOk result (text.new.items ≡ text.old.items ++ bytes_of (parens (values (operands_of op.now)) <> typed (types_of op.now))) }
{
    push_values_in_parens(text, op.operands.as_slice())?;
    push_typed(text, &op.types)
}

fn push_load(text: &mut Vec<u8>, op: &Op) -> Result<(), AllocError>
    ensures { OnOk result (text.new.items ≡ text.old.items ++ bytes_of (load_form op.now)) }
{
    push_text(text, " ")?;
    push_value_at(text, &op.operands, 0)?;
    push_values_in_brackets(text, after(op.operands.as_slice(), 1))?;
    push_typed(text, &op.written)
}

fn push_store(text: &mut Vec<u8>, op: &Op) -> Result<(), AllocError>
    ensures { OnOk result (text.new.items ≡ text.old.items ++ bytes_of (store_form op.now)) }
{
    push_text(text, " ")?;
    push_list(text, upto(op.operands.as_slice(), 2))?;
    push_values_in_brackets(text, after(op.operands.as_slice(), 2))?;
    push_typed(text, &op.written)
}

fn push_condition(text: &mut Vec<u8>, op: &Op) -> Result<(), AllocError>
    ensures { OnOk result (text.new.items ≡ text.old.items ++ bytes_of (condition_form op.now)) }
{
    push_text(text, "(")?;
    push_value_at(text, &op.operands, 0)?;
    push_text(text, ")")?;
    push_typed_values(
        text,
        after(op.operands.as_slice(), 1),
        op.written.as_slice(),
    )
}

fn push_if(text: &mut Vec<u8>, op: &Op) -> Result<(), AllocError>
    ensures { OnOk result (text.new.items ≡ text.old.items ++ bytes_of (uses op.now <> results_if_any (types_of op.now))) }
{
    push_uses(text, op)?;
    push_results_if_any(text, op.types.as_slice())
}

/// How many operands are in a group.
fn size_at(op: &Op, group: usize) -> usize
    ensures { result ≡ size_at op.now group }
{
    match op.groups.get(group) {
        None => 0,
        Some(size) => *size as usize,
    }
}

fn first_group(op: &Op) -> &[ValueNo]
    ensures { result.now ≡ first_group op.now }
{
    upto(op.operands.as_slice(), size_at(op, 0))
}

fn second_group(op: &Op) -> &[ValueNo]
    ensures { result.now ≡ second_group op.now }
{
    upto(
        after(op.operands.as_slice(), size_at(op, 0)),
        size_at(op, 1),
    )
}

fn third_group(op: &Op) -> &[ValueNo]
    ensures { result.now ≡ third_group op.now }
{
    let rest = after(
        after(op.operands.as_slice(), size_at(op, 0)),
        size_at(op, 1),
    );
    upto(rest, size_at(op, 2))
}

fn push_dependencies(text: &mut Vec<u8>, list: &[ValueNo]) -> Result<(), AllocError>
    ensures { OnOk result (text.new.items ≡ text.old.items ++ bytes_of (dependencies list.now)) }
{
    if list.is_empty() {
        return Ok(());
    }
    push_text(text, " ")?;
    push_values_in_brackets(text, list)
}

fn push_execute(text: &mut Vec<u8>, op: &Op) -> Result<(), AllocError>
    ensures { OnOk result (text.new.items ≡ text.old.items ++ bytes_of (execute_form op.now)) }
{
    push_dependencies(text, first_group(op))?;
    push_value_operands(
        text,
        second_group(op),
        params_at(op, 0),
        op.written.as_slice(),
    )?;
    push_results_if_any(text, more_types(op))
}

/// The types of an operation's results but the first.
fn more_types(op: &Op) -> &[Ty]
    ensures { result.now ≡ drop 1 (types_of op.now) }
{
    match op.types.as_slice().split_first() {
        None => &[],
        Some((_, rest)) => rest,
    }
}

fn push_parallel_bounds(text: &mut Vec<u8>, op: &Op) -> Result<(), AllocError>
    ensures { OnOk result (text.new.items ≡ text.old.items ++ bytes_of (parallel_bounds op.now)) }
{
    push_values_in_parens(text, first_group(op))?;
    push_text(text, " to ")?;
    push_values_in_parens(text, second_group(op))?;
    push_text(text, " step ")?;
    push_values_in_parens(text, third_group(op))
}

fn push_parallel(text: &mut Vec<u8>, op: &Op) -> Result<(), AllocError>
    ensures { OnOk result (text.new.items ≡ text.old.items ++ bytes_of (parallel_form op.now)) }
{
    push_text(text, " (")?;
    push_names(text, params_at(op, 0))?;
    push_text(text, ") = ")?;
    push_parallel_bounds(text, op)
}

fn push_first_name(text: &mut Vec<u8>, params: &[(ValueNo, Ty)]) -> Result<(), AllocError>
    ensures { OnOk result (text.new.items ≡ text.old.items ++ bytes_of (shown name_of_param (slice_get params.now 0))) }
{
    match params.split_first() {
        None => Ok(()),
        Some((first, _)) => push_value(text, first.0),
    }
}

/// All but the first of these parameters.
fn more_params(params: &[(ValueNo, Ty)]) -> &[(ValueNo, Ty)]
    ensures { result.now ≡ drop 1 params.now }
{
    match params.split_first() {
        None => &[],
        Some((_, rest)) => rest,
    }
}

#[tactic(auto, unfolding(crate::specs::Forms::carried_word))]
fn push_carried_word(text: &mut Vec<u8>) -> Result<(), AllocError>
    ensures { OnOk result (text.new.items ≡ text.old.items ++ carried_word) }
{
    push_text(text, "iter_args")
}

fn push_inits_in_parens(
    text: &mut Vec<u8>,
    params: &[(ValueNo, Ty)],
    list: &[ValueNo],
) -> Result<(), AllocError>
    ensures { OnOk result (text.new.items ≡ text.old.items ++ bytes_of (parens (inits params.now list.now))) }
{
    push_text(text, "(")?;
    push_inits(text, params, list)?;
    push_text(text, ")")
}

/// Adds what a loop carries, where it carries something.
fn push_carried(
    text: &mut Vec<u8>,
    types: &[Ty],
    params: &[(ValueNo, Ty)],
    list: &[ValueNo],
) -> Result<(), AllocError>
    ensures { OnOk result (text.new.items ≡ text.old.items ++ bytes_of (carried types.now params.now list.now)) }
{
    if types.is_empty() {
        return Ok(());
    }
    push_text(text, " ")?;
    push_carried_word(text)?;
    push_inits_in_parens(text, params, list)?;
    push_text(text, " -> ")?;
    push_types_in_parens(text, types)
}

fn push_for_bounds(text: &mut Vec<u8>, list: &Items<ValueNo>) -> Result<(), AllocError>
    ensures { OnOk result (text.new.items ≡ text.old.items ++ bytes_of (for_bounds list.now)) }
{
    push_value_at(text, list, 0)?;
    push_text(text, " to ")?;
    push_value_at(text, list, 1)?;
    push_text(text, " step ")?;
    push_value_at(text, list, 2)
}

fn push_for(text: &mut Vec<u8>, op: &Op) -> Result<(), AllocError>
    ensures { OnOk result (text.new.items ≡ text.old.items ++ bytes_of (for_form op.now)) }
{
    let params = params_at(op, 0);
    push_text(text, " ")?;
    push_first_name(text, params)?;
    push_text(text, " = ")?;
    push_for_bounds(text, &op.operands)?;
    let inits = after(op.operands.as_slice(), 3);
    push_carried(text, op.types.as_slice(), more_params(params), inits)
}

/// Adds the parameters of the first region with the values that they begin with, where there are any.
fn push_begun(
    text: &mut Vec<u8>,
    params: &[(ValueNo, Ty)],
    list: &[ValueNo],
) -> Result<(), AllocError>
    ensures { OnOk result (text.new.items ≡ text.old.items ++ bytes_of (begun params.now list.now)) }
{
    if list.is_empty() {
        return Ok(());
    }
    push_text(text, " ")?;
    push_inits_in_parens(text, params, list)
}

fn push_while(text: &mut Vec<u8>, op: &Op) -> Result<(), AllocError>
    ensures { OnOk result (text.new.items ≡ text.old.items ++ bytes_of (while_form op.now)) }
{
    push_begun(text, params_at(op, 0), op.operands.as_slice())?;
    push_listed(text, op.written.as_slice())?;
    push_text(text, " -> ")?;
    push_result_types(text, op.types.as_slice())
}

/// Adds what stands behind the name of an operation, up to its regions.
pub(crate) fn push_form(text: &mut Vec<u8>, op: &Op) -> Result<(), AllocError>
    ensures { OnOk result (text.new.items ≡ text.old.items ++ bytes_of (form (kind_of op.now) op.now)) }
{
    match op.kind.form() {
        Form::Binary | Form::Select | Form::CreateGroup => push_binary(text, op),
        Form::Compare => push_compare(text, op),
        Form::Constant => push_constant(text, op),
        Form::Extend | Form::Truncate | Form::IndexCast => push_cast(text, op),
        Form::Assert => push_assert(text, op),
        Form::Call | Form::TryCall => push_call(text, op),
        Form::Return | Form::Yield | Form::TaskYield => push_yielded(text, op),
        Form::For => push_for(text, op),
        Form::If => push_if(text, op),
        Form::While => push_while(text, op),
        Form::Condition => push_condition(text, op),
        Form::Parallel => push_parallel(text, op),
        Form::Alloc => push_alloc(text, op),
        Form::Load => push_load(text, op),
        Form::Store => push_store(text, op),
        Form::Dealloc | Form::Dim | Form::Await | Form::AddToGroup => push_unary(text, op),
        Form::AwaitAll => push_uses(text, op),
        Form::Execute => push_execute(text, op),
        Form::Reduce | Form::Other => Ok(()),
    }
}
