//! What stands behind an instruction's name, up to its targets.
ghost use Rattle.std.specs.Prelude.{◌≡◌, ◌+◌, ◌++◌, take, drop, OnOk};
ghost use Rattle.std.specs.Option.{option_copied};
ghost use Rattle.low_forms.specs.Registers.{callee};
ghost use Rattle.mlir_print.specs.Docs.{◌<>◌, bytes_of, colon, shown};
ghost use Rattle.low_print.specs.Forms.{ty_at, uses, typed, carried, constant_type, count_dict, count, func_name, func_results, call, typed_uses, cell, constant, compare, cast, sizes, form_doc};

use crate::form::{LowForm, Typed};
use crate::regs::{push_regs, push_type_at, push_types, push_types_of_results};
use ir_forms::Attr;
use low_forms::{Instr, LowAttr, LowFunc, LowModule, Reg};
use mlir_print::parts::{push_attr, push_number, push_result_types, push_symbol, push_text};
use std::alloc::AllocError;

fn push_uses(text: &mut Vec<u8>, regs: &[Reg]) -> Result<(), AllocError>
    ensures { OnOk result (text.new.items ≡ text.old.items ++ bytes_of (uses regs.now)) }
{
    if regs.is_empty() {
        return Ok(());
    }
    push_text(text, " ")?;
    push_regs(text, regs)
}

fn push_colon_type(
    text: &mut Vec<u8>,
    func: &LowFunc,
    regs: &[Reg],
    place: usize,
) -> Result<(), AllocError>
    ensures { OnOk result (text.new.items ≡ text.old.items ++ bytes_of (colon <> ty_at func.now regs.now place)) }
{
    push_text(text, " : ")?;
    push_type_at(text, func, regs, place)
}

fn push_typed(
    text: &mut Vec<u8>,
    func: &LowFunc,
    by: Typed,
    instr: &Instr,
) -> Result<(), AllocError>
    ensures { OnOk result (text.new.items ≡ text.old.items ++ bytes_of (typed func.now by instr.now)) }
{
    match by {
        Typed::Nothing => Ok(()),
        Typed::Operand(place) => {
            push_colon_type(text, func, instr.operands.as_slice(), place as usize)
        }
        Typed::Result => push_colon_type(text, func, instr.results.as_slice(), 0),
    }
}

/// Adds a literal as it is written, a truth or a predicate.
fn push_carried(text: &mut Vec<u8>, attr: LowAttr) -> Result<(), AllocError>
    ensures { OnOk result (text.new.items ≡ text.old.items ++ bytes_of (carried attr)) }
{
    match attr {
        LowAttr::Literal {
            negative,
            magnitude,
        } => push_attr(
            text,
            &Attr::Literal {
                negative,
                magnitude,
            },
        ),
        LowAttr::Truth(truth) => push_attr(text, &Attr::Truth(truth)),
        LowAttr::Pred(pred) => push_attr(text, &Attr::Pred(pred)),
        _ => Ok(()),
    }
}

fn push_constant_type(
    text: &mut Vec<u8>,
    attr: LowAttr,
    func: &LowFunc,
    results: &[Reg],
) -> Result<(), AllocError>
    ensures { OnOk result (text.new.items ≡ text.old.items ++ bytes_of (constant_type attr func.now results.now)) }
{
    match attr {
        LowAttr::Truth(_) => Ok(()),
        _ => push_colon_type(text, func, results, 0),
    }
}

fn push_count_dict(text: &mut Vec<u8>, n: u64) -> Result<(), AllocError>
    ensures { OnOk result (text.new.items ≡ text.old.items ++ bytes_of (count_dict n)) }
{
    push_text(text, " {count = ")?;
    push_number(text, n)?;
    push_text(text, " : i64}")
}

/// Adds how many references are added or dropped, where the instruction says it.
fn push_count(text: &mut Vec<u8>, attr: LowAttr) -> Result<(), AllocError>
    ensures { OnOk result (text.new.items ≡ text.old.items ++ bytes_of (count attr)) }
{
    match attr {
        LowAttr::Count(n) => push_count_dict(text, n),
        _ => Ok(()),
    }
}

fn callee(code: &LowModule, attr: LowAttr) -> Option<&LowFunc>
    ensures { option_copied result ≡ callee code.now attr }
{
    match attr {
        LowAttr::Callee(number) => code.funcs.get(number.0 as usize),
        _ => None,
    }
}

fn push_func_name(text: &mut Vec<u8>, func: Option<&LowFunc>) -> Result<(), AllocError>
    ensures { OnOk result (text.new.items ≡ text.old.items ++ bytes_of (shown func_name (option_copied func.entry))) }
{
    match func {
        None => Ok(()),
        Some(func) => push_symbol(text, func.name.as_slice()),
    }
}

fn push_func_results(text: &mut Vec<u8>, func: Option<&LowFunc>) -> Result<(), AllocError>
    ensures { OnOk result (text.new.items ≡ text.old.items ++ bytes_of (shown func_results (option_copied func.entry))) }
{
    match func {
        None => Ok(()),
        Some(func) => push_result_types(text, func.results.as_slice()),
    }
}

/// Adds the function that is called, the arguments and their types.
fn push_call(
    text: &mut Vec<u8>,
    code: &LowModule,
    func: &LowFunc,
    instr: &Instr,
) -> Result<(), AllocError>
    ensures { OnOk result (text.new.items ≡ text.old.items ++ bytes_of (call code.now func.now instr.now)) }
{
    push_text(text, " ")?;
    push_func_name(text, callee(code, instr.attr))?;
    push_text(text, "(")?;
    push_regs(text, instr.operands.as_slice())?;
    push_text(text, ") : (")?;
    push_types(text, func, instr.operands.as_slice())?;
    push_text(text, ") -> ")
}

/// Adds registers and their types, where there are any.
fn push_typed_uses(text: &mut Vec<u8>, func: &LowFunc, regs: &[Reg]) -> Result<(), AllocError>
    ensures { OnOk result (text.new.items ≡ text.old.items ++ bytes_of (typed_uses func.now regs.now)) }
{
    if regs.is_empty() {
        return Ok(());
    }
    push_text(text, " ")?;
    push_regs(text, regs)?;
    push_text(text, " : ")?;
    push_types(text, func, regs)
}

/// The first of these registers, as many as this or all.
fn upto(regs: &[Reg], count: usize) -> &[Reg]
    ensures { result.now ≡ take count regs.now }
{
    &regs[..count.min(regs.len())]
}

/// All but the first of these registers.
fn after(regs: &[Reg], count: usize) -> &[Reg]
    ensures { result.now ≡ drop count regs.now }
{
    &regs[count.min(regs.len())..]
}

/// Adds the operands up to the memref at a place, the indices behind it, and the memref's type.
fn push_cell(text: &mut Vec<u8>, func: &LowFunc, place: u8, instr: &Instr) -> Result<(), AllocError>
    ensures { OnOk result (text.new.items ≡ text.old.items ++ bytes_of (cell func.now place instr.now)) }
{
    let operands = instr.operands.as_slice();
    let place = place as usize;
    push_text(text, " ")?;
    push_regs(text, upto(operands, place + 1))?;
    push_text(text, "[")?;
    push_regs(text, after(operands, place + 1))?;
    push_text(text, "]")?;
    push_colon_type(text, func, operands, place)
}

fn push_constant(text: &mut Vec<u8>, func: &LowFunc, instr: &Instr) -> Result<(), AllocError>
    ensures { OnOk result (text.new.items ≡ text.old.items ++ bytes_of (constant func.now instr.now)) }
{
    push_text(text, " ")?;
    push_carried(text, instr.attr)?;
    push_constant_type(text, instr.attr, func, instr.results.as_slice())
}

fn push_compare(text: &mut Vec<u8>, func: &LowFunc, instr: &Instr) -> Result<(), AllocError>
    ensures { OnOk result (text.new.items ≡ text.old.items ++ bytes_of (compare func.now instr.now)) }
{
    push_text(text, " ")?;
    push_carried(text, instr.attr)?;
    push_text(text, ", ")?;
    push_regs(text, instr.operands.as_slice())?;
    push_colon_type(text, func, instr.operands.as_slice(), 0)
}

fn push_cast(text: &mut Vec<u8>, func: &LowFunc, instr: &Instr) -> Result<(), AllocError>
    ensures { OnOk result (text.new.items ≡ text.old.items ++ bytes_of (cast func.now instr.now)) }
{
    push_uses(text, instr.operands.as_slice())?;
    push_colon_type(text, func, instr.operands.as_slice(), 0)?;
    push_text(text, " to ")?;
    push_type_at(text, func, instr.results.as_slice(), 0)
}

fn push_sizes(text: &mut Vec<u8>, func: &LowFunc, instr: &Instr) -> Result<(), AllocError>
    ensures { OnOk result (text.new.items ≡ text.old.items ++ bytes_of (sizes func.now instr.now)) }
{
    push_text(text, "(")?;
    push_regs(text, instr.operands.as_slice())?;
    push_text(text, ")")?;
    push_colon_type(text, func, instr.results.as_slice(), 0)
}

/// Adds what stands behind the name of an instruction of this form.
pub(crate) fn push_form(
    text: &mut Vec<u8>,
    code: &LowModule,
    func: &LowFunc,
    form: LowForm,
    instr: &Instr,
) -> Result<(), AllocError>
    ensures { OnOk result (text.new.items ≡ text.old.items ++ bytes_of (form_doc code.now func.now form instr.now)) }
{
    match form {
        LowForm::Constant => push_constant(text, func, instr),
        LowForm::Compare => push_compare(text, func, instr),
        LowForm::Cast => push_cast(text, func, instr),
        LowForm::Alloc => push_sizes(text, func, instr),
        LowForm::Cell(place) => push_cell(text, func, place, instr),
        LowForm::Launch => {
            push_call(text, code, func, instr)?;
            push_types_of_results(text, func, instr.results.as_slice())
        }
        LowForm::Call => {
            push_call(text, code, func, instr)?;
            push_func_results(text, callee(code, instr.attr))
        }
        LowForm::Return => push_typed_uses(text, func, instr.operands.as_slice()),
        LowForm::Uses(by) => {
            push_uses(text, instr.operands.as_slice())?;
            push_count(text, instr.attr)?;
            push_typed(text, func, by, instr)
        }
    }
}
