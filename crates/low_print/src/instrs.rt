//! Instructions and terminators.
ghost use Rattle.std.specs.Prelude.{◌≡◌, ◌++◌, OnOk};
ghost use Rattle.mlir_print.specs.Docs.{bytes_of, more, commas};
ghost use Rattle.low_print.specs.Forms.{block_name, target_args, target_doc, before_targets, targets_doc};
ghost use Rattle.low_print.specs.Printed.{results_doc, kind_doc, instr_doc, term_doc, instr_lines};

use crate::form::form_of;
use crate::forms::push_form;
use crate::regs::{push_regs, push_types};
use low_forms::{Instr, LowFunc, LowKind, LowModule, OpKind, Reg, Target, Term};
use mlir_print::parts::{push_number, push_text};
use op_table::row;
use std::alloc::AllocError;

fn push_results(text: &mut Vec<u8>, regs: &[Reg]) -> Result<(), AllocError>
    ensures { OnOk result (text.new.items ≡ text.old.items ++ bytes_of (results_doc regs.now)) }
{
    if regs.is_empty() {
        return Ok(());
    }
    push_regs(text, regs)?;
    push_text(text, " = ")
}

fn push_kind(text: &mut Vec<u8>, kind: LowKind) -> Result<(), AllocError>
    ensures { OnOk result (text.new.items ≡ text.old.items ++ bytes_of (kind_doc kind)) }
{
    match kind {
        LowKind::Row(kind) => push_text(text, row(kind).name),
        LowKind::Launch | LowKind::Await => Ok(()),
    }
}

fn push_instr(
    text: &mut Vec<u8>,
    code: &LowModule,
    func: &LowFunc,
    instr: &Instr,
) -> Result<(), AllocError>
    ensures { OnOk result (text.new.items ≡ text.old.items ++ bytes_of (instr_doc code.now func.now instr.now)) }
{
    push_results(text, instr.results.as_slice())?;
    push_kind(text, instr.kind)?;
    push_form(text, code, func, form_of(instr.kind), instr)
}

/// Adds instructions, each on a line of its own.
pub(crate) fn push_instrs(
    text: &mut Vec<u8>,
    code: &LowModule,
    func: &LowFunc,
    instrs: &[Instr],
) -> Result<(), AllocError>
    ensures { OnOk result (text.new.items ≡ text.old.items ++ bytes_of (instr_lines code.now func.now instrs.now)) }
{
    for instr in instrs {
        push_text(text, "\n  ")?;
        push_instr(text, code, func, instr)?;
    }
    Ok(())
}

/// Adds the name of a block.
pub(crate) fn push_block_name(text: &mut Vec<u8>, number: u64) -> Result<(), AllocError>
    ensures { OnOk result (text.new.items ≡ text.old.items ++ bytes_of (block_name number)) }
{
    push_text(text, "^bb")?;
    push_number(text, number)
}

fn push_target_args(text: &mut Vec<u8>, func: &LowFunc, args: &[Reg]) -> Result<(), AllocError>
    ensures { OnOk result (text.new.items ≡ text.old.items ++ bytes_of (target_args func.now args.now)) }
{
    if args.is_empty() {
        return Ok(());
    }
    push_text(text, "(")?;
    push_regs(text, args)?;
    push_text(text, " : ")?;
    push_types(text, func, args)?;
    push_text(text, ")")
}

fn push_target(text: &mut Vec<u8>, func: &LowFunc, target: &Target) -> Result<(), AllocError>
    ensures { OnOk result (text.new.items ≡ text.old.items ++ bytes_of (target_doc func.now target.now)) }
{
    push_block_name(text, u64::from(target.block.0))?;
    push_target_args(text, func, target.args.as_slice())
}

fn push_more_targets(
    text: &mut Vec<u8>,
    func: &LowFunc,
    targets: &[Target],
) -> Result<(), AllocError>
    ensures { OnOk result (text.new.items ≡ text.old.items ++ bytes_of (more (target_doc func.now) targets.now)) }
{
    for target in targets {
        push_text(text, ", ")?;
        push_target(text, func, target)?;
    }
    Ok(())
}

/// What stands before the targets of a terminator.
fn before_targets(kind: LowKind) -> &'static str
    ensures { result.now ≡ bytes_of (before_targets kind) }
{
    match kind {
        LowKind::Row(OpKind::CfBr) => " ",
        _ => ", ",
    }
}

fn push_targets(
    text: &mut Vec<u8>,
    kind: LowKind,
    func: &LowFunc,
    targets: &[Target],
) -> Result<(), AllocError>
    ensures { OnOk result (text.new.items ≡ text.old.items ++ bytes_of (targets_doc kind func.now targets.now)) }
{
    match targets.split_first() {
        None => Ok(()),
        Some((first, rest)) => {
            push_text(text, before_targets(kind))?;
            push_target(text, func, first)?;
            push_more_targets(text, func, rest)
        }
    }
}

/// Adds the end of a block.
pub(crate) fn push_term(
    text: &mut Vec<u8>,
    code: &LowModule,
    func: &LowFunc,
    term: &Term,
) -> Result<(), AllocError>
    ensures { OnOk result (text.new.items ≡ text.old.items ++ bytes_of (term_doc code.now func.now term.now)) }
{
    push_instr(text, code, func, &term.instr)?;
    push_targets(text, term.instr.kind, func, term.targets.as_slice())
}
