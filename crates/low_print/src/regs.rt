//! Registers and their types.
ghost use Rattle.std.specs.Prelude.{◌≡◌, ◌++◌, OnOk};
ghost use Rattle.mlir_print.specs.Docs.{bytes_of, more};
ghost use Rattle.low_print.specs.Forms.{reg_doc, regs_doc, reg_ty, reg_types, ty_at, reg_result_types};

use low_forms::{LowFunc, Reg};
use mlir_print::parts::{push_number, push_text, push_type};
use std::alloc::AllocError;

/// Adds `%` and the register's number.
pub(crate) fn push_reg(text: &mut Vec<u8>, reg: Reg) -> Result<(), AllocError>
    ensures { OnOk result (text.new.items ≡ text.old.items ++ bytes_of (reg_doc reg)) }
{
    text.push(b'%')?;
    push_number(text, u64::from(reg.0))
}

fn push_more_regs(text: &mut Vec<u8>, regs: &[Reg]) -> Result<(), AllocError>
    ensures { OnOk result (text.new.items ≡ text.old.items ++ bytes_of (more reg_doc regs.now)) }
{
    for reg in regs {
        push_text(text, ", ")?;
        push_reg(text, *reg)?;
    }
    Ok(())
}

/// Adds registers, with commas between them.
pub(crate) fn push_regs(text: &mut Vec<u8>, regs: &[Reg]) -> Result<(), AllocError>
    ensures { OnOk result (text.new.items ≡ text.old.items ++ bytes_of (regs_doc regs.now)) }
{
    match regs.split_first() {
        None => Ok(()),
        Some((first, rest)) => {
            push_reg(text, *first)?;
            push_more_regs(text, rest)
        }
    }
}

/// Adds the type of a register; nothing where it isn't there.
pub(crate) fn push_reg_type(text: &mut Vec<u8>, func: &LowFunc, reg: Reg) -> Result<(), AllocError>
    ensures { OnOk result (text.new.items ≡ text.old.items ++ bytes_of (reg_ty func.now reg)) }
{
    match func.regs.get(reg.0 as usize) {
        None => Ok(()),
        Some(ty) => push_type(text, ty),
    }
}

/// Adds the type of the register at a place.
pub(crate) fn push_type_at(
    text: &mut Vec<u8>,
    func: &LowFunc,
    regs: &[Reg],
    place: usize,
) -> Result<(), AllocError>
    ensures { OnOk result (text.new.items ≡ text.old.items ++ bytes_of (ty_at func.now regs.now place)) }
{
    match regs.get(place) {
        None => Ok(()),
        Some(reg) => push_reg_type(text, func, *reg),
    }
}

fn push_more_types(text: &mut Vec<u8>, func: &LowFunc, regs: &[Reg]) -> Result<(), AllocError>
    ensures { OnOk result (text.new.items ≡ text.old.items ++ bytes_of (more (reg_ty func.now) regs.now)) }
{
    for reg in regs {
        push_text(text, ", ")?;
        push_reg_type(text, func, *reg)?;
    }
    Ok(())
}

/// Adds the types of registers, with commas between them.
pub(crate) fn push_types(text: &mut Vec<u8>, func: &LowFunc, regs: &[Reg]) -> Result<(), AllocError>
    ensures { OnOk result (text.new.items ≡ text.old.items ++ bytes_of (reg_types func.now regs.now)) }
{
    match regs.split_first() {
        None => Ok(()),
        Some((first, rest)) => {
            push_reg_type(text, func, *first)?;
            push_more_types(text, func, rest)
        }
    }
}

/// Adds the types of results: one stands alone, none or several in parentheses.
pub(crate) fn push_types_of_results(
    text: &mut Vec<u8>,
    func: &LowFunc,
    regs: &[Reg],
) -> Result<(), AllocError>
    ensures { OnOk result (text.new.items ≡ text.old.items ++ bytes_of (reg_result_types func.now regs.now)) }
{
    match regs {
        [only] => push_reg_type(text, func, *only),
        _ => {
            push_text(text, "(")?;
            push_types(text, func, regs)?;
            push_text(text, ")")
        }
    }
}
