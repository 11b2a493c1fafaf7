//! The types of registers.
ghost use Rattle.std.specs.Prelude.{◌≡◌, slice_get};
ghost use Rattle.std.specs.Option.{option_copied};
ghost use Rattle.low_forms.specs.Registers.{reg_type, type_at, on_type, on_types, like_types, have_types, hold_types};
ghost use Rattle.ir_verify.specs.Types.{same_type, holds};

use crate::code::{LowFunc, Reg};
use ir_forms::Ty;
use ir_verify::types::{holds, same_type};
use lists::Items;

/// The type of a register, if it is there.
pub(crate) fn reg_type(func: &LowFunc, reg: Reg) -> Option<&Ty>
    ensures { option_copied result ≡ reg_type func.now reg }
{
    func.regs.get(reg.0 as usize)
}

pub(crate) fn reg_at(regs: &[Reg], place: usize) -> Option<Reg>
    ensures { result ≡ slice_get regs.now place }
{
    regs.get(place).copied()
}

/// The type of the register at a place of a list.
pub(crate) fn type_at<'a>(func: &'a LowFunc, regs: &[Reg], place: usize) -> Option<&'a Ty>
    ensures { option_copied result ≡ type_at func.now regs.now place }
{
    match reg_at(regs, place) {
        Some(reg) => reg_type(func, reg),
        None => None,
    }
}

fn is_same(t: Option<&Ty>, u: Option<&Ty>) -> bool
    ensures { result ≡ on_types same_type (option_copied t.entry) (option_copied u.entry) }
{
    match t {
        None => false,
        Some(t) => match u {
            None => false,
            Some(u) => same_type(t, u),
        },
    }
}

/// Whether registers of a function have the types of registers of another, one by one.
pub(crate) fn like_types(func: &LowFunc, regs: &[Reg], other: &LowFunc, others: &[Reg]) -> bool
    ensures { result ≡ like_types func.now regs.now other.now others.now }
{
    if regs.len() != others.len() {
        return false;
    }
    for place in 0..regs.len() {
        if !is_same(type_at(other, others, place), type_at(func, regs, place)) {
            return false;
        }
    }
    true
}

fn holds_this(value: Option<&Ty>, t: Option<&Ty>) -> bool
    ensures { result ≡ on_types holds (option_copied value.entry) (option_copied t.entry) }
{
    match value {
        None => false,
        Some(value) => match t {
            None => false,
            Some(t) => holds(value, t),
        },
    }
}

/// Whether registers are values that hold these types.
pub(crate) fn hold_types(func: &LowFunc, regs: &[Reg], types: &Items<Ty>) -> bool
    ensures { result ≡ hold_types func.now regs.now types.now }
{
    let all = types.as_slice();
    if regs.len() != all.len() {
        return false;
    }
    for place in 0..regs.len() {
        if !holds_this(type_at(func, regs, place), types.get(place)) {
            return false;
        }
    }
    true
}

/// Whether registers have these types.
pub(crate) fn have_types(func: &LowFunc, regs: &[Reg], types: &Items<Ty>) -> bool
    ensures { result ≡ have_types func.now regs.now types.now }
{
    let all = types.as_slice();
    if regs.len() != all.len() {
        return false;
    }
    for place in 0..regs.len() {
        if !is_same(types.get(place), type_at(func, regs, place)) {
            return false;
        }
    }
    true
}
