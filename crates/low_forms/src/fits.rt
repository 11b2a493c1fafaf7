//! Whether instructions and terminators fit their rows of the table.
ghost use Rattle.std.specs.Prelude.{◌≡◌, ◌==◌, [], ◌∷◌, length, map, slice_get};
ghost use Rattle.std.specs.Option.{option_copied};
ghost use Rattle.low_forms.specs.Registers.{every, reg_type, type_at, on_type, on_types, like_types, have_types, hold_types, callee, block_at};
ghost use Rattle.ir_verify.specs.Types.{is_index, is_token};
ghost use Rattle.low_forms.specs.Rows.{row_of};
ghost use Rattle.low_forms.specs.Fits.{is_absent, is_code, is_coro_id, is_coro_handle, is_coro_state, literal_of, beside, slot_fits, reg_fits, fit_params, fit_results, fit_launched, rank_of, open_rank_of, are_indices, rest_fits, fill, operands_fit, result_fits, results_fit, is_coroutine, is_plain, attr_fits, instr_fits, is_instruction, inner_fits};

use crate::code::{Instr, LowAttr, LowFunc, LowModule, Reg};
use crate::row::{AttrSlot, LowRow, Rest, Results, Slot, Targets};
use crate::table::low_row;
use crate::types::{have_types, hold_types, like_types, reg_type, type_at};
use ir_forms::{Attr, Ty, Width};
use ir_verify::types::{
    casts_index, extends, holds, is_awaitable, is_element, is_group, is_index, is_memref,
    is_number, is_token, is_truth, is_value, literal_fits, open_rank, rank, same_type, truncates,
};

fn is_absent(slot: Slot) -> bool
    ensures { result ≡ is_absent slot }
{
    matches!(slot, Slot::Absent)
}

pub(crate) fn is_code(t: &Ty) -> bool
    ensures { result ≡ is_code t.now }
{
    matches!(t, Ty::Int(Width::W64))
}

fn is_coro_id(t: &Ty) -> bool
    ensures { result ≡ is_coro_id t.now }
{
    matches!(t, Ty::CoroId)
}

fn is_coro_handle(t: &Ty) -> bool
    ensures { result ≡ is_coro_handle t.now }
{
    matches!(t, Ty::CoroHandle)
}

fn is_coro_state(t: &Ty) -> bool
    ensures { result ≡ is_coro_state t.now }
{
    matches!(t, Ty::CoroState)
}

fn literal_of(attr: LowAttr) -> Attr
    ensures { result ≡ literal_of attr }
{
    match attr {
        LowAttr::Literal {
            negative,
            magnitude,
        } => Attr::Literal {
            negative,
            magnitude,
        },
        LowAttr::Truth(bit) => Attr::Truth(bit),
        _ => Attr::None,
    }
}

/// Whether a type may stand in a slot that asks for it beside another one.
fn fits_beside(slot: Slot, other: Option<&Ty>, t: &Ty) -> bool
    ensures { result ≡ beside slot (option_copied other.entry) t.now }
{
    match other {
        None => false,
        Some(other) => match slot {
            Slot::Like(_) => same_type(other, t),
            Slot::CellOf(_) => is_element(other, t),
            Slot::HeldBy(_) => holds(other, t),
            Slot::Wider => extends(other, t),
            Slot::Narrower => truncates(other, t),
            Slot::Recast => casts_index(other, t),
            _ => false,
        },
    }
}

/// Whether a type may stand in a slot of an instruction with these operands that carries this.
fn slot_fits(slot: Slot, func: &LowFunc, operands: &[Reg], attr: LowAttr, t: &Ty) -> bool
    ensures { result ≡ slot_fits slot func.now operands.now attr t.now }
{
    match slot {
        Slot::Absent => false,
        Slot::Number => is_number(t),
        Slot::Truth => is_truth(t),
        Slot::Index => is_index(t),
        Slot::Code => is_code(t),
        Slot::Memref => is_memref(t),
        Slot::Element => is_awaitable(t),
        Slot::Value => is_value(t),
        Slot::Group => is_group(t),
        Slot::Object => is_awaitable(t) || is_group(t),
        Slot::CoroId => is_coro_id(t),
        Slot::CoroHandle => is_coro_handle(t),
        Slot::CoroState => is_coro_state(t),
        Slot::Like(k) | Slot::CellOf(k) | Slot::HeldBy(k) => {
            fits_beside(slot, type_at(func, operands, k as usize), t)
        }
        Slot::Wider | Slot::Narrower | Slot::Recast => {
            fits_beside(slot, type_at(func, operands, 0), t)
        }
        Slot::OfLiteral => literal_fits(&literal_of(attr), t),
    }
}

fn reg_fits(slot: Slot, func: &LowFunc, instr: &Instr, reg: Reg) -> bool
    ensures { result ≡ reg_fits slot func.now instr.now reg }
{
    match reg_type(func, reg) {
        Some(t) => slot_fits(slot, func, instr.operands.as_slice(), instr.attr, t),
        None => false,
    }
}

/// The function that an instruction names.
pub(crate) fn callee(code: &LowModule, attr: LowAttr) -> Option<&LowFunc>
    ensures { option_copied result ≡ callee code.now attr }
{
    match attr {
        LowAttr::Callee(func) => code.funcs.get(func.0 as usize),
        _ => None,
    }
}

fn fit_params(callee: Option<&LowFunc>, func: &LowFunc, regs: &[Reg]) -> bool
    ensures { result ≡ fit_params (option_copied callee.entry) func.now regs.now }
{
    match callee {
        Some(callee) => like_types(func, regs, callee, callee.params.as_slice()),
        None => false,
    }
}

pub(crate) fn fit_results(callee: Option<&LowFunc>, func: &LowFunc, regs: &[Reg]) -> bool
    ensures { result ≡ fit_results (option_copied callee.entry) func.now regs.now }
{
    match callee {
        Some(callee) => have_types(func, regs, &callee.results),
        None => false,
    }
}

/// Whether the registers are a token, and a value for each result of the launched function.
fn fit_launched(callee: Option<&LowFunc>, func: &LowFunc, regs: &[Reg]) -> bool
    ensures { result ≡ fit_launched (option_copied callee.entry) func.now regs.now }
{
    match callee {
        Some(callee) => match regs {
            [token, values @ ..] => {
                is_token_reg(func, *token) && hold_types(func, values, &callee.results)
            }
            [] => false,
        },
        None => false,
    }
}

fn is_token_reg(func: &LowFunc, reg: Reg) -> bool
    ensures { result ≡ on_type is_token (reg_type func.now reg) }
{
    match reg_type(func, reg) {
        Some(t) => is_token(t),
        None => false,
    }
}

fn rank_of(t: Option<&Ty>) -> usize
    ensures { result ≡ rank_of (option_copied t.entry) }
{
    match t {
        Some(t) => rank(t),
        None => 0,
    }
}

fn open_rank_of(t: Option<&Ty>) -> usize
    ensures { result ≡ open_rank_of (option_copied t.entry) }
{
    match t {
        Some(t) => open_rank(t),
        None => 0,
    }
}

fn is_index_reg(func: &LowFunc, reg: Reg) -> bool
    ensures { result ≡ on_type is_index (reg_type func.now reg) }
{
    match reg_type(func, reg) {
        Some(t) => is_index(t),
        None => false,
    }
}

fn all_indices(func: &LowFunc, regs: &[Reg]) -> bool
    ensures { result ≡ every (λ r. on_type is_index (reg_type func.now r)) regs.now }
{
    for reg in regs {
        if !is_index_reg(func, *reg) {
            return false;
        }
    }
    true
}

fn are_indices(func: &LowFunc, count: usize, regs: &[Reg]) -> bool
    ensures { result ≡ are_indices func.now count regs.now }
{
    regs.len() == count && all_indices(func, regs)
}

/// Whether these are the operands that stand behind the fixed ones.
fn rest_fits(rest: Rest, code: &LowModule, func: &LowFunc, instr: &Instr, regs: &[Reg]) -> bool
    ensures { result ≡ rest_fits rest code.now func.now instr.now regs.now }
{
    match rest {
        Rest::Nothing => regs.len() == 0,
        Rest::Sizes => {
            let count = open_rank_of(type_at(func, instr.results.as_slice(), 0));
            are_indices(func, count, regs)
        }
        Rest::Indices(place) => {
            let count = rank_of(type_at(func, instr.operands.as_slice(), place as usize));
            are_indices(func, count, regs)
        }
        Rest::Params => fit_params(callee(code, instr.attr), func, regs),
        Rest::Returned => have_types(func, regs, &func.results),
    }
}

/// Whether the registers fill the slots, and then the rest.
fn fill(
    slots: &[Slot],
    row: LowRow,
    code: &LowModule,
    func: &LowFunc,
    instr: &Instr,
    regs: &[Reg],
) -> bool
    ensures { result ≡ fill slots.now row code.now func.now instr.now regs.now }
{
    match slots {
        [] => rest_fits(row.rest, code, func, instr, regs),
        [slot, more @ ..] => match regs {
            [] => is_absent(*slot) && rest_fits(row.rest, code, func, instr, regs),
            [reg, others @ ..] => {
                if is_absent(*slot) {
                    rest_fits(row.rest, code, func, instr, regs)
                } else {
                    reg_fits(*slot, func, instr, *reg) && fill(more, row, code, func, instr, others)
                }
            }
        },
    }
}

fn operands_fit(row: LowRow, code: &LowModule, func: &LowFunc, instr: &Instr) -> bool
    ensures { result ≡ operands_fit row code.now func.now instr.now }
{
    let slots = [row.first, row.second, row.third];
    fill(&slots, row, code, func, instr, instr.operands.as_slice())
}

fn result_fits(slot: Slot, func: &LowFunc, instr: &Instr, regs: &[Reg]) -> bool
    ensures { result ≡ result_fits slot func.now instr.now regs.now }
{
    match regs {
        [] => is_absent(slot),
        [reg] => reg_fits(slot, func, instr, *reg),
        _ => false,
    }
}

fn results_fit(row: LowRow, code: &LowModule, func: &LowFunc, instr: &Instr) -> bool
    ensures { result ≡ results_fit row code.now func.now instr.now }
{
    let regs = instr.results.as_slice();
    match row.results {
        Results::Own => result_fits(row.result, func, instr, regs),
        Results::Called => fit_results(callee(code, instr.attr), func, regs),
        Results::Launched => fit_launched(callee(code, instr.attr), func, regs),
    }
}

fn is_coroutine(callee: Option<&LowFunc>) -> bool
    ensures { result ≡ is_coroutine (option_copied callee.entry) }
{
    match callee {
        Some(callee) => callee.coroutine,
        None => false,
    }
}

fn is_plain(callee: Option<&LowFunc>) -> bool
    ensures { result ≡ is_plain (option_copied callee.entry) }
{
    match callee {
        Some(callee) => !callee.coroutine,
        None => false,
    }
}

fn attr_fits(slot: AttrSlot, code: &LowModule, attr: LowAttr) -> bool
    ensures { result ≡ attr_fits slot code.now attr }
{
    match slot {
        AttrSlot::Nothing => matches!(attr, LowAttr::None),
        AttrSlot::Literal => matches!(attr, LowAttr::Literal { .. } | LowAttr::Truth(_)),
        AttrSlot::Pred => matches!(attr, LowAttr::Pred(_)),
        AttrSlot::Count => matches!(attr, LowAttr::Count(_)),
        AttrSlot::Coroutine => is_coroutine(callee(code, attr)),
        AttrSlot::Plain => is_plain(callee(code, attr)),
    }
}

/// Whether an instruction or a terminator fits its row, its targets aside.
pub(crate) fn instr_fits(code: &LowModule, func: &LowFunc, instr: &Instr) -> bool
    ensures { result ≡ instr_fits code.now func.now instr.now }
{
    let row = low_row(instr.kind);
    row.stands
        && attr_fits(row.attr, code, instr.attr)
        && operands_fit(row, code, func, instr)
        && results_fit(row, code, func, instr)
}

fn is_instruction(targets: Targets) -> bool
    ensures { result ≡ is_instruction targets }
{
    matches!(targets, Targets::Instruction)
}

/// Whether an instruction within a block is no terminator, and fits its row.
pub(crate) fn inner_fits(code: &LowModule, func: &LowFunc, instr: &Instr) -> bool
    ensures { result ≡ inner_fits code.now func.now instr.now }
{
    is_instruction(low_row(instr.kind).targets) && instr_fits(code, func, instr)
}
