//! Whether the targets of a terminator fit its row.
ghost use Rattle.std.specs.Prelude.{◌≡◌};
ghost use Rattle.std.specs.Option.{option_copied};
ghost use Rattle.ir_verify.specs.Types.{is_value, holds};
ghost use Rattle.low_forms.specs.Registers.{every, reg_type, type_at, on_type, on_types, block_at};
ghost use Rattle.low_forms.specs.Rows.{row_of};
ghost use Rattle.low_forms.specs.Fits.{is_code, args_fit, is_bare, target_fits, bare_fits, same_reg, same_regs, takes_results, are_code, takes_code, are_held, takes_held, either_fits, call_fits, await_fits, suspend_fits, ends, one_fits, two_fit, three_fit, targets_fit, inner_fits, term_fits, block_fits};

use crate::code::{Block, BlockNo, Instr, LowFunc, LowModule, Reg, Target, Term};
use crate::fits::{callee, fit_results, inner_fits, instr_fits, is_code};
use crate::row::Targets;
use crate::table::low_row;
use crate::types::{like_types, reg_at, reg_type, type_at};
use ir_forms::Ty;
use ir_verify::types::{holds, is_value};

fn block_at(func: &LowFunc, block: BlockNo) -> Option<&Block>
    ensures { option_copied result ≡ block_at func.now block }
{
    func.blocks.get(block.0 as usize)
}

fn args_fit(block: Option<&Block>, func: &LowFunc, args: &[Reg]) -> bool
    ensures { result ≡ args_fit (option_copied block.entry) func.now args.now }
{
    match block {
        Some(block) => like_types(func, args, func, block.params.as_slice()),
        None => false,
    }
}

fn is_bare(target: &Target) -> bool
    ensures { result ≡ is_bare target.now }
{
    target.args.len() == 0
}

fn target_fits(func: &LowFunc, target: &Target) -> bool
    ensures { result ≡ target_fits func.now target.now }
{
    args_fit(block_at(func, target.block), func, target.args.as_slice())
}

fn bare_fits(func: &LowFunc, target: &Target) -> bool
    ensures { result ≡ bare_fits func.now target.now }
{
    is_bare(target) && target_fits(func, target)
}

fn is_same(reg: Option<Reg>, other: Option<Reg>) -> bool
    ensures { result ≡ same_reg reg other }
{
    match reg {
        None => false,
        Some(reg) => match other {
            None => false,
            Some(other) => reg.0 == other.0,
        },
    }
}

fn same_regs(regs: &[Reg], others: &[Reg]) -> bool
    ensures { result ≡ same_regs regs.now others.now }
{
    if regs.len() != others.len() {
        return false;
    }
    for place in 0..regs.len() {
        if !is_same(reg_at(regs, place), reg_at(others, place)) {
            return false;
        }
    }
    true
}

/// Whether a block takes the results of a call.
fn takes_results(block: Option<&Block>, callee: Option<&LowFunc>, func: &LowFunc) -> bool
    ensures { result ≡ takes_results (option_copied block.entry) (option_copied callee.entry) func.now }
{
    match block {
        Some(block) => fit_results(callee, func, block.params.as_slice()),
        None => false,
    }
}

fn is_code_reg(func: &LowFunc, reg: Reg) -> bool
    ensures { result ≡ on_type is_code (reg_type func.now reg) }
{
    match reg_type(func, reg) {
        Some(t) => is_code(t),
        None => false,
    }
}

/// Whether a block takes the code of a failure.
fn takes_code(block: Option<&Block>, func: &LowFunc) -> bool
    ensures { result ≡ takes_code (option_copied block.entry) func.now }
{
    match block {
        None => false,
        Some(block) => match block.params.as_slice() {
            [reg] => is_code_reg(func, *reg),
            _ => false,
        },
    }
}

fn is_value_type(t: Option<&Ty>) -> bool
    ensures { result ≡ on_type is_value (option_copied t.entry) }
{
    match t {
        Some(t) => is_value(t),
        None => false,
    }
}

fn is_held(object: Option<&Ty>, t: Option<&Ty>) -> bool
    ensures { result ≡ on_types holds (option_copied object.entry) (option_copied t.entry) }
{
    match object {
        None => false,
        Some(object) => match t {
            None => false,
            Some(t) => holds(object, t),
        },
    }
}

/// Whether a block takes what an awaited object holds.
fn takes_held(block: Option<&Block>, func: &LowFunc, object: Option<&Ty>) -> bool
    ensures { result ≡ takes_held (option_copied block.entry) func.now (option_copied object.entry) }
{
    match block {
        None => false,
        Some(block) => match block.params.as_slice() {
            [] => !is_value_type(object),
            [reg] => is_held(object, reg_type(func, *reg)),
            _ => false,
        },
    }
}

fn either_fits(func: &LowFunc, first: &Target, second: &Target) -> bool
    ensures { result ≡ either_fits func.now first.now second.now }
{
    same_regs(first.args.as_slice(), second.args.as_slice())
        && target_fits(func, first)
        && target_fits(func, second)
}

fn call_fits(
    code: &LowModule,
    func: &LowFunc,
    instr: &Instr,
    first: &Target,
    second: &Target,
) -> bool
    ensures { result ≡ call_fits code.now func.now instr.now first.now second.now }
{
    is_bare(first)
        && is_bare(second)
        && takes_results(block_at(func, first.block), callee(code, instr.attr), func)
        && takes_code(block_at(func, second.block), func)
}

fn await_fits(func: &LowFunc, instr: &Instr, first: &Target, second: &Target) -> bool
    ensures { result ≡ await_fits func.now instr.now first.now second.now }
{
    let object = type_at(func, instr.operands.as_slice(), 0);
    is_bare(first)
        && takes_held(block_at(func, first.block), func, object)
        && bare_fits(func, second)
}

fn suspend_fits(func: &LowFunc, first: &Target, second: &Target, third: &Target) -> bool
    ensures { result ≡ suspend_fits func.now first.now second.now third.now }
{
    bare_fits(func, first) && bare_fits(func, second) && bare_fits(func, third)
}

fn ends(asked: Targets) -> bool
    ensures { result ≡ ends asked }
{
    matches!(asked, Targets::Ends)
}

fn one_fits(asked: Targets, func: &LowFunc, target: &Target) -> bool
    ensures { result ≡ one_fits asked func.now target.now }
{
    match asked {
        Targets::One => target_fits(func, target),
        _ => false,
    }
}

fn two_fit(
    asked: Targets,
    code: &LowModule,
    func: &LowFunc,
    instr: &Instr,
    first: &Target,
    second: &Target,
) -> bool
    ensures { result ≡ two_fit asked code.now func.now instr.now first.now second.now }
{
    match asked {
        Targets::Either => either_fits(func, first, second),
        Targets::Call => call_fits(code, func, instr, first, second),
        Targets::Await => await_fits(func, instr, first, second),
        _ => false,
    }
}

fn three_fit(
    asked: Targets,
    func: &LowFunc,
    first: &Target,
    second: &Target,
    third: &Target,
) -> bool
    ensures { result ≡ three_fit asked func.now first.now second.now third.now }
{
    match asked {
        Targets::Suspend => suspend_fits(func, first, second, third),
        _ => false,
    }
}

fn targets_fit(
    asked: Targets,
    code: &LowModule,
    func: &LowFunc,
    instr: &Instr,
    targets: &[Target],
) -> bool
    ensures { result ≡ targets_fit asked code.now func.now instr.now targets.now }
{
    match targets {
        [] => ends(asked),
        [first] => one_fits(asked, func, first),
        [first, second] => two_fit(asked, code, func, instr, first, second),
        [first, second, third] => three_fit(asked, func, first, second, third),
        _ => false,
    }
}

fn term_fits(code: &LowModule, func: &LowFunc, term: &Term) -> bool
    ensures { result ≡ term_fits code.now func.now term.now }
{
    instr_fits(code, func, &term.instr)
        && targets_fit(
            low_row(term.instr.kind).targets,
            code,
            func,
            &term.instr,
            term.targets.as_slice(),
        )
}

fn instrs_fit(code: &LowModule, func: &LowFunc, instrs: &[Instr]) -> bool
    ensures { result ≡ every (inner_fits code.now func.now) instrs.now }
{
    for instr in instrs {
        if !inner_fits(code, func, instr) {
            return false;
        }
    }
    true
}

/// Whether all of a block fits the table.
pub(crate) fn block_fits(code: &LowModule, func: &LowFunc, block: &Block) -> bool
    ensures { result ≡ block_fits code.now func.now block.now }
{
    instrs_fit(code, func, block.instrs.as_slice()) && term_fits(code, func, &block.term)
}
