//! Numbers in range, and counts.
ghost use Rattle.std.specs.Prelude.{◌≡◌};
ghost use Rattle.low_forms.specs.Registers.{every};
ghost use Rattle.low_forms.specs.Numbers.{regs_within, callee_within, instr_within, target_within, block_within, count_is_small, counts_small, starts_bare, has_start};

use crate::code::{Block, Instr, LowAttr, LowFunc, LowModule, Reg, Target};

pub(crate) fn regs_within(func: &LowFunc, regs: &[Reg]) -> bool
    ensures { result ≡ regs_within func.now regs.now }
{
    for reg in regs {
        if !((reg.0 as usize) < func.regs.len()) {
            return false;
        }
    }
    true
}

fn callee_within(code: &LowModule, attr: LowAttr) -> bool
    ensures { result ≡ callee_within code.now attr }
{
    match attr {
        LowAttr::Callee(func) => (func.0 as usize) < code.funcs.len(),
        _ => true,
    }
}

fn instr_within(code: &LowModule, func: &LowFunc, instr: &Instr) -> bool
    ensures { result ≡ instr_within code.now func.now instr.now }
{
    regs_within(func, instr.operands.as_slice())
        && regs_within(func, instr.results.as_slice())
        && callee_within(code, instr.attr)
}

fn target_within(func: &LowFunc, target: &Target) -> bool
    ensures { result ≡ target_within func.now target.now }
{
    (target.block.0 as usize) < func.blocks.len() && regs_within(func, target.args.as_slice())
}

fn instrs_within(code: &LowModule, func: &LowFunc, instrs: &[Instr]) -> bool
    ensures { result ≡ every (instr_within code.now func.now) instrs.now }
{
    for instr in instrs {
        if !instr_within(code, func, instr) {
            return false;
        }
    }
    true
}

fn targets_within(func: &LowFunc, targets: &[Target]) -> bool
    ensures { result ≡ every (target_within func.now) targets.now }
{
    for target in targets {
        if !target_within(func, target) {
            return false;
        }
    }
    true
}

/// Whether all numbers in a block are in range.
pub(crate) fn block_within(code: &LowModule, func: &LowFunc, block: &Block) -> bool
    ensures { result ≡ block_within code.now func.now block.now }
{
    regs_within(func, block.params.as_slice())
        && instrs_within(code, func, block.instrs.as_slice())
        && instr_within(code, func, &block.term.instr)
        && targets_within(func, block.term.targets.as_slice())
}

fn count_is_small(attr: LowAttr) -> bool
    ensures { result ≡ count_is_small attr }
{
    match attr {
        LowAttr::Count(count) => 1 <= count && count <= 0x80_0000,
        _ => true,
    }
}

fn all_counts_small(instrs: &[Instr]) -> bool
    ensures { result ≡ every (λ i. count_is_small i.attr) instrs.now }
{
    for instr in instrs {
        if !count_is_small(instr.attr) {
            return false;
        }
    }
    true
}

/// Whether each count of a block is 1 to 2^23.
pub(crate) fn counts_small(block: &Block) -> bool
    ensures { result ≡ counts_small block.now }
{
    all_counts_small(block.instrs.as_slice()) && count_is_small(block.term.instr.attr)
}

/// Whether a function has a block, the first one without parameters.
pub(crate) fn has_start(func: &LowFunc) -> bool
    ensures { result ≡ has_start func.now }
{
    match func.blocks.as_slice() {
        [] => false,
        [block, _more @ ..] => block.params.len() == 0,
    }
}
