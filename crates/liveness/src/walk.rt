//! The way back through a block.
ghost use Rattle.std.specs.Prelude.{◌≡◌, length, drop};
ghost use Rattle.low_flow.specs.Lists.{has};
ghost use Rattle.low_forms.specs.Assigned.{numbers, used_at_end};
ghost use Rattle.liveness.specs.Flow.{live_before, args_have, with_regs, without_regs, with_args, with_term, back_over, back_through};

use bit_sets::BitSet;
use low_forms::{Block, Instr, Reg, Target, Term};

fn add_all(set: &mut BitSet, regs: &[Reg])
    ensures { set.new ≡ with_regs regs.now set.old }
{
    for reg in regs {
        set.insert(reg.0 as usize);
    }
}

fn remove_all(set: &mut BitSet, regs: &[Reg])
    ensures { set.new ≡ without_regs regs.now set.old }
{
    for reg in regs {
        set.remove(reg.0 as usize);
    }
}

fn add_args(set: &mut BitSet, targets: &[Target])
    ensures { set.new ≡ with_args targets.now set.old }
{
    for target in targets {
        add_all(set, target.args.as_slice());
    }
}

fn add_term(set: &mut BitSet, term: &Term)
    ensures { set.new ≡ with_term term.now set.old }
{
    add_all(set, term.instr.operands.as_slice());
    add_args(set, term.targets.as_slice());
}

fn back_over(set: &mut BitSet, instrs: &[Instr])
    ensures { set.new ≡ back_over instrs.now set.old }
{
    for behind in 0..instrs.len() {
        let instr = &instrs[instrs.len() - 1 - behind];
        remove_all(set, instr.results.as_slice());
        add_all(set, instr.operands.as_slice());
    }
}

/// From what is live behind a block to what is live over an edge to it.
pub(crate) fn back_through(set: &mut BitSet, block: &Block)
    ensures { set.new ≡ back_through block.now set.old }
{
    add_term(set, &block.term);
    back_over(set, block.instrs.as_slice());
    remove_all(set, block.params.as_slice());
}

fn names(regs: &[Reg], number: usize) -> bool
    ensures { result ≡ has number (numbers regs.now) }
{
    for reg in regs {
        if number == reg.0 as usize {
            return true;
        }
    }
    false
}

fn args_name(targets: &[Target], number: usize) -> bool
    ensures { result ≡ args_have number targets.now }
{
    for target in targets {
        if names(target.args.as_slice(), number) {
            return true;
        }
    }
    false
}

#[tactic(auto, using(crate::proofs::FlowLemmas::ends_same))]
fn ends_with(term: &Term, number: usize) -> bool
    ensures { result ≡ has number (used_at_end term.now) }
{
    names(term.instr.operands.as_slice(), number) || args_name(term.targets.as_slice(), number)
}

/// Whether a register is live at a place of a block, from whether it is live behind the terminator.
pub(crate) fn live_from(block: &Block, row: usize, out: bool, number: usize) -> bool
    ensures { result ≡ live_before (drop row block.now.instrs) block.now.term out number }
{
    let instrs = block.instrs.as_slice();
    for at in row..instrs.len() {
        let instr = &instrs[at];
        if names(instr.operands.as_slice(), number) {
            return true;
        }
        if names(instr.results.as_slice(), number) {
            return false;
        }
    }
    ends_with(&block.term, number) || out
}
