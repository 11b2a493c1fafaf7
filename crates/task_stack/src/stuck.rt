//! Whether the next step of a stack is stuck, before it is tried.
ghost use Rattle.std.specs.Prelude.{◌≡◌, true, List, slice_get};
ghost use Rattle.task_stack.specs.Effects.{effect_of};
ghost use Rattle.task_stack.specs.Registers.{number};
ghost use Rattle.task_stack.specs.Local.{free_step, operands, branch, jumps, calls, suspends, leaves, inner_step, end_step};
ghost use Rattle.async_objects.specs.declared.kinds.Val.{Val};
ghost use Rattle.task_stack.specs.Ahead.{is_stuck};

use crate::effects::{Effect, effect_of};
use crate::local::{side, standing, target_way, way_on};
use crate::numbers::computed;
use crate::stack::Stack;
use low_forms::{Instr, LowAttr, LowFunc, LowModule, Term};

impl Stack {
    /// Whether what the next instruction needs doesn't hold, where that is a step of the task alone.
    pub fn next_is_stuck(&self, code: &LowModule) -> bool
        ensures { result ≡ is_stuck (free_step code.now self.now) }
    {
        let Some(stands) = standing(code, self.top.current.place) else {
            return true;
        };
        match stands.instrs.first() {
            Some(instr) => self.inner_is_stuck(code, stands.func, instr),
            None => self.end_is_stuck(code, stands.func, stands.term),
        }
    }

    /// An instruction within a block.
    fn inner_is_stuck(&self, code: &LowModule, func: &LowFunc, instr: &Instr) -> bool
        ensures { result ≡ is_stuck (inner_step (effect_of instr.now.kind) true code.now func.now instr.now self.now) }
    {
        match effect_of(instr.kind) {
            Effect::Computes(how) => match computed(how, func, instr, &self.top.current.regs) {
                Some(_val) => false,
                None => true,
            },
            Effect::Launches => self.call_is_stuck(code, instr),
            Effect::Skips
            | Effect::Saves
            | Effect::AddsReferences
            | Effect::DropsReferences
            | Effect::Shared => false,
            _ => true,
        }
    }

    /// The terminator of a block.
    fn end_is_stuck(&self, code: &LowModule, func: &LowFunc, term: &Term) -> bool
        ensures { result ≡ is_stuck (end_step (effect_of term.now.instr.kind) true code.now func.now term.now self.now) }
    {
        match effect_of(term.instr.kind) {
            Effect::Jumps => self.jump_is_stuck(func, term, 0),
            Effect::Branches => self.branch_is_stuck(func, term),
            Effect::Calls => self.call_is_stuck(code, &term.instr),
            Effect::Returns => self.leave_is_stuck(code, false),
            Effect::Fails => self.leave_is_stuck(code, true),
            Effect::Suspends => self.suspend_is_stuck(func, term),
            Effect::Shared => false,
            _ => true,
        }
    }

    fn call_is_stuck(&self, code: &LowModule, instr: &Instr) -> bool
        ensures { result ≡ is_stuck (calls true code.now instr.now.attr (operands self.now instr.now) self.now) }
    {
        let LowAttr::Callee(no) = instr.attr else {
            return true;
        };
        match code.funcs.get(no.0 as usize) {
            Some(_func) => false,
            None => true,
        }
    }

    fn jump_is_stuck(&self, func: &LowFunc, term: &Term, k: usize) -> bool
        ensures { result ≡ is_stuck (jumps func.now (slice_get term.now.targets k) self.now) }
    {
        match term.targets.get(k) {
            Some(_target) => false,
            None => true,
        }
    }

    fn branch_is_stuck(&self, func: &LowFunc, term: &Term) -> bool
        ensures { result ≡ is_stuck (jumps func.now (slice_get term.now.targets (branch (number (operands self.now term.now.instr) 0))) self.now) }
    {
        let truth = self
            .top
            .current
            .regs
            .number(term.instr.operands.as_slice(), 0);
        let k = if truth == 0 { 1 } else { 0 };
        self.jump_is_stuck(func, term, k)
    }

    fn suspend_is_stuck(&self, func: &LowFunc, term: &Term) -> bool
        ensures { result ≡ is_stuck (suspends func.now term.now self.now) }
    {
        let Some(k) = side(&self.top.saved) else {
            return true;
        };
        match target_way(func, term, k) {
            Some(_way) => false,
            None => true,
        }
    }

    /// The end of the working frame, by a return or a failure, with any values.
    fn leave_is_stuck(&self, code: &LowModule, fails: bool) -> bool
        ensures { (vals : List Val) → result ≡ is_stuck (leaves fails code.now vals self.now.below self.now) }
    {
        let Some(caller) = self.below.last() else {
            return !self.is_root;
        };
        match way_on(code, caller.current.place, fails) {
            Some(_way) => false,
            None => true,
        }
    }
}
