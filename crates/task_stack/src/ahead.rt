//! What the next instruction of a stack is, before it is taken.
ghost use Rattle.std.specs.Prelude.{◌≡◌, None};
ghost use Rattle.task_stack.specs.Local.{free_step};
ghost use Rattle.task_stack.specs.Ahead.{IsAhead, is_shared, counted, inner_shared, end_shared, inner_counts};

use crate::effects::{Effect, effect_of};
use crate::local::{count_step, standing};
use crate::stack::Stack;
use crate::steps::{Ahead, CountStep};
use low_forms::{Instr, LowModule};

impl Stack {
    /// Whether the next instruction is no step of the task alone.
    pub fn next_is_shared(&self, code: &LowModule) -> bool
        ensures { result ≡ is_shared (free_step code.now self.now) }
    {
        let Some(stands) = standing(code, self.top.current.place) else {
            return false;
        };
        match stands.instrs.first() {
            Some(instr) => inner_is_shared(effect_of(instr.kind)),
            None => self.end_is_shared(effect_of(stands.term.instr.kind)),
        }
    }

    /// What kind of step the next instruction is.
    pub fn ahead(&self, code: &LowModule) -> Ahead
        ensures { IsAhead result (counted (free_step code.now self.now)) (is_shared (free_step code.now self.now)) }
    {
        let Some(stands) = standing(code, self.top.current.place) else {
            return Ahead::Alone;
        };
        match stands.instrs.first() {
            Some(instr) => self.inner_ahead(effect_of(instr.kind), instr),
            None => self.end_ahead(effect_of(stands.term.instr.kind)),
        }
    }

    fn inner_ahead(&self, effect: Effect, instr: &Instr) -> Ahead
        ensures { IsAhead result (inner_counts effect instr.now self.now) (inner_shared effect) }
    {
        match self.counts(effect, instr) {
            Some(count) => Ahead::Counts(count),
            None => {
                if inner_is_shared(effect) {
                    Ahead::Shared
                } else {
                    Ahead::Alone
                }
            }
        }
    }

    fn end_ahead(&self, effect: Effect) -> Ahead
        ensures { IsAhead result None (end_shared effect self.now) }
    {
        if self.end_is_shared(effect) {
            Ahead::Shared
        } else {
            Ahead::Alone
        }
    }

    fn end_is_shared(&self, effect: Effect) -> bool
        ensures { result ≡ end_shared effect self.now }
    {
        match effect {
            Effect::Shared => true,
            Effect::Returns | Effect::Fails => self.is_root && self.below.is_empty(),
            _ => false,
        }
    }

    fn counts(&self, effect: Effect, instr: &Instr) -> Option<CountStep>
        ensures { result ≡ inner_counts effect instr.now self.now }
    {
        match effect {
            Effect::AddsReferences => count_step(instr.attr, true, self.value(instr, 0)),
            Effect::DropsReferences => count_step(instr.attr, false, self.value(instr, 0)),
            _ => None,
        }
    }
}

fn inner_is_shared(effect: Effect) -> bool
    ensures { result ≡ inner_shared effect }
{
    matches!(effect, Effect::Shared)
}
