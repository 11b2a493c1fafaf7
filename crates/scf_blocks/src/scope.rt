//! The registers of values.
ghost use Rattle.std.specs.Prelude.{◌≡◌, ◌≤◌, ◌-◌, ◌∷◌, [], length, drop, OnOk};
ghost use Rattle.std.specs.Option.{option_copied};
ghost use Rattle.scf_blocks.specs.Code.{operand, reg, with_values};

use crate::body::{number, plus};
use ir_forms::ValueNo;
use low_forms::Reg;
use std::alloc::{AllocError, Global};
use std::collections::BTreeMap;
use std::marker::Model;

/// A value that is visible, with its register, and the register that its number had before.
#[derive(Clone, Copy)]
pub struct Visible {
    value: ValueNo,
    reg: Reg,
    hidden: Option<Reg>,
}

/// The values that are visible, with their registers. A register is found in as many steps as the logarithm of how many
/// there are. Contracts see the list of them, the last one first.
#[derive(Drop)]
pub struct Scope {
    visible: Vec<Visible>,
    regs: BTreeMap<u32, Reg>,
}

impl Model for Scope {
    ghost use Rattle.std.specs.Prelude.{List, reverse};
    ghost use Rattle.ir_forms.specs.declared.ops.ValueNo.{ValueNo};
    ghost use Rattle.low_forms.specs.declared.code.Reg.{Reg};
    ghost use Rattle.scf_blocks.specs.Scopes.{shown, AreRegs, Hides};

    ghost Value = { List (ValueNo × Reg) };

    ghost view = { λ s. shown (reverse s.visible.items) };

    ghost invariant = { λ s. AreRegs s.regs (shown (reverse s.visible.items)) × Hides (reverse s.visible.items) };
}

impl Scope {
    pub(crate) fn new(alloc: Global) -> Scope
        ensures { result ≡ [] }
    {
        Scope {
            visible: Vec::new(alloc),
            regs: BTreeMap::new(alloc),
        }
    }

    #[tactic(auto, using(crate::proofs::Scopes::length_seen))]
    pub(crate) fn len(&self) -> usize
        ensures { result ≡ length self.now }
    {
        self.visible.len()
    }

    /// Gives a value its register.
    pub(crate) fn define(&mut self, value: ValueNo, reg: Reg) -> Result<(), AllocError>
        ensures { OnOk result (self.new ≡ (value, reg) ∷ self.old) }
    {
        let hidden = self.regs.get(&value.0).copied();
        self.visible.push(Visible { value, reg, hidden })?;
        match self.regs.insert(value.0, reg) {
            Ok(_) => Ok(()),
            Err(_) => {
                let _last = self.visible.pop();
                Err(AllocError)
            }
        }
    }

    /// Gives these values the registers from this number on.
    pub(crate) fn define_from(&mut self, values: &[ValueNo], first: usize) -> Result<(), AllocError>
        ensures { OnOk result (self.new ≡ with_values values.now first self.old) }
    {
        let mut next = first;
        for value in values {
            self.define(*value, Reg(number(next)?))?;
            next = plus(next, 1)?;
        }
        Ok(())
    }

    /// Takes the last value off.
    fn forget_last(&mut self)
        ensures { self.new ≡ drop 1 self.old }
    {
        if let Some(last) = self.visible.pop() {
            match last.hidden {
                Some(reg) => {
                    let _old = self.regs.insert(last.value.0, reg);
                }
                None => {
                    let _old = self.regs.remove(&last.value.0);
                }
            }
        }
    }

    /// Keeps as many of the first values, or all.
    #[tactic(auto, using(crate::proofs::Scopes::one_less, crate::proofs::Scopes::none_less))]
    pub(crate) fn truncate(&mut self, len: usize)
        ensures { self.new ≡ drop (length self.old - len) self.old }
    {
        while len < self.len() {
            self.forget_last();
        }
    }

    /// The register of a value, and the first one for a value that isn't visible.
    pub(crate) fn reg(&self, value: ValueNo) -> Reg
        ensures { result ≡ reg self.now value }
    {
        match self.regs.get(&value.0) {
            Some(reg) => *reg,
            None => Reg(0),
        }
    }

    /// The register of an operand; one that is missing has the first one.
    pub(crate) fn operand(&self, value: Option<&ValueNo>) -> Reg
        ensures { result ≡ operand self.now (option_copied value.entry) }
    {
        match value {
            Some(value) => self.reg(*value),
            None => Reg(0),
        }
    }
}
