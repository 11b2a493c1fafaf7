//! The values of a function's activation.
ghost use Rattle.std.specs.Prelude.{◌≡◌, [], IfOk, OnOk};
ghost use Rattle.std.specs.Option.{option_copied};
ghost use Rattle.source_meaning.specs.Values.{nothing, or_else, put, bind, named, values_at, number_in, buffer_in, dims_in, element_in, group_in};
ghost use Rattle.source_meaning.specs.Steps.{value, number, numbers};

use crate::held::Held;
use crate::table::Table;
use ir_forms::{ElementName, MadeName, ValueNo};
use lists::Items;
use source_meaning::Val;
use std::alloc::{AllocError, Global};
use std::marker::Model;
use std::mem;

/// The values of a function's activation, by number. One that was given none reads as the number 0.
#[derive(Drop)]
pub struct Env {
    alloc: Global,
    len: usize,
    table: Table,
}

impl Model for Env {
    ghost use Rattle.std.specs.Prelude.{◌≡◌, ◌≤◌, ℕ, List};
    ghost use Rattle.source_meaning.specs.declared.values.Val.{Val};
    ghost use Rattle.source_meaning.specs.Values.{nothing};
    ghost use Rattle.source_tasks.specs.Table.{kept, listed};

    ghost Value = { List Val };

    ghost view = { λ e. listed e.len e.table };

    ghost invariant = { λ e. (n : ℕ) → e.len ≤ n → kept e.table n ≡ nothing };
}

impl Env {
    /// What a name has, if it was given something.
    fn held(&self, name: ValueNo) -> Option<&Held>
        ensures { or_else nothing (option_copied result) ≡ named self.now name.0 }
    {
        self.table.get(name.0 as usize)
    }

    #[tactic(auto, using(crate::proofs::Puts::value_of))]
    pub(crate) fn number(&self, names: &[ValueNo], i: usize) -> u64
        ensures { result ≡ number (values_at self.now names.now) i }
    {
        let Some(name) = names.get(i) else { return 0 };
        match self.held(*name) {
            Some(held) => held.number(),
            None => 0,
        }
    }

    /// The number of this name; what is no number reads as 0.
    pub(crate) fn number_of(&self, name: ValueNo) -> u64
        ensures { result ≡ number_in (named self.now name.0) }
    {
        match self.held(name) {
            Some(held) => held.number(),
            None => 0,
        }
    }

    /// The buffer that an operand names; what is no buffer reads as the first argument.
    #[tactic(auto, using(crate::proofs::Puts::value_of))]
    pub(crate) fn buffer(
        &self,
        alloc: Global,
        names: &[ValueNo],
        i: usize,
    ) -> Result<MadeName, AllocError>
        ensures { IfOk result (λ b. b ≡ buffer_in (value (values_at self.now names.now) i)) }
    {
        if let Some(name) = names.get(i) {
            if let Some(held) = self.held(*name) {
                return held.buffer(alloc);
            }
        }
        Ok(MadeName::Argument { parameter: 0 })
    }

    /// The group that an operand names; what is no group reads as the first argument.
    #[tactic(auto, using(crate::proofs::Puts::value_of))]
    pub(crate) fn group(
        &self,
        alloc: Global,
        names: &[ValueNo],
        i: usize,
    ) -> Result<MadeName, AllocError>
        ensures { IfOk result (λ g. g ≡ group_in (value (values_at self.now names.now) i)) }
    {
        if let Some(name) = names.get(i) {
            if let Some(held) = self.held(*name) {
                return held.group(alloc);
            }
        }
        Ok(MadeName::Argument { parameter: 0 })
    }

    /// The token or value that an operand names, if it is one.
    #[tactic(auto, using(crate::proofs::Puts::value_of))]
    pub(crate) fn element(
        &self,
        alloc: Global,
        names: &[ValueNo],
        i: usize,
    ) -> Result<Option<ElementName>, AllocError>
        ensures { IfOk result (λ x. x ≡ element_in (value (values_at self.now names.now) i)) }
    {
        if let Some(name) = names.get(i) {
            if let Some(held) = self.held(*name) {
                return held.element(alloc);
            }
        }
        Ok(None)
    }

    /// Gives a value its name. Those before it that were given none are then the number 0.
    pub(crate) fn put(&mut self, value: ValueNo, val: Val) -> Result<(), AllocError>
        ensures { OnOk result (self.new ≡ put self.old value.0 val) }
    {
        let number = value.0 as usize;
        let held = Held::of(self.alloc, val)?;
        let mut table = mem::replace(&mut self.table, Table::new(self.alloc));
        table.put(self.alloc, number, held)?;
        self.table = table;
        if self.len <= number {
            self.len = number + 1;
        }
        Ok(())
    }

    pub(crate) fn new(alloc: Global) -> Env
        ensures { result ≡ [] }
    {
        Env {
            alloc,
            len: 0,
            table: Table::new(alloc),
        }
    }

    /// The value that an operand names.
    #[tactic(auto, using(crate::proofs::Puts::value_of))]
    pub(crate) fn value(
        &self,
        alloc: Global,
        names: &[ValueNo],
        i: usize,
    ) -> Result<Val, AllocError>
        ensures { IfOk result (λ v. v ≡ value (values_at self.now names.now) i) }
    {
        if let Some(name) = names.get(i) {
            if let Some(held) = self.held(*name) {
                return held.copy(alloc);
            }
        }
        Ok(Val::Number(0))
    }

    /// The sizes of the buffer that an operand names; what is no buffer has none.
    #[tactic(auto, using(crate::proofs::Puts::value_of))]
    pub(crate) fn dims(&self, names: &[ValueNo], i: usize) -> &[u32]
        ensures { result.now ≡ dims_in (value (values_at self.now names.now) i) }
    {
        if let Some(name) = names.get(i) {
            if let Some(held) = self.held(*name) {
                return held.dims();
            }
        }
        &[]
    }

    /// The values of all these names.
    #[tactic(auto, using(crate::proofs::Puts::values_suc))]
    pub(crate) fn values(&self, alloc: Global, names: &[ValueNo]) -> Result<Items<Val>, AllocError>
        ensures { IfOk result (λ vs. vs ≡ values_at self.now names.now) }
    {
        let mut vals = Items::new(alloc);
        for i in 0..names.len() {
            vals.push(self.value(alloc, names, i)?)?;
        }
        Ok(vals)
    }

    /// The values of all these names as numbers.
    #[tactic(auto, using(crate::proofs::Puts::numbers_suc))]
    pub(crate) fn numbers(&self, alloc: Global, names: &[ValueNo]) -> Result<Items<u64>, AllocError>
        ensures { IfOk result (λ ns. ns ≡ numbers (values_at self.now names.now)) }
    {
        let mut all = Items::new(alloc);
        for i in 0..names.len() {
            all.push(self.number(names, i))?;
        }
        Ok(all)
    }

    /// Gives these values their names, one after another.
    pub(crate) fn bind(&mut self, names: &[ValueNo], vals: Items<Val>) -> Result<(), AllocError>
        ensures { OnOk result (self.new ≡ bind names.now vals self.old) }
    {
        let mut left = names;
        for val in vals.into_vec() {
            let Some((name, more)) = left.split_first() else {
                return Ok(());
            };
            self.put(*name, val)?;
            left = more;
        }
        Ok(())
    }

    /// The same values, in the same leaves.
    pub(crate) fn copy(&self, alloc: Global) -> Result<Env, AllocError>
        ensures { IfOk result (λ copy. copy ≡ self.now) }
    {
        let table = self.table.share(alloc)?;
        Ok(Env {
            alloc,
            len: self.len,
            table,
        })
    }
}
