//! A function under way: where its blocks come to stand, and which registers are made.
ghost use Rattle.std.specs.Prelude.{◌≡◌, ◌<◌, ◌^◌, ◌++◌, IfOk, OnOk};
ghost use Rattle.coro_lower.specs.Layout as spec;
ghost use Rattle.coro_lower.specs.Registers as regs;

use crate::label::Label;
use crate::layout::{goes, keys, layout};
use low_forms::{LowFunc, Reg};
use register_numbers::Places;
use std::alloc::{AllocError, Global};
use std::marker::Model;

/// A function with the places of the blocks that are made of it. Contracts see it as the function.
#[derive(Drop)]
pub(crate) struct Plan<'a> {
    func: &'a LowFunc,
    awaits: Places,
    labels: Vec<Label>,
    places: Places,
}

impl<'a> Model for Plan<'a> {
    ghost use Rattle.std.specs.Prelude.{◌≡◌, map};
    ghost use Rattle.std.specs.Coded.{codes};
    ghost use Rattle.low_forms.specs.declared.code.LowFunc.{LowFunc};
    ghost use Rattle.low_forms.specs.contracts.code.LowFunc as code;
    ghost use Rattle.coro_lower.specs.Layout.{goes, layout, key};

    ghost Value = { LowFunc };

    ghost coded = { Prim.hlevel (codes, code.the_row.coded) };

    ghost view = { λ p. p.func.now };

    ghost invariant = { λ p.
        (p.awaits ≡ goes p.func.now) × (p.labels.items ≡ layout p.func.now) × (p.places ≡ map key (layout p.func.now)) };
}

/// A length that is a number of registers or blocks.
pub(crate) fn counted(len: usize) -> Result<u64, AllocError>
    ensures { IfOk result (λ count. (count ≡ len) × (count < 2 ^ 32)) }
{
    let count = u32::try_from(len).ok().ok_or(AllocError)?;
    Ok(count as u64)
}

fn reg(number: u64) -> Result<Reg, AllocError>
    ensures { IfOk result (λ made. made ≡ regs.reg number) }
{
    let number = u32::try_from(number).ok().ok_or(AllocError)?;
    Ok(Reg(number))
}

impl<'a> Plan<'a> {
    pub(crate) fn of(alloc: Global, func: &'a LowFunc) -> Result<Plan<'a>, AllocError>
        ensures { IfOk result (λ plan. plan ≡ func.now) }
    {
        let awaits = Places::of(alloc, goes(alloc, func)?)?;
        let labels = layout(alloc, func, &awaits)?;
        let places = Places::of(alloc, keys(alloc, &labels)?)?;
        Ok(Plan {
            func,
            awaits,
            labels,
            places,
        })
    }

    pub(crate) fn func(&self) -> &'a LowFunc
        ensures { result.now ≡ self.now }
    {
        self.func
    }

    pub(crate) fn labels(&self) -> &[Label]
        ensures { result.now ≡ spec.layout self.now }
    {
        &self.labels
    }

    pub(crate) fn place(&self, label: Label) -> u32
        ensures { result ≡ spec.place self.now label }
    {
        self.places.place(label.key())
    }

    /// The block whose await goes on in this one.
    pub(crate) fn awaiting(&self, block: u32) -> Option<u32>
        ensures { result ≡ spec.awaiting self.now block }
    {
        self.awaits.find(block as u64)
    }

    /// Whether what the block awaits is in error.
    pub(crate) fn flag(&self, block: u32) -> Result<Reg, AllocError>
        ensures { IfOk result (λ made. made ≡ regs.flag self.now block) }
    {
        reg(counted(self.func.regs.len())? + block as u64)
    }

    /// The state that the block saves.
    pub(crate) fn saved(&self, block: u32) -> Result<Reg, AllocError>
        ensures { IfOk result (λ made. made ≡ regs.saved self.now block) }
    {
        let own = counted(self.func.regs.len())?;
        reg(own + counted(self.func.blocks.len())? + block as u64)
    }

    /// The object of this number, and what is made behind the objects.
    pub(crate) fn made(&self, number: u64) -> Result<Reg, AllocError>
        requires { number < 2 ^ 33 }
        ensures { IfOk result (λ made. made ≡ regs.made self.now number) }
    {
        let own = counted(self.func.regs.len())?;
        reg(own + 2 * counted(self.func.blocks.len())? + number)
    }

    pub(crate) fn token(&self) -> Result<Reg, AllocError>
        ensures { IfOk result (λ made. made ≡ regs.token self.now) }
    {
        self.made(0)
    }

    pub(crate) fn identity(&self) -> Result<Reg, AllocError>
        ensures { IfOk result (λ made. made ≡ regs.identity self.now) }
    {
        self.made(counted(self.func.results.len())? + 1)
    }

    pub(crate) fn handle(&self) -> Result<Reg, AllocError>
        ensures { IfOk result (λ made. made ≡ regs.handle self.now) }
    {
        self.made(counted(self.func.results.len())? + 2)
    }

    /// The state that the entry saves.
    pub(crate) fn first_saved(&self) -> Result<Reg, AllocError>
        ensures { IfOk result (λ made. made ≡ regs.first_saved self.now) }
    {
        self.made(counted(self.func.results.len())? + 3)
    }

    /// Adds the registers of the values.
    pub(crate) fn push_values(&self, values: &mut Vec<Reg>) -> Result<(), AllocError>
        ensures { OnOk result (values.new.items ≡ values.old.items ++ regs.values self.now) }
    {
        for (k, _ty) in self.func.results.as_slice().iter().enumerate() {
            let value = self.made(counted(k)? + 1)?;
            values.push(value)?;
        }
        Ok(())
    }
}
