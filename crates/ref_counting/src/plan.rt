//! A function under way: what is live in it, and which of its registers are counted.
ghost use Rattle.std.specs.Prelude.{◌≡◌, ◌+◌, ◌∷◌, ◌++◌, [], IfOk, OnOk, Some, slice_get};
ghost use Rattle.low_flow.specs.Lists.{list_at};
ghost use Rattle.low_forms.specs.Edges.{edges};
ghost use Rattle.liveness.specs.Flow.{before};
ghost use Rattle.live_truths.specs.Truths as truths;
ghost use Rattle.ref_counting.specs.Objects as spec;
ghost use Rattle.ref_counting.specs.Shape as shape;

use crate::objects::{created, has, is_object, names};
use crate::order::add_number;
use lists::Items;
use liveness::LiveMap;
use liveness::before::{before, list_at};
use low_forms::edges::edges;
use low_forms::{LowFunc, Reg};
use std::alloc::{AllocError, Global};
use std::marker::Model;

/// A function, with what is live in it. Contracts see it as the function.
#[derive(Drop)]
pub(crate) struct Plan<'a> {
    map: &'a LiveMap<'a>,
    func: &'a LowFunc,
    number: u32,
    made: Vec<usize>,
    targets: Vec<Items<usize>>,
    sources: Vec<Items<usize>>,
}

impl<'a> Model for Plan<'a> {
    ghost use Rattle.std.specs.Prelude.{◌≡◌, Some, slice_get};
    ghost use Rattle.std.specs.Coded.{codes};
    ghost use Rattle.low_forms.specs.declared.code.LowFunc.{LowFunc};
    ghost use Rattle.low_forms.specs.contracts.code.LowFunc as code;
    ghost use Rattle.low_forms.specs.Edges.{edges};
    ghost use Rattle.liveness.specs.Flow.{before};
    ghost use Rattle.ref_counting.specs.Objects.{created};

    ghost Value = { LowFunc };

    ghost coded = { Prim.hlevel (codes, code.the_row.coded) };

    ghost view = { λ p. p.func.now };

    ghost invariant = { λ p.
        (slice_get p.map.now.funcs p.number ≡ Some p.func.now) × (p.made.items ≡ created p.func.now)
        × (p.targets.items ≡ edges p.func.now) × (p.sources.items ≡ before (edges p.func.now)) };
}

fn short(number: usize) -> Result<u32, AllocError>
    ensures { IfOk result (λ same. same ≡ number) }
{
    u32::try_from(number).ok().ok_or(AllocError)
}

impl<'a> Plan<'a> {
    pub(crate) fn of(
        alloc: Global,
        map: &'a LiveMap<'a>,
        func: &'a LowFunc,
        number: u32,
    ) -> Result<Plan<'a>, AllocError>
        requires { slice_get map.now.funcs number ≡ Some func.now }
        ensures { IfOk result (λ plan. plan ≡ func.now) }
    {
        let made = created(alloc, func)?;
        let targets = edges(alloc, func)?;
        let sources = before(alloc, &targets)?;
        Ok(Plan {
            map,
            func,
            number,
            made,
            targets,
            sources,
        })
    }

    pub(crate) fn func(&self) -> &'a LowFunc
        ensures { result.now ≡ self.now }
    {
        self.func
    }

    /// Where the edges of a block lead.
    pub(crate) fn edges(&self, block: usize) -> &[usize]
        ensures { result.now ≡ list_at (edges self.now) block }
    {
        list_at(&self.targets, block)
    }

    /// From where edges lead to a block.
    pub(crate) fn before(&self, block: usize) -> &[usize]
        ensures { result.now ≡ list_at (before (edges self.now)) block }
    {
        list_at(&self.sources, block)
    }

    // ---- counted registers

    pub(crate) fn is_counted(&self, number: usize) -> bool
        ensures { result ≡ spec.is_counted self.now number }
    {
        match self.func.regs.get(number) {
            Some(ty) => is_object(ty) && !has(&self.made, number),
            None => false,
        }
    }

    /// The counted registers, by number.
    pub(crate) fn counted(&self, alloc: Global) -> Result<Vec<usize>, AllocError>
        ensures { IfOk result (λ list. list.items ≡ spec.counted self.now) }
    {
        let mut list = Vec::new(alloc);
        for (number, _ty) in self.func.regs.as_slice().iter().enumerate() {
            if self.is_counted(number) {
                list.push(number)?;
            }
        }
        Ok(list)
    }

    /// Adds the counted ones of these registers, by number.
    pub(crate) fn add_counted(&self, list: &mut Vec<usize>, regs: &[Reg]) -> Result<(), AllocError>
        ensures { OnOk result (list.new.items ≡ spec.with_counted self.now regs.now list.old.items) }
    {
        for reg in regs {
            if self.is_counted(reg.0 as usize) {
                add_number(list, reg.0 as usize)?;
            }
        }
        Ok(())
    }

    // ---- live registers

    /// Whether a register is live at a place.
    #[tactic(auto, using(crate::proofs::LiveLemmas::reg_in))]
    pub(crate) fn is_live(
        &self,
        block: usize,
        row: usize,
        number: usize,
    ) -> Result<bool, AllocError>
        ensures { IfOk result (λ live. live ≡ truths.is_live self.now block row number) }
    {
        if number < self.func.regs.len() {
            let block = short(block)?;
            let row = short(row)?;
            let number = short(number)?;
            return Ok(self.map.at(self.number, block, row, Reg(number)));
        }
        Ok(false)
    }

    fn is_param(&self, block: usize, number: usize) -> bool
        ensures { result ≡ shape.is_param_of self.now block number }
    {
        match self.func.blocks.get(block) {
            Some(block) => names(block.params.as_slice(), number),
            None => false,
        }
    }

    /// Whether a register is live where a block begins, and none of its parameters.
    pub(crate) fn is_live_into(&self, number: usize, block: usize) -> Result<bool, AllocError>
        ensures { IfOk result (λ live. live ≡ shape.is_live_into self.now number block) }
    {
        if self.is_param(block, number) {
            return Ok(false);
        }
        self.is_live(block, 0, number)
    }

    /// Whether a register is live over an edge to one of these blocks.
    pub(crate) fn is_live_over(&self, number: usize, blocks: &[usize]) -> Result<bool, AllocError>
        ensures { IfOk result (λ live. live ≡ shape.is_live_over self.now number blocks.now) }
    {
        for block in blocks {
            if self.is_live_into(number, *block)? {
                return Ok(true);
            }
        }
        Ok(false)
    }
}
