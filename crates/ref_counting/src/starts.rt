//! Drops where blocks begin.
ghost use Rattle.std.specs.Prelude.{◌≡◌, ◌∷◌, ◌++◌, [], IfOk, OnOk};
ghost use Rattle.std.specs.Option.{option_copied};
ghost use Rattle.low_forms.specs.Rows.{row_of};
ghost use Rattle.ref_counting.specs.Objects as spec;
ghost use Rattle.ref_counting.specs.Shape as shape;

use crate::copies::drop_ref;
use crate::objects::names;
use crate::plan::Plan;
use lists::Items;
use low_forms::{Block, Instr, Reg, Target, Targets, Term, low_row};
use std::alloc::{AllocError, Global};

fn first_target(targets: &[Target]) -> Option<u32>
    ensures { result ≡ shape.first_target targets.now }
{
    match targets {
        [target, _more @ ..] => Some(target.block.0),
        [] => None,
    }
}

fn suspends_to(term: &Term) -> Option<u32>
    ensures { result ≡ shape.suspends_to (row_of term.now.instr.kind).targets term.now.targets }
{
    match low_row(term.instr.kind).targets {
        Targets::Suspend => first_target(term.targets.as_slice()),
        _ => None,
    }
}

/// Where the frame that launches goes on.
fn suspended(blocks: &[Block]) -> Option<u32>
    ensures { result ≡ shape.suspended blocks.now }
{
    match blocks {
        [block, _more @ ..] => suspends_to(&block.term),
        [] => None,
    }
}

fn is_this(block: usize, other: Option<u32>) -> bool
    ensures { result ≡ shape.is_this block other }
{
    match other {
        Some(other) => other as usize == block,
        None => false,
    }
}

impl<'a> Plan<'a> {
    /// Where the edges of the one block lead that stands before.
    fn beside(&self, block: usize) -> &[usize]
        ensures { result.now ≡ shape.beside self.now block }
    {
        match self.before(block) {
            [before] => self.edges(*before),
            _ => &[],
        }
    }

    fn is_lost(&self, block: usize, others: &[usize], number: usize) -> Result<bool, AllocError>
        ensures { IfOk result (λ lost. lost ≡ shape.is_lost self.now block others.now number) }
    {
        if self.is_live_over(number, others)? {
            return Ok(!self.is_live_into(number, block)?);
        }
        Ok(false)
    }

    fn ends_here(
        &self,
        block: usize,
        params: &[Reg],
        others: &[usize],
        number: usize,
    ) -> Result<bool, AllocError>
        ensures { IfOk result (λ ends. ends ≡ shape.ends_here self.now block params.now others.now number) }
    {
        if names(params, number) {
            if self.is_live(block, 0, number)? {
                return self.is_lost(block, others, number);
            }
            return Ok(true);
        }
        self.is_lost(block, others, number)
    }

    fn push_dropped_one(
        &self,
        alloc: Global,
        instrs: &mut Items<Instr>,
        block: usize,
        params: &[Reg],
        others: &[usize],
        number: usize,
    ) -> Result<(), AllocError>
        ensures { OnOk result (instrs.new ≡ instrs.old ++ shape.dropped_one self.now block params.now others.now number) }
    {
        if self.ends_here(block, params, others, number)? {
            return instrs.push(drop_ref(alloc, number)?);
        }
        Ok(())
    }

    fn push_dropped(
        &self,
        alloc: Global,
        instrs: &mut Items<Instr>,
        block: usize,
        params: &[Reg],
        others: &[usize],
        counted: &[usize],
    ) -> Result<(), AllocError>
        ensures { OnOk result (instrs.new ≡ instrs.old ++ shape.dropped_here self.now block params.now others.now counted.now) }
    {
        for number in counted {
            self.push_dropped_one(alloc, instrs, block, params, others, *number)?;
        }
        Ok(())
    }

    fn push_first(
        &self,
        alloc: Global,
        instrs: &mut Items<Instr>,
        block: usize,
        counted: &[usize],
    ) -> Result<(), AllocError>
        requires { counted.now ≡ spec.counted self.now }
        ensures { OnOk result (instrs.new ≡ instrs.old ++ shape.dropped_first self.now block) }
    {
        if block == 0 {
            let params = self.func().params.as_slice();
            return self.push_dropped(alloc, instrs, 0, params, &[], counted);
        }
        Ok(())
    }

    fn push_dropped_at(
        &self,
        alloc: Global,
        instrs: &mut Items<Instr>,
        block: usize,
        code: &Block,
        counted: &[usize],
    ) -> Result<(), AllocError>
        requires { counted.now ≡ spec.counted self.now }
        ensures { OnOk result (instrs.new ≡ instrs.old ++ shape.dropped_at self.now block code.now) }
    {
        if is_this(block, suspended(self.func().blocks.as_slice())) {
            return Ok(());
        }
        let params = code.params.as_slice();
        self.push_dropped(alloc, instrs, block, params, self.beside(block), counted)
    }

    /// Adds the drops where a block begins.
    pub(crate) fn push_starts(
        &self,
        alloc: Global,
        instrs: &mut Items<Instr>,
        block: usize,
        code: &Block,
        counted: &[usize],
    ) -> Result<(), AllocError>
        requires { counted.now ≡ spec.counted self.now }
        ensures { OnOk result (instrs.new ≡ instrs.old ++ shape.starts self.now block code.now) }
    {
        self.push_first(alloc, instrs, block, counted)?;
        self.push_dropped_at(alloc, instrs, block, code, counted)
    }
}
