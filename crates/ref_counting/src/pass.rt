//! The pass.
ghost use Rattle.std.specs.Prelude.{◌≡◌, Some, slice_get, map, IfOk};
ghost use Rattle.ref_counting.specs.Objects as spec;
ghost use Rattle.ref_counting.specs.Shape as shape;

use crate::copies::copy_term;
use crate::plan::Plan;
use ir_forms::copy_types;
use lists::Items;
use liveness::{LiveMap, Steps, live};
use low_forms::{Block, LowFunc, LowModule};
use std::alloc::{AllocError, Global};
use std::marker::Brand;
use std::sync::ledger::{Blank, Ledger};

impl<'a> Plan<'a> {
    fn counted_block(
        &self,
        alloc: Global,
        block: usize,
        code: &Block,
        counted: &[usize],
    ) -> Result<Block, AllocError>
        requires { counted.now ≡ spec.counted self.now }
        ensures { IfOk result (λ made. made ≡ shape.counted_block self.now block code.now) }
    {
        let mut instrs = Items::new(alloc);
        self.push_starts(alloc, &mut instrs, block, code, counted)?;
        self.push_rows(alloc, &mut instrs, block, code.instrs.as_slice())?;
        self.push_ends(alloc, &mut instrs, block, &code.term)?;
        let params = Items::from_slice(alloc, code.params.as_slice())?;
        let term = copy_term(alloc, &code.term)?;
        Ok(Block {
            params,
            instrs,
            term,
        })
    }

    fn counted_blocks(&self, alloc: Global) -> Result<Items<Block>, AllocError>
        ensures { IfOk result (λ made. made ≡ shape.counted_blocks self.now 0 self.now.blocks) }
    {
        let counted = self.counted(alloc)?;
        let mut blocks = Items::new(alloc);
        for (at, block) in self.func().blocks.as_slice().iter().enumerate() {
            blocks.push(self.counted_block(alloc, at, block, &counted)?)?;
        }
        Ok(blocks)
    }
}

/// A function with these blocks in place of its own.
fn with_blocks(alloc: Global, func: &LowFunc, blocks: Items<Block>) -> Result<LowFunc, AllocError>
    ensures { IfOk result (λ made. made ≡ record func.now { blocks = blocks }) }
{
    let name = Items::from_slice(alloc, func.name.as_slice())?;
    let params = Items::from_slice(alloc, func.params.as_slice())?;
    let results = copy_types(alloc, func.results.as_slice())?;
    let regs = copy_types(alloc, func.regs.as_slice())?;
    Ok(LowFunc {
        name,
        coroutine: func.coroutine,
        params,
        results,
        regs,
        blocks,
    })
}

#[tactic(auto, unfolding(crate::specs::Shape::counted_func))]
fn counted_func(
    alloc: Global,
    map: &LiveMap,
    func: &LowFunc,
    number: usize,
) -> Result<LowFunc, AllocError>
    requires { slice_get map.now.funcs number ≡ Some func.now }
    ensures { IfOk result (λ made. made ≡ shape.counted_func func.now) }
{
    let number = u32::try_from(number).ok().ok_or(AllocError)?;
    let plan = Plan::of(alloc, map, func, number)?;
    let blocks = plan.counted_blocks(alloc)?;
    with_blocks(alloc, func, blocks)
}

#[tactic(auto, using(std::proofs::lemmas::Option::slice_get_read))]
fn counted_code<L: Ledger>(
    alloc: Global,
    code: &LowModule,
    blank: Blank,
) -> Result<LowModule, AllocError>
    requires name { blank.name ≡ L.name }
    requires parts { blank.parts ≡ L.parts }
    requires one { L.parts ≡ 1 }
    ensures { IfOk result (λ made. made ≡ shape.counted_code code.now) }
{
    let mut steps = Steps::<L>::new(blank);
    let map = live(alloc, code, &mut steps)?;
    let mut funcs = Items::new(alloc);
    for (number, func) in code.funcs.as_slice().iter().enumerate() {
        funcs.push(counted_func(alloc, &map, func, number)?)?;
    }
    Ok(LowModule { funcs })
}

/// Places `async.runtime.add_ref` and `async.runtime.drop_ref`: before an instruction that takes references, behind one
/// after which a register isn't live, and where a block begins in which a register isn't live that is live in another
/// block behind the same one. What a coroutine creates is left alone.
///
/// # Errors
///
/// Where there is no memory, or where a function has more blocks, or a block more instructions, than there are numbers.
pub fn place_counts(alloc: Global, code: LowModule) -> Result<LowModule, AllocError>
    ensures { IfOk result (λ made. made ≡ shape.counted_code code) }
{
    counted_code::<Brand>(alloc, &code, Blank::new(1))
}
