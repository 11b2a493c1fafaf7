//! The body of a function under way.
ghost use Rattle.std.specs.Prelude.{◌≡◌, ◌+◌, ◌++◌, ◌∷◌, [], length, IfOk, OnOk};
ghost use Rattle.ir_forms.specs.declared.types.Ty.{Ty};
ghost use Rattle.scf_blocks.specs.Tree.{typed};
ghost use Rattle.scf_blocks.specs.Code.{reg_no, block_no, regs, regs_from};
ghost use Rattle.scf_blocks.specs.Bodies.{begun, defined, ended, failing, made, next_block, next_failure, next_reg, opened, written};

use crate::parts::type_at;
use crate::scope::Scope;
use ir_forms::{Ty, ValueNo, copy_type};
use lists::Items;
use low_forms::{Block, BlockNo, Instr, Reg, Term};
use std::alloc::{AllocError, Global};
use std::mem;

/// What can fail: an operation, whose number is the code, or a call, which passes its callee's code on.
#[derive(Clone, Copy)]
pub enum Failure {
    Constant(u32),
    Passed,
}

/// How a region ends with its values: the function returns them, another block takes them, a counted loop's next turn
/// takes them, or a while loop goes on or ends by its condition.
#[derive(Clone, Copy)]
pub enum Close {
    Returns,
    Joins(BlockNo),
    Repeats {
        head: BlockNo,
        variable: Reg,
        step: Reg,
    },
    Decides {
        after: BlockNo,
        exit: BlockNo,
    },
}

/// The body of a function under way: the blocks that are closed, the parameters and instructions of the open one, the
/// types of all registers, what can fail so far, the number of the first failure block, and the values that are visible.
#[derive(Drop)]
pub struct Body {
    pub done: Items<Block>,
    pub params: Items<Reg>,
    pub instrs: Items<Instr>,
    pub types: Items<Ty>,
    pub failures: Items<Failure>,
    pub first_failure: u32,
    pub scope: Scope,
}

/// A number of a register or a block. Past 2^32 it is want of memory.
pub(crate) fn number(count: usize) -> Result<u32, AllocError>
    ensures { IfOk result (λ n. n ≡ count) }
{
    u32::try_from(count).ok().ok_or(AllocError)
}

pub(crate) fn plus(a: usize, b: usize) -> Result<usize, AllocError>
    ensures { IfOk result (λ sum. sum ≡ a + b) }
{
    a.checked_add(b).ok_or(AllocError)
}

impl Body {
    /// An open block without parameters, before its first instruction.
    pub(crate) fn begin(alloc: Global, first_failure: u32) -> Body
        ensures { result ≡ begun first_failure }
    {
        Body {
            done: Items::new(alloc),
            params: Items::new(alloc),
            instrs: Items::new(alloc),
            types: Items::new(alloc),
            failures: Items::new(alloc),
            first_failure,
            scope: Scope::new(alloc),
        }
    }

    /// The block that stands so many behind the open one.
    pub(crate) fn next_block(&self, ahead: usize) -> Result<BlockNo, AllocError>
        ensures { IfOk result (λ block. block ≡ next_block self.now ahead) }
    {
        let place = plus(self.done.len(), ahead)?;
        Ok(BlockNo(number(place)?))
    }

    pub(crate) fn next_reg(&self) -> Result<Reg, AllocError>
        ensures { IfOk result (λ reg. reg ≡ next_reg self.now) }
    {
        Ok(Reg(number(self.types.len())?))
    }

    pub(crate) fn next_failure(&self) -> Result<BlockNo, AllocError>
        ensures { IfOk result (λ block. block ≡ next_failure self.now) }
    {
        let place = plus(self.first_failure as usize, self.failures.len())?;
        Ok(BlockNo(number(place)?))
    }

    /// The registers of these values.
    #[tactic(auto, using(crate::proofs::Lists::regs_next, crate::proofs::Lists::regs_end))]
    pub(crate) fn regs(&self, alloc: Global, values: &[ValueNo]) -> Result<Items<Reg>, AllocError>
        ensures { IfOk result (λ list. list ≡ regs self.now.scope values.now) }
    {
        let mut list = Items::new(alloc);
        for value in values {
            list.push(self.scope.reg(*value))?;
        }
        Ok(list)
    }

    /// Makes a register that no value has.
    pub(crate) fn make(&mut self, ty: Ty) -> Result<Reg, AllocError>
        ensures { IfOk result (λ reg. (reg ≡ next_reg self.old) × (self.new ≡ made ty self.old)) }
    {
        let reg = self.next_reg()?;
        self.types.push(ty)?;
        Ok(reg)
    }

    /// Makes a value's register.
    fn define(&mut self, value: ValueNo, ty: Ty) -> Result<Reg, AllocError>
        ensures { IfOk result (λ reg. (reg ≡ next_reg self.old) × (self.new ≡ defined ((value, ty) ∷ []) self.old)) }
    {
        let reg = self.make(ty)?;
        self.scope.define(value, reg)?;
        Ok(reg)
    }

    /// Makes the registers of parameters.
    pub(crate) fn define_params(
        &mut self,
        alloc: Global,
        params: &[(ValueNo, Ty)],
    ) -> Result<Items<Reg>, AllocError>
        ensures { IfOk result (λ list. (list ≡ regs_from (length self.old.types) params.now) × (self.new ≡ defined params.now self.old)) }
    {
        let mut list = Items::new(alloc);
        for param in params {
            let ty = copy_type(alloc, &param.1)?;
            list.push(self.define(param.0, ty)?)?;
        }
        Ok(list)
    }

    /// Makes the registers of results. One that has no type is untyped.
    pub(crate) fn define_results(
        &mut self,
        alloc: Global,
        results: &[ValueNo],
        types: &[Ty],
    ) -> Result<Items<Reg>, AllocError>
        ensures { IfOk result (λ list. (list ≡ regs_from (length self.old.types) (typed results.now types.now)) × (self.new ≡ defined (typed results.now types.now) self.old)) }
    {
        let mut list = Items::new(alloc);
        for place in 0..results.len() {
            let ty = type_at(alloc, types, place)?;
            list.push(self.define(results[place], ty)?)?;
        }
        Ok(list)
    }

    /// Adds an instruction to the open block.
    pub(crate) fn write(&mut self, instr: Instr) -> Result<(), AllocError>
        ensures { OnOk result (self.new ≡ written instr self.old) }
    {
        self.instrs.push(instr)
    }

    /// Adds what can fail.
    pub(crate) fn fail_at(&mut self, failure: Failure) -> Result<(), AllocError>
        ensures { OnOk result (self.new ≡ failing failure self.old) }
    {
        self.failures.push(failure)
    }

    /// Ends the open block, and opens one without parameters.
    pub(crate) fn end_block(&mut self, alloc: Global, term: Term) -> Result<(), AllocError>
        ensures { OnOk result (self.new ≡ ended term self.old) }
    {
        let params = mem::replace(&mut self.params, Items::new(alloc));
        let instrs = mem::replace(&mut self.instrs, Items::new(alloc));
        self.done.push(Block {
            params,
            instrs,
            term,
        })
    }

    /// Gives the open block its parameters.
    pub(crate) fn open(&mut self, params: Items<Reg>)
        ensures { self.new ≡ opened params self.old }
    {
        self.params = params;
    }
}
