//! Functions and modules as blocks.
ghost use Rattle.std.specs.Prelude.{◌≡◌, ◌+◌, ◌++◌, length, IfOk, OnOk, map};
ghost use Rattle.std.specs.Option.{option_copied};
ghost use Rattle.ir_forms.specs.Ops.{ops_of};
ghost use Rattle.scf_blocks.specs.declared.body.Close.TheVariants.{Returns};
ghost use Rattle.scf_blocks.specs.Tree.{tree};
ghost use Rattle.scf_blocks.specs.Code as code;
ghost use Rattle.scf_blocks.specs.Bodies.{begun, defined, finished};
ghost use Rattle.scf_blocks.specs.Lowered as shape;
ghost use Rattle.scf_blocks.specs.Lowered.{ends_task, is_task_yield, with_failures};

use crate::body::{Body, Close, Failure, number, plus};
use crate::count::count_ops;
use crate::terms::{fails_with, passes_on};
use ir_forms::{Func, Module, Op, Ty, Width, copy_types};
use ir_verify::Names;
use lists::Items;
use low_forms::{Block, LowFunc, LowModule, Reg};
use op_table::Form;
use std::alloc::{AllocError, Global};

fn is_task_yield(form: Form) -> bool
    ensures { result ≡ is_task_yield form }
{
    matches!(form, Form::TaskYield)
}

/// Whether a body with this last operation is a task's: it is `async.yield`.
fn ends_task(last: Option<&Op>) -> bool
    ensures { result ≡ ends_task (option_copied last.entry) }
{
    match last {
        Some(op) => is_task_yield(op.kind.form()),
        None => false,
    }
}

fn failure_block(alloc: Global, reg: Reg, failure: Failure) -> Result<Block, AllocError>
    ensures { IfOk result (λ block. block ≡ code.failure_block reg.0 failure) }
{
    match failure {
        Failure::Constant(at) => fails_with(alloc, reg, at),
        Failure::Passed => passes_on(alloc, reg),
    }
}

impl Body {
    /// Writes all operations of a function, and gives the registers of its parameters.
    fn write_func(
        &mut self,
        alloc: Global,
        callees: &Names<'_>,
        func: &Func,
    ) -> Result<Items<Reg>, AllocError>
        ensures { IfOk result (λ params. (params ≡ code.regs_from (length self.old.types) func.now.params) × (self.new ≡ finished callees.now (defined func.now.params self.old) (defined func.now.params self.old).scope Returns (tree (ops_of func.now.body)))) }
    {
        let params = self.define_params(alloc, func.params.as_slice())?;
        self.operations(alloc, callees, func.body.ops.as_slice(), Close::Returns)?;
        Ok(params)
    }

    /// Writes the next failure block.
    fn write_failure(&mut self, alloc: Global, failure: Failure) -> Result<(), AllocError>
        ensures { OnOk result (self.new ≡ shape.with_failure failure self.old) }
    {
        let reg = self.make(Ty::Int(Width::W64))?;
        self.done.push(failure_block(alloc, reg, failure)?)
    }

    fn write_each(&mut self, alloc: Global, failures: &[Failure]) -> Result<(), AllocError>
        ensures { OnOk result (self.new ≡ with_failures failures.now self.old) }
    {
        for failure in failures {
            self.write_failure(alloc, *failure)?;
        }
        Ok(())
    }

    /// Writes the failure blocks.
    fn write_failures(&mut self, alloc: Global) -> Result<(), AllocError>
        ensures { OnOk result (self.new ≡ with_failures self.old.failures self.old) }
    {
        let failures = Items::from_slice(alloc, self.failures.as_slice())?;
        self.write_each(alloc, failures.as_slice())
    }

    /// Writes a function, its failure blocks last, and gives the registers of its parameters.
    fn write_all(
        &mut self,
        alloc: Global,
        callees: &Names<'_>,
        func: &Func,
    ) -> Result<Items<Reg>, AllocError>
        ensures { IfOk result (λ params. (params ≡ code.regs_from (length self.old.types) func.now.params) × (self.new ≡ shape.with_func callees.now func.now self.old)) }
    {
        let params = self.write_func(alloc, callees, func)?;
        self.write_failures(alloc)?;
        Ok(params)
    }
}

#[tactic(auto, using(crate::proofs::Funcs::func_law))]
fn lowered_func(alloc: Global, callees: &Names<'_>, func: &Func) -> Result<LowFunc, AllocError>
    ensures { IfOk result (λ low. low ≡ shape.lowered_func callees.now func.now) }
{
    let blocks = count_ops(func.body.ops.as_slice())?;
    let first_failure = number(plus(blocks, 1)?)?;
    let name = Items::from_slice(alloc, func.name.as_slice())?;
    let results = copy_types(alloc, func.results.as_slice())?;
    let mut body = Body::begin(alloc, first_failure);
    match body.write_all(alloc, callees, func) {
        Ok(params) => {
            let Body { done, types, .. } = body;
            Ok(LowFunc {
                name,
                coroutine: ends_task(func.body.ops.as_slice().last()),
                params,
                results,
                regs: types,
                blocks: done,
            })
        }
        Err(error) => Err(error),
    }
}

/// The functions of a module of level Split as blocks, with the high rows for launches and awaits. A function with 2^32
/// registers or blocks is want of memory.
pub fn blocks_of_module(alloc: Global, program: &Module) -> Result<LowModule, AllocError>
    ensures { IfOk result (λ low. low ≡ shape.lowered program.now) }
{
    let callees = Names::new(alloc, program.funcs.as_slice())?;
    let mut funcs = Items::new(alloc);
    for func in program.funcs.as_slice() {
        funcs.push(lowered_func(alloc, &callees, func)?)?;
    }
    Ok(LowModule { funcs })
}
