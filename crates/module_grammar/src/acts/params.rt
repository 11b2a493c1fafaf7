//! Parameters whose types their form gives in a list.
ghost use Rattle.std.specs.Prelude.{◌≡◌, length, IfOk, OnOk};
ghost use Rattle.module_grammar.specs.State.{does, typed_by, is_untyped};
ghost use Rattle.module_grammar.specs.declared.symbols.Act.TheVariants as act;

use crate::state::{OpenOp, Param, State};
use ir_forms::{Ty, copy_type};
use name_lists::NameList;
use std::alloc::{AllocError, Global};
use std::mem;

fn is_untyped(ty: &Ty) -> bool
    ensures { result ≡ is_untyped ty.now }
{
    matches!(ty, Ty::Untyped)
}

/// The parameters, of which those without a type get these types, in order.
fn typed_by<'a>(
    alloc: Global,
    params: &[Param<'a>],
    types: &[Ty],
) -> Result<NameList<Param<'a>>, AllocError>
    ensures { IfOk result (λ typed. typed ≡ typed_by params.now types.now) }
{
    let mut typed = NameList::new(alloc);
    let mut at = 0;
    for param in params {
        let name = param.name.copy();
        if is_untyped(&param.ty) && at < types.len() {
            let ty = copy_type(alloc, &types[at])?;
            typed.push(alloc, Param { name, ty })?;
            at += 1;
        } else {
            let ty = copy_type(alloc, &param.ty)?;
            typed.push(alloc, Param { name, ty })?;
        }
    }
    Ok(typed)
}

/// The parameters of the operation, of which those without a type get those of the results.
fn typed_by_results<'a>(alloc: Global, op: &OpenOp<'a>) -> Result<NameList<Param<'a>>, AllocError>
    ensures { IfOk result (λ typed. typed ≡ typed_by op.now.params op.now.types) }
{
    typed_by(alloc, op.params.as_slice(), op.types.as_slice())
}

/// The same, with the types that the form writes for the operands.
fn typed_by_written<'a>(alloc: Global, op: &OpenOp<'a>) -> Result<NameList<Param<'a>>, AllocError>
    ensures { IfOk result (λ typed. typed ≡ typed_by op.now.params op.now.written) }
{
    typed_by(alloc, op.params.as_slice(), op.written.as_slice())
}

#[tactic(auto, unfolding(crate::specs::State::does))]
impl<'a> State<'a> {
    pub(crate) fn result_params(&mut self, alloc: Global) -> Result<(), AllocError>
        ensures { OnOk result (self.new ≡ does act.ResultParams self.old) }
    {
        let typed = typed_by_results(alloc, &self.op)?;
        let _untyped = mem::replace(&mut self.op.params, typed);
        Ok(())
    }

    pub(crate) fn written_params(&mut self, alloc: Global) -> Result<(), AllocError>
        ensures { OnOk result (self.new ≡ does act.WrittenParams self.old) }
    {
        let typed = typed_by_written(alloc, &self.op)?;
        let _untyped = mem::replace(&mut self.op.params, typed);
        Ok(())
    }
}
