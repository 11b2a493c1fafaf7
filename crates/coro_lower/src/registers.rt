//! The types of the registers that the pass makes.
ghost use Rattle.std.specs.Prelude.{◌≡◌, ◌++◌, map, IfOk, OnOk};
ghost use Rattle.ir_forms.specs.declared.types.Ty.TheVariants as ty;
ghost use Rattle.coro_lower.specs.Registers as regs;

use ir_forms::{Ty, ValTy, Width, copy_memref, copy_types};
use lists::Items;
use low_forms::{Block, LowFunc};
use std::alloc::{AllocError, Global};

fn value_type(alloc: Global, ty: &Ty) -> Result<Ty, AllocError>
    ensures { IfOk result (λ made. made ≡ regs.value_type ty.now) }
{
    match ty {
        Ty::Int(width) => Ok(Ty::Value(ValTy::Int(*width))),
        Ty::Index => Ok(Ty::Value(ValTy::Index)),
        Ty::Memref(memref) => {
            let memref = copy_memref(alloc, memref)?;
            Ok(Ty::Value(ValTy::Memref(memref)))
        }
        _ => Ok(Ty::Untyped),
    }
}

fn push_objects(alloc: Global, types: &mut Items<Ty>, results: &[Ty]) -> Result<(), AllocError>
    ensures { OnOk result (types.new ≡ types.old ++ regs.object_types results.now) }
{
    types.push(Ty::Token)?;
    for ty in results {
        types.push(value_type(alloc, ty)?)?;
    }
    Ok(())
}

/// What a coroutine gives whose task gives these.
pub(crate) fn object_types(alloc: Global, results: &[Ty]) -> Result<Items<Ty>, AllocError>
    ensures { IfOk result (λ types. types ≡ regs.object_types results.now) }
{
    let mut types = Items::new(alloc);
    push_objects(alloc, &mut types, results)?;
    Ok(types)
}

fn push_flags(types: &mut Items<Ty>, blocks: &[Block]) -> Result<(), AllocError>
    ensures { OnOk result (types.new ≡ types.old ++ map (λ b. ty.Int Width.W1) blocks.now) }
{
    for _block in blocks {
        types.push(Ty::Int(Width::W1))?;
    }
    Ok(())
}

fn push_states(types: &mut Items<Ty>, blocks: &[Block]) -> Result<(), AllocError>
    ensures { OnOk result (types.new ≡ types.old ++ map (λ b. ty.CoroState) blocks.now) }
{
    for _block in blocks {
        types.push(Ty::CoroState)?;
    }
    Ok(())
}

fn coroutine_types(alloc: Global, func: &LowFunc) -> Result<Items<Ty>, AllocError>
    ensures { IfOk result (λ types. types ≡ regs.coroutine_types func.now) }
{
    let mut types = Items::new(alloc);
    push_states(&mut types, func.blocks.as_slice())?;
    push_objects(alloc, &mut types, func.results.as_slice())?;
    types.push(Ty::CoroId)?;
    types.push(Ty::CoroHandle)?;
    types.push(Ty::CoroState)?;
    Ok(types)
}

/// The types of all registers: those of the function's own, and those of the made ones behind them.
pub(crate) fn reg_types(alloc: Global, func: &LowFunc) -> Result<Items<Ty>, AllocError>
    ensures { IfOk result (λ types. types ≡ regs.reg_types func.now) }
{
    let mut types = copy_types(alloc, func.regs.as_slice())?;
    push_flags(&mut types, func.blocks.as_slice())?;
    if func.coroutine {
        types.append(coroutine_types(alloc, func)?)?;
    }
    Ok(types)
}
