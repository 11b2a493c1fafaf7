//! The registers that a function defines, in the order of its text.
ghost use Rattle.std.specs.Prelude.{◌≡◌, ◌++◌, map, OnOk, IfOk};
ghost use Rattle.ir_forms.specs.Numbers.{joined};
ghost use Rattle.low_forms.specs.Assigned.{numbers, assigned_by, block_assigns};
ghost use Rattle.register_numbers.specs.Renumbered.{definitions, type_of_reg};

use ir_forms::{Ty, copy_type};
use lists::Items;
use low_forms::{Block, Instr, LowFunc, Reg};
use std::alloc::{AllocError, Global};

fn collect_regs(regs: &[Reg], defined: &mut Vec<u64>) -> Result<(), AllocError>
    ensures { OnOk result (defined.new.items ≡ defined.old.items ++ numbers regs.now) }
{
    for reg in regs {
        defined.push(reg.0 as u64)?;
    }
    Ok(())
}

fn collect_results(instrs: &[Instr], defined: &mut Vec<u64>) -> Result<(), AllocError>
    ensures { OnOk result (defined.new.items ≡ defined.old.items ++ assigned_by instrs.now) }
{
    for instr in instrs {
        collect_regs(instr.results.as_slice(), defined)?;
    }
    Ok(())
}

fn collect_block(block: &Block, defined: &mut Vec<u64>) -> Result<(), AllocError>
    ensures { OnOk result (defined.new.items ≡ defined.old.items ++ block_assigns block.now) }
{
    collect_regs(block.params.as_slice(), defined)?;
    collect_results(block.instrs.as_slice(), defined)
}

fn collect_blocks(blocks: &[Block], defined: &mut Vec<u64>) -> Result<(), AllocError>
    ensures { OnOk result (defined.new.items ≡ defined.old.items ++ joined (map block_assigns blocks.now)) }
{
    for block in blocks {
        collect_block(block, defined)?;
    }
    Ok(())
}

/// The numbers of the registers, in the order of their definitions.
pub(crate) fn definitions(alloc: Global, func: &LowFunc) -> Result<Vec<u64>, AllocError>
    ensures { IfOk result (λ defined. defined.items ≡ definitions func.now) }
{
    let mut defined = Vec::new(alloc);
    collect_regs(func.params.as_slice(), &mut defined)?;
    collect_blocks(func.blocks.as_slice(), &mut defined)?;
    Ok(defined)
}

fn type_of_reg(alloc: Global, types: &[Ty], reg: u64) -> Result<Ty, AllocError>
    ensures { IfOk result (λ ty. ty ≡ type_of_reg types.now reg) }
{
    match types.get(reg as usize) {
        Some(ty) => copy_type(alloc, ty),
        None => Ok(Ty::Untyped),
    }
}

/// The types of these registers.
pub(crate) fn types_of(alloc: Global, types: &[Ty], regs: &[u64]) -> Result<Items<Ty>, AllocError>
    ensures { IfOk result (λ ordered. ordered ≡ map (type_of_reg types.now) regs.now) }
{
    let mut ordered = Items::new(alloc);
    for reg in regs {
        ordered.push(type_of_reg(alloc, types, *reg)?)?;
    }
    Ok(ordered)
}
