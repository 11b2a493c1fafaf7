//! A function with its registers in order.
ghost use Rattle.std.specs.Prelude.{◌≡◌, IfOk, OnOk};
ghost use Rattle.register_numbers.specs.Renumbered.{renumbered};

use crate::defined::{definitions, types_of};
use crate::places::Places;
use crate::rename::{rename_blocks, rename_regs};
use low_forms::LowFunc;
use std::alloc::{AllocError, Global};

fn renumber_in(alloc: Global, func: &mut LowFunc) -> Result<(), AllocError>
    ensures { OnOk result (func.new ≡ renumbered func.old) }
{
    let defined = definitions(alloc, func)?;
    let regs = types_of(alloc, func.regs.as_slice(), &defined)?;
    let places = Places::of(alloc, defined)?;
    func.regs = regs;
    rename_regs(&mut func.params, &places);
    rename_blocks(&mut func.blocks, &places);
    Ok(())
}

/// Numbers the registers of a function in the order in which its text defines them, from 0: its parameters first, then
/// by block its parameters and the results of its instructions. A register that nothing defines is left out, and where it
/// is used it becomes the unknown one. A function with as many registers as there are numbers is want of memory.
pub fn renumber(alloc: Global, func: LowFunc) -> Result<LowFunc, AllocError>
    ensures { IfOk result (λ done. done ≡ renumbered func) }
{
    let mut func = func;
    match renumber_in(alloc, &mut func) {
        Ok(()) => Ok(func),
        Err(error) => Err(error),
    }
}
