ghost use Rattle.std.specs.Prelude.{◌≡◌, map, IfOk, OnOk};
ghost use Rattle.std.specs.List.{All};
ghost use Rattle.value_numbers.specs.Numbers.{HasNumbers, IsCountable, numbered_values, value_numbered};

use crate::collect::collect_func;
use crate::places::first_places;
use crate::rename::rename_func;
use ir_forms::{Func, Module};
use std::alloc::{AllocError, Global};

/// Numbers the values of each function by the places of their definitions in the text, from 0:
/// parameters first, and an operation's results before what its regions define.
///
/// An operand that the function doesn't define becomes the unknown value. A function with as many
/// values as there are numbers is want of memory.
pub fn number_values(alloc: Global, program: Module) -> Result<Module, AllocError>
    ensures numbers { IfOk result (λ numbered. numbered ≡ value_numbered program) }
    ensures within { OnOk result (IsCountable program) }
{
    let mut program = program;
    match number_funcs(alloc, program.funcs.as_mut_slice()) {
        Ok(()) => Ok(program),
        Err(error) => Err(error),
    }
}

fn number_funcs(alloc: Global, funcs: &mut [Func]) -> Result<(), AllocError>
    ensures numbers { OnOk result (funcs.new ≡ map numbered_values funcs.old) }
    ensures within { OnOk result (All HasNumbers funcs.old) }
{
    for i in 0..funcs.len() {
        number_func(alloc, &mut funcs[i])?;
    }
    Ok(())
}

fn number_func(alloc: Global, func: &mut Func) -> Result<(), AllocError>
    ensures numbers { OnOk result (func.new ≡ numbered_values func.old) }
    ensures within { OnOk result (HasNumbers func.old) }
{
    let mut values = Vec::new(alloc);
    collect_func(func, &mut values)?;
    let places = first_places(alloc, &values)?;
    rename_func(func, &places);
    Ok(())
}
