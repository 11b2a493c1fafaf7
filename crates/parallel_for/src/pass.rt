//! The pass.
ghost use Rattle.std.specs.Prelude.{◌≡◌, IfOk};
ghost use Rattle.parallel_for.specs.Shape.{IsSplit};

use crate::walk::split_module;
use ir_forms::Module;
use ir_verify::{Verified, task_called};
use loop_blocks::Options;
use std::alloc::{AllocError, Global};
use std::marker::Model;
use value_numbers::number_values;

/// A module without parallel loops, whose values are numbered by their places.
#[derive(Drop)]
pub struct Halved {
    functions: Module,
}

impl Model for Halved {
    ghost use Rattle.ir_forms.specs.declared.ops.Module.{Module};
    ghost use Rattle.ir_forms.specs.contracts.ops.Module as code;
    ghost use Rattle.std.specs.Coded.{codes};

    ghost Value = { Module };

    ghost coded = { Prim.hlevel (codes, code.the_row.coded) };

    ghost view = { λ h. h.functions };
}

impl Halved {
    pub fn functions(&self) -> &Module
        ensures { result.now ≡ self.now }
    {
        &self.functions
    }

    pub fn into_functions(self) -> Module
        ensures { result ≡ self }
    {
        let Halved { functions } = self;
        functions
    }
}

/// Makes a function of the body of each parallel loop. One whose nearest surrounding task, parallel loop or function is a
/// task, or a function that no task calls, is split: its iterations run in blocks, which a function of their own hands on
/// half by half. Every other one runs as serial loops. A function whose values pass 2^32 is want of memory.
#[tactic(auto, using(crate::proofs::Walked::split_parts))]
pub fn split_parallel(
    alloc: Global,
    checked: Verified,
    options: Options,
) -> Result<Halved, AllocError>
    ensures { IfOk result (λ made. IsSplit options checked.program made) }
{
    let program = checked.into_module();
    let called = task_called(alloc, program.funcs.as_slice())?;
    let made = split_module(alloc, options, &called, &program)?;
    let functions = number_values(alloc, made)?;
    Ok(Halved { functions })
}
