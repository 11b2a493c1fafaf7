//! The pass.
ghost use Rattle.std.specs.Prelude.{◌≡◌, ◌≤◌, IfOk};
ghost use Rattle.op_table.specs.Rows.{place_of};
ghost use Rattle.exec_outline.specs.Shape.{outlined};

use crate::walk::outlined;
use ir_forms::{Level, Module};
use ir_verify::Verified;
use std::alloc::{AllocError, Global};
use std::marker::Model;

/// A module whose tasks are functions. An `async.execute` has no region: it names the function that it launches, and its
/// operands are the arguments. The functions of tasks are those that end with `async.yield`.
#[derive(Drop)]
pub struct Outlined {
    functions: Module,
}

impl Model for Outlined {
    ghost use Rattle.ir_forms.specs.declared.ops.Module.{Module};
    ghost use Rattle.ir_forms.specs.contracts.ops.Module as code;
    ghost use Rattle.std.specs.Coded.{codes};

    ghost Value = { Module };

    ghost coded = { Prim.hlevel (codes, code.the_row.coded) };

    ghost view = { λ o. o.functions };
}

impl Outlined {
    pub fn functions(&self) -> &Module
        ensures { result.now ≡ self.now }
    {
        &self.functions
    }

    pub fn into_functions(self) -> Module
        ensures { result ≡ self }
    {
        let Outlined { functions } = self;
        functions
    }
}

/// Makes each region of `async.execute` a function of its own, with what it uses from outside as parameters. A function
/// whose values pass 2^32 is want of memory.
pub fn outline(alloc: Global, split: Verified) -> Result<Outlined, AllocError>
    requires { place_of split.level ≤ place_of Level.Split }
    ensures { IfOk result (λ made. made ≡ outlined split.program) }
{
    let functions = outlined(alloc, split.module())?;
    Ok(Outlined { functions })
}

/// The same of a module that a pass gives, which need not be verified.
pub fn outline_module(alloc: Global, split: &Module) -> Result<Outlined, AllocError>
    ensures { IfOk result (λ made. made ≡ outlined split.now) }
{
    let functions = outlined(alloc, split)?;
    Ok(Outlined { functions })
}
