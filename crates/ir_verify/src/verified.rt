//! Verified modules.
ghost use Rattle.std.specs.Prelude.{◌≡◌, ◌≤◌};
ghost use Rattle.op_table.specs.Rows.{place_of};
ghost use Rattle.ir_verify.specs.Levels.{level_of};
ghost use Rattle.ir_verify.specs.Verdict.{IsSound};

use ir_forms::{Level, Module};
use std::marker::Model;

/// A module that breaks no rule, and the level whose texts it belongs to: the least one, or a later one that a pass gives.
#[derive(Drop)]
pub struct Verified {
    inner: Module,
    level: Level,
}

impl Model for Verified {
    ghost use Rattle.ir_forms.specs.contracts.ops.Module as code;
    ghost use Rattle.std.specs.Prelude.{◌≤◌};
    ghost use Rattle.std.specs.Coded.{codes};
    ghost use Rattle.op_table.specs.Rows.{place_of};
    ghost use Rattle.ir_verify.specs.Levels.{level_of};
    ghost use Rattle.ir_verify.specs.Verdict.{IsSound};
    ghost use Rattle.ir_verify.specs.Verified.{Leveled};

    ghost Value = { Leveled };

    ghost coded = { Prim.hlevel (codes, code.the_row.coded) };

    ghost view = { λ v. record { program = v.inner; level = v.level } };

    ghost invariant = { λ v. IsSound v.inner.funcs × (place_of (level_of v.inner.funcs) ≤ place_of v.level) };
}

impl Verified {
    /// The module at the level that a pass gives it.
    pub fn of_pass(program: Module, level: Level) -> Verified
        requires sound { IsSound program.funcs }
        requires least { place_of (level_of program.funcs) ≤ place_of level }
        ensures { result ≡ record { program = program; level = level } }
    {
        Verified {
            inner: program,
            level,
        }
    }

    pub fn module(&self) -> &Module
        ensures value { result.now ≡ self.now.program }
        ensures sound { IsSound self.now.program.funcs }
    {
        &self.inner
    }

    pub fn into_module(self) -> Module
        ensures value { result ≡ self.program }
        ensures sound { IsSound self.program.funcs }
    {
        let Verified { inner, level: _ } = self;
        inner
    }

    /// The level. That of `verify`'s answer is the least one at which every row of the module stands.
    pub fn level(&self) -> Level
        ensures value { result ≡ self.now.level }
        ensures least { place_of (level_of self.now.program.funcs) ≤ place_of result }
    {
        self.level
    }
}
