//! What follows the region that a task is in.
ghost use Rattle.std.specs.Prelude.{◌≡◌, IfOk};

use crate::env::Env;
use ir_forms::Op;
use ir_verify::Nest;
use std::alloc::{AllocError, Global};
use std::marker::Model;

/// What follows a region: the results of its operation are bound; the next turn of a loop; a test of
/// `scf.while`, or its next round; the caller, whose call is tried or not.
#[derive(Clone, Copy)]
pub enum Follow {
    Joins,
    Turns { i: u64, upper: u64, step: u64 },
    Tests,
    Repeats,
    Returns,
    Tries,
}

/// The place of the function whose operations are taken, what is nearest of task, parallel loop and
/// function there, and its values.
#[derive(Drop)]
pub struct Scope {
    pub(crate) func: usize,
    pub(crate) nest: Nest,
    pub(crate) env: Env,
}

impl Model for Scope {
    ghost use Rattle.source_meaning.specs.Tasks.{Scope};

    ghost Value = { Scope };

    ghost view = { λ s. record { func = s.func; nest = s.nest; env = s.env } };
}

impl Scope {
    /// The same values, where this is nearest.
    pub(crate) fn copy_in(&self, alloc: Global, nest: Nest) -> Result<Scope, AllocError>
        ensures { IfOk result (λ copy. copy ≡ record self.now { nest = nest }) }
    {
        let env = self.env.copy(alloc)?;
        Ok(Scope {
            func: self.func,
            nest,
            env,
        })
    }

    pub(crate) fn copy(&self, alloc: Global) -> Result<Scope, AllocError>
        ensures { IfOk result (λ copy. copy ≡ self.now) }
    {
        self.copy_in(alloc, self.nest)
    }
}

/// The operation whose region it is, with the operations that follow it, and the scope of the caller.
#[derive(Drop)]
pub struct Frame<'a> {
    pub(crate) follow: Follow,
    pub(crate) op: &'a Op,
    pub(crate) rest: &'a [Op],
    pub(crate) saved: Option<Scope>,
}

impl<'a> Model for Frame<'a> {
    ghost use Rattle.ir_forms.specs.contracts.ops.Op as op_code;
    ghost use Rattle.ir_forms.specs.contracts.ops.Region as region_code;
    ghost use Rattle.std.specs.Coded.{codes};
    ghost use Rattle.std.specs.Prelude.{List};
    ghost use Rattle.ir_forms.specs.declared.ops.Op.{Op, out-Op};
    ghost use Rattle.source_meaning.specs.Tasks.{After};
    ghost use Rattle.source_tasks.specs.Code.{after_of, saved_scope};

    ghost Value = { After × List Op };

    ghost coded = { Prim.hlevel (codes, op_code.the_row.coded, region_code.the_row.coded) };

    ghost view = { λ f. (after_of f.follow (out-Op f.op.now) (saved_scope f.saved), f.rest.now) };
}
