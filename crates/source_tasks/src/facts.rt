//! What a module says of its functions.
ghost use Rattle.std.specs.Prelude.{◌≡◌, [], slice_get, map, IfOk};
ghost use Rattle.source_meaning.specs.Values.{or_else};
ghost use Rattle.source_meaning.specs.Parts.{func_params, func_ops};
ghost use Rattle.source_meaning.specs.Steps.{is_used, is_split};
ghost use Rattle.source_meaning.specs.Sequential.{IsProgram};
ghost use Rattle.ir_verify.specs.Calls.{callee_place, is_marked};

use crate::frames::Scope;
use crate::uses::{mark_of, tables_of};
use ir_forms::{Attr, Func, Op, Ty, ValueNo};
use ir_verify::{Names, Nest, Verified, task_called};
use lists::Items;
use std::alloc::{AllocError, Global};
use std::marker::Model;

/// The functions of a module, and of each whether a task calls it and which values it uses.
#[derive(Drop)]
pub struct Facts<'a> {
    funcs: &'a [Func],
    names: Names<'a>,
    called: Vec<bool>,
    tables: Vec<Items<bool>>,
}

impl<'a> Model for Facts<'a> {
    ghost use Rattle.ir_forms.specs.contracts.ops.Func as code;
    ghost use Rattle.std.specs.Coded.{codes};
    ghost use Rattle.std.specs.Prelude.{◌≡◌, map};
    ghost use Rattle.source_meaning.specs.Parts.{uses_of};
    ghost use Rattle.source_meaning.specs.Tasks.{Program};
    ghost use Rattle.source_tasks.specs.Uses.{table_of};

    ghost Value = { Program };

    ghost coded = { Prim.hlevel (codes, code.the_row.coded) };

    ghost view = { λ f. record { funcs = f.funcs.now; called = f.called.items; uses = map uses_of f.funcs.now } };

    ghost invariant = { λ f. (f.names ≡ f.funcs.now) × (f.tables.items ≡ map (λ g. table_of (uses_of g)) f.funcs.now) };
}

/// One of the tables; a function that isn't there has an empty one.
fn table_at(tables: &[Items<bool>], place: usize) -> &[bool]
    ensures { result.now ≡ or_else [] (slice_get tables.now place) }
{
    match tables.get(place) {
        Some(table) => table.as_slice(),
        None => &[],
    }
}

impl<'a> Facts<'a> {
    /// What the module says of its functions: which of them a task calls, and which values each uses.
    pub fn of(alloc: Global, verified: &'a Verified) -> Result<Facts<'a>, AllocError>
        ensures { IfOk result (λ facts. IsProgram verified.now.program facts) }
    {
        let funcs = verified.module().funcs.as_slice();
        let called = task_called(alloc, funcs)?;
        let tables = tables_of(alloc, funcs)?;
        let names = Names::new(alloc, funcs)?;
        Ok(Facts {
            funcs,
            names,
            called,
            tables,
        })
    }

    /// The place of the function that an operation names by what it carries.
    pub(crate) fn callee(&self, attr: &Attr) -> Option<usize>
        ensures { result ≡ callee_place self.now.funcs attr.now }
    {
        match attr {
            Attr::Callee(name) => self.names.find(name.as_slice()),
            _ => None,
        }
    }

    /// The parameters of the function at this place; one that isn't there has none.
    pub(crate) fn params(&self, place: usize) -> &'a [(ValueNo, Ty)]
        ensures { result.now ≡ func_params (slice_get self.now.funcs place) }
    {
        match self.funcs.get(place) {
            Some(func) => func.params.as_slice(),
            None => &[],
        }
    }

    /// Its operations.
    pub(crate) fn ops(&self, place: usize) -> &'a [Op]
        ensures { result.now ≡ func_ops (slice_get self.now.funcs place) }
    {
        match self.funcs.get(place) {
            Some(func) => func.body.ops.as_slice(),
            None => &[],
        }
    }

    /// Whether the value is an operand in the function at this place.
    #[tactic(auto, using(crate::proofs::Marks::table_tells))]
    pub(crate) fn is_used(&self, place: usize, value: Option<ValueNo>) -> bool
        ensures { result ≡ is_used self.now place value }
    {
        match value {
            Some(value) => mark_of(table_at(&self.tables, place), value.0 as usize),
            None => false,
        }
    }

    /// Whether a parallel loop that is met here is split: in a task, and in a function that no task calls.
    pub(crate) fn is_split(&self, scope: &Scope) -> bool
        ensures { result ≡ is_split self.now scope.now }
    {
        match scope.nest {
            Nest::InTask => true,
            Nest::InLoop => false,
            Nest::InFunction => !mark_of(&self.called, scope.func),
        }
    }
}
