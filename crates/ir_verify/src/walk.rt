//! The walk over the operations of a function.
ghost use Rattle.std.specs.Prelude.{◌≡◌, ◌++◌, [], ◌∷◌, OnOk, IfOk};
ghost use Rattle.ir_forms.specs.Ops.{results_of};
ghost use Rattle.ir_forms.specs.declared.types.Ty.TheVariants.{Untyped};
ghost use Rattle.ir_verify.specs.Breaks.{noted_all};
ghost use Rattle.ir_verify.specs.Places.{in_body, defined, types_of, params_of, places_at, places_in, type_at};
ghost use Rattle.ir_verify.specs.Standing.{around_of};

use crate::breaks::noted_spot;
use crate::fault::Broken;
use crate::names::Names;
use crate::scope::Scope;
use crate::standing::{Around, Place};
use ir_forms::{Func, Op, Region, Ty, ValueNo};
use lists::Items;
use std::alloc::{AllocError, Global};

/// Where the walk stands: what is visible, and the earliest fault so far.
#[derive(Drop)]
pub(crate) struct Walk<'a> {
    pub(crate) scope: Scope<'a>,
    pub(crate) best: Option<Broken>,
}

/// Makes the results of an operation visible. One that has no type is untyped.
#[tactic(auto, using(crate::proofs::WalkLemmas::defined_next))]
fn define<'a>(
    scope: &mut Scope<'a>,
    untyped: &'a Ty,
    values: &[ValueNo],
    types: &'a Items<Ty>,
) -> Result<(), AllocError>
    requires { untyped.now ≡ Untyped }
    ensures { OnOk result (scope.new ≡ scope.old ++ defined values.now types.now) }
{
    for (place, value) in values.iter().enumerate() {
        scope.define(*value, type_at(types, untyped, place))?;
    }
    Ok(())
}

fn type_at<'a>(types: &'a Items<Ty>, untyped: &'a Ty, place: usize) -> &'a Ty
    requires { untyped.now ≡ Untyped }
    ensures { result.now ≡ type_at types.now place }
{
    match types.get(place) {
        Some(t) => t,
        None => untyped,
    }
}

/// Makes the parameters of a region visible.
#[tactic(auto, using(crate::proofs::WalkLemmas::params_next))]
fn define_params<'a>(scope: &mut Scope<'a>, params: &'a [(ValueNo, Ty)]) -> Result<(), AllocError>
    ensures { OnOk result (scope.new ≡ scope.old ++ params.now) }
{
    for (value, t) in params {
        scope.define(*value, t)?;
    }
    Ok(())
}

impl<'a> Walk<'a> {
    /// Counts the faults of an operation and of what stands in it, and makes its results visible.
    #[cycle(walk)]
    fn walk_op(
        &mut self,
        names: &Names<'a>,
        untyped: &'a Ty,
        op: &'a Op,
        around: &Around<'a>,
        is_last: bool,
    ) -> Result<(), AllocError>
        requires { untyped.now ≡ Untyped }
        ensures seen { OnOk result (self.new.scope ≡ self.old.scope ++ defined (results_of op.now) (types_of op.now)) }
        ensures best { OnOk result (self.new.best ≡ noted_all (places_at names.now op.now (around_of around.now) self.old.scope is_last) self.old.best) }
    {
        let here = Place {
            around: *around,
            is_last,
            callee: names.called(&op.attr),
            op,
        };
        self.best = noted_spot(&self.scope, &here, self.best);
        let regions = op.regions.as_slice();
        for (place, region) in regions.iter().enumerate() {
            self.walk_region(names, untyped, region, &around.within(op, place))?;
        }
        define(&mut self.scope, untyped, op.results.as_slice(), &op.types)
    }

    /// Counts the faults of what stands in a region. Afterwards the same is visible as before.
    #[cycle(walk)]
    pub(crate) fn walk_region(
        &mut self,
        names: &Names<'a>,
        untyped: &'a Ty,
        region: &'a Region,
        around: &Around<'a>,
    ) -> Result<(), AllocError>
        requires { untyped.now ≡ Untyped }
        ensures seen { OnOk result (self.new.scope ≡ self.old.scope) }
        ensures best { OnOk result (self.new.best ≡ noted_all (places_in names.now region.now (around_of around.now) self.old.scope) self.old.best) }
    {
        let depth = self.scope.len();
        define_params(&mut self.scope, region.params.as_slice())?;
        let ops = region.ops.as_slice();
        for (place, op) in ops.iter().enumerate() {
            let is_last = place + 1 == ops.len();
            self.walk_op(names, untyped, op, around, is_last)?;
        }
        self.scope.truncate(depth);
        Ok(())
    }
}

/// The earliest fault of a function's body, with those before counted.
pub(crate) fn walk_func<'a>(
    alloc: Global,
    names: &Names<'a>,
    untyped: &'a Ty,
    func: &'a Func,
    is_called: bool,
    best: Option<Broken>,
) -> Result<Option<Broken>, AllocError>
    requires { untyped.now ≡ Untyped }
    ensures { IfOk result (λ found. found ≡ noted_all (places_in names.now func.now.body (in_body func.now is_called) func.now.params) best) }
{
    let mut scope = Scope::new(alloc);
    define_params(&mut scope, func.params.as_slice())?;
    let mut walk = Walk { scope, best };
    let around = Around::of_body(func, is_called);
    walk.walk_region(names, untyped, &func.body, &around)?;
    Ok(walk.best)
}
