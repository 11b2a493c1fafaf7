//! Parts of operations.
ghost use Rattle.std.specs.Prelude.{◌≡◌, drop, slice_get, IfOk};
ghost use Rattle.std.specs.Option.{option_copied};
ghost use Rattle.ir_forms.specs.Ops.{operands_of, regions_of};
ghost use Rattle.scf_blocks.specs.Tree.{or_untyped, params_at};
ghost use Rattle.ir_verify.specs.Names.{first_named};
ghost use Rattle.scf_blocks.specs.Code as code;

use crate::body::number;
use ir_forms::{Attr, Op, Ty, ValueNo, copy_type};
use ir_verify::Names;
use low_forms::{FuncNo, LowAttr};
use std::alloc::{AllocError, Global};

/// The parameters of one of an operation's regions. One that is missing has none.
#[tactic(auto, using(crate::proofs::Trees::params_some, crate::proofs::Trees::params_none))]
pub(crate) fn region_params(op: &Op, at: usize) -> &[(ValueNo, Ty)]
    ensures { result.now ≡ params_at (regions_of op.now) at }
{
    match op.regions.get(at) {
        Some(region) => region.params.as_slice(),
        None => &[],
    }
}

/// The operands from a place on.
pub(crate) fn operands_from(op: &Op, at: usize) -> &[ValueNo]
    ensures { result.now ≡ drop at (operands_of op.now) }
{
    let operands = op.operands.as_slice();
    &operands[at.min(operands.len())..]
}

/// The type at a place. One that is missing is untyped.
pub(crate) fn type_at(alloc: Global, types: &[Ty], at: usize) -> Result<Ty, AllocError>
    ensures { IfOk result (λ ty. ty ≡ or_untyped (slice_get types.now at)) }
{
    match types.get(at) {
        Some(ty) => copy_type(alloc, ty),
        None => Ok(Ty::Untyped),
    }
}

fn callee_at(callees: &Names<'_>, name: &[u8]) -> Result<LowAttr, AllocError>
    ensures { IfOk result (λ attr. attr ≡ code.callee_at (first_named callees.now name.now)) }
{
    match callees.find(name) {
        Some(place) => Ok(LowAttr::Callee(FuncNo(number(place)?))),
        None => Ok(LowAttr::None),
    }
}

/// What an instruction carries. A called function is named by its place.
pub(crate) fn low_attr(callees: &Names<'_>, attr: &Attr) -> Result<LowAttr, AllocError>
    ensures { IfOk result (λ low. low ≡ code.low_attr callees.now attr.now) }
{
    match attr {
        Attr::None | Attr::Text(_) => Ok(LowAttr::None),
        Attr::Literal {
            negative,
            magnitude,
        } => Ok(LowAttr::Literal {
            negative: *negative,
            magnitude: *magnitude,
        }),
        Attr::Truth(bit) => Ok(LowAttr::Truth(*bit)),
        Attr::Pred(pred) => Ok(LowAttr::Pred(*pred)),
        Attr::Callee(name) => callee_at(callees, name.as_slice()),
    }
}
