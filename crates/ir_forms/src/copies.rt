//! Exact copies of types, names, and what operations are made of.
ghost use Rattle.std.specs.Prelude.{◌≡◌, ◌++◌, IfOk, OnOk};
ghost use Rattle.ir_forms.specs.declared.ops.Op.{out-Op, roll-Op};

use crate::names::{ElementName, MadeName};
use crate::ops::{Attr, Op, Region, ValueNo};
use crate::types::{MemTy, Ty, ValTy};
use lists::Items;
use std::alloc::{AllocError, Global};

pub fn copy_memref(alloc: Global, memref: &MemTy) -> Result<MemTy, AllocError>
    ensures { IfOk result (λ copy. copy ≡ memref.now) }
{
    Ok(MemTy {
        elem: memref.elem,
        dims: Items::from_slice(alloc, memref.dims.as_slice())?,
    })
}

pub fn copy_payload(alloc: Global, payload: &ValTy) -> Result<ValTy, AllocError>
    ensures { IfOk result (λ copy. copy ≡ payload.now) }
{
    match payload {
        ValTy::Int(width) => Ok(ValTy::Int(*width)),
        ValTy::Index => Ok(ValTy::Index),
        ValTy::Memref(memref) => {
            let memref = copy_memref(alloc, memref)?;
            Ok(ValTy::Memref(memref))
        }
    }
}

pub fn copy_type(alloc: Global, ty: &Ty) -> Result<Ty, AllocError>
    ensures { IfOk result (λ copy. copy ≡ ty.now) }
{
    match ty {
        Ty::Int(width) => Ok(Ty::Int(*width)),
        Ty::Index => Ok(Ty::Index),
        Ty::Memref(memref) => {
            let memref = copy_memref(alloc, memref)?;
            Ok(Ty::Memref(memref))
        }
        Ty::Token => Ok(Ty::Token),
        Ty::Value(payload) => {
            let payload = copy_payload(alloc, payload)?;
            Ok(Ty::Value(payload))
        }
        Ty::Group => Ok(Ty::Group),
        Ty::CoroId => Ok(Ty::CoroId),
        Ty::CoroHandle => Ok(Ty::CoroHandle),
        Ty::CoroState => Ok(Ty::CoroState),
        Ty::Untyped => Ok(Ty::Untyped),
    }
}

pub fn copy_types(alloc: Global, types: &[Ty]) -> Result<Items<Ty>, AllocError>
    ensures { IfOk result (λ copies. copies ≡ types.now) }
{
    let mut copies = Items::new(alloc);
    for ty in types {
        copies.push(copy_type(alloc, ty)?)?;
    }
    Ok(copies)
}

pub fn copy_params(
    alloc: Global,
    params: &[(ValueNo, Ty)],
) -> Result<Items<(ValueNo, Ty)>, AllocError>
    ensures { IfOk result (λ copies. copies ≡ params.now) }
{
    let mut copies = Items::new(alloc);
    for param in params {
        let ty = copy_type(alloc, &param.1)?;
        copies.push((param.0, ty))?;
    }
    Ok(copies)
}

pub fn copy_attr(alloc: Global, attr: &Attr) -> Result<Attr, AllocError>
    ensures { IfOk result (λ copy. copy ≡ attr.now) }
{
    match attr {
        Attr::None => Ok(Attr::None),
        Attr::Literal {
            negative,
            magnitude,
        } => Ok(Attr::Literal {
            negative: *negative,
            magnitude: *magnitude,
        }),
        Attr::Truth(truth) => Ok(Attr::Truth(*truth)),
        Attr::Pred(pred) => Ok(Attr::Pred(*pred)),
        Attr::Text(text) => Ok(Attr::Text(Items::from_slice(alloc, text.as_slice())?)),
        Attr::Callee(name) => Ok(Attr::Callee(Items::from_slice(alloc, name.as_slice())?)),
    }
}

/// A copy of the operation, with these regions.
pub fn copy_op(alloc: Global, op: &Op, regions: Items<Region>) -> Result<Op, AllocError>
    ensures { IfOk result (λ copy. copy ≡ roll-Op (record (out-Op op.now) { regions = regions })) }
{
    let operands = Items::from_slice(alloc, op.operands.as_slice())?;
    let groups = Items::from_slice(alloc, op.groups.as_slice())?;
    let written = copy_types(alloc, op.written.as_slice())?;
    let results = Items::from_slice(alloc, op.results.as_slice())?;
    let types = copy_types(alloc, op.types.as_slice())?;
    let attr = copy_attr(alloc, &op.attr)?;
    Ok(Op {
        kind: op.kind,
        at: op.at,
        operands,
        groups,
        written,
        results,
        types,
        attr,
        regions,
    })
}

pub fn copy_made(alloc: Global, name: &MadeName) -> Result<MadeName, AllocError>
    ensures { IfOk result (λ copy. copy ≡ name.now) }
{
    match name {
        MadeName::Argument { parameter } => Ok(MadeName::Argument {
            parameter: *parameter,
        }),
        MadeName::Made { task, action } => Ok(MadeName::Made {
            task: Items::from_slice(alloc, task.as_slice())?,
            action: *action,
        }),
    }
}

pub fn copy_element(alloc: Global, name: &ElementName) -> Result<ElementName, AllocError>
    ensures { IfOk result (λ copy. copy ≡ name.now) }
{
    match name {
        ElementName::Token { task } => Ok(ElementName::Token {
            task: Items::from_slice(alloc, task.as_slice())?,
        }),
        ElementName::Value { task, result } => Ok(ElementName::Value {
            task: Items::from_slice(alloc, task.as_slice())?,
            result: *result,
        }),
    }
}
