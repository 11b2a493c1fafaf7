//! Types and literals of numbers.
ghost use Rattle.std.specs.Prelude.{◌≡◌, ◌+◌, ◌^◌, [], ◌∷◌, IfOk};
ghost use Rattle.made_ops.specs.Made.{literal, same_number, signed_literal, type_of, width_of, least, minus_one};

use ir_forms::{Attr, NumTy, Ty, Width};
use lists::Items;
use std::alloc::{AllocError, Global};

pub fn type_of(ty: NumTy) -> Ty
    ensures { result ≡ type_of ty }
{
    match ty {
        NumTy::Int(width) => Ty::Int(width),
        NumTy::Index => Ty::Index,
    }
}

pub(crate) fn one_type(alloc: Global, ty: NumTy) -> Result<Items<Ty>, AllocError>
    ensures { IfOk result (λ types. types ≡ type_of ty ∷ []) }
{
    let mut types = Items::new(alloc);
    types.push(type_of(ty))?;
    Ok(types)
}

pub(crate) fn two_types(alloc: Global, ty: NumTy) -> Result<Items<Ty>, AllocError>
    ensures { IfOk result (λ types. types ≡ type_of ty ∷ type_of ty ∷ []) }
{
    let mut types = one_type(alloc, ty)?;
    types.push(type_of(ty))?;
    Ok(types)
}

pub(crate) fn same_number(ty: NumTy, other: NumTy) -> bool
    ensures { result ≡ same_number ty other }
{
    match (ty, other) {
        (NumTy::Int(v), NumTy::Int(w)) => v.bits() == w.bits(),
        (NumTy::Index, NumTy::Index) => true,
        _ => false,
    }
}

/// How many bits a number of the type has.
pub fn width_of(ty: NumTy) -> u32
    ensures { result ≡ width_of ty }
{
    match ty {
        NumTy::Int(width) => width.bits(),
        NumTy::Index => 64,
    }
}

/// The bits of the least signed number of the type.
pub fn least(ty: NumTy) -> u64
    ensures value { result ≡ least ty }
    ensures half { result + result ≡ 2 ^ width_of ty }
{
    match ty {
        NumTy::Int(Width::W1) => 1,
        NumTy::Int(Width::W8) => 1 << 7,
        NumTy::Int(Width::W16) => 1 << 15,
        NumTy::Int(Width::W32) => 1 << 31,
        NumTy::Int(Width::W64) | NumTy::Index => 1 << 63,
    }
}

/// The bits of -1.
pub fn minus_one(ty: NumTy) -> u64
    ensures { result ≡ minus_one ty }
{
    let least = least(ty);
    least - 1 + least
}

fn signed_literal(ty: NumTy, bits: u64) -> Attr
    ensures { result ≡ signed_literal ty bits }
{
    let least = least(ty);
    if bits < least {
        Attr::Literal {
            negative: false,
            magnitude: bits,
        }
    } else {
        Attr::Literal {
            negative: true,
            magnitude: least.saturating_sub(bits - least),
        }
    }
}

/// A constant's number as it is written.
pub(crate) fn literal(ty: NumTy, bits: u64) -> Attr
    ensures { result ≡ literal ty bits }
{
    match ty {
        NumTy::Int(Width::W1) => Attr::Truth(bits != 0),
        _ => signed_literal(ty, bits),
    }
}
