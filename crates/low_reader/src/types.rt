//! The types that tokens write.
ghost use Rattle.std.specs.Prelude.{◌≡◌, IfOk};
ghost use Rattle.module_grammar.specs.State.{first_type, payload_types, element_type, cell_type, held_type, number_payload, value_type};
ghost use Rattle.low_grammar.specs.State.{coro_type, low_type};
ghost use Rattle.low_reader.specs.Choices.{option_list};

use ir_forms::{CellTy, NumTy, Ty, ValTy, copy_payload, copy_type};
use module_grammar::TextToken;
use std::alloc::{AllocError, Global};

fn coro_type(text: &[u8]) -> Option<Ty>
    ensures { result ≡ coro_type text.now }
{
    if text == b"!async.coro.id".as_slice() {
        Some(Ty::CoroId)
    } else if text == b"!async.coro.handle".as_slice() {
        Some(Ty::CoroHandle)
    } else if text == b"!async.coro.state".as_slice() {
        Some(Ty::CoroState)
    } else {
        None
    }
}

/// The type that the token writes alone.
pub fn low_type(alloc: Global, token: &TextToken) -> Result<Option<Ty>, AllocError>
    ensures { IfOk result (λ ty. ty ≡ low_type token.now) }
{
    match token.ty(alloc)? {
        Some(ty) => Ok(Some(ty)),
        None => Ok(coro_type(token.text.as_slice())),
    }
}

/// The first type, or none.
pub fn first_type(alloc: Global, types: &[Ty]) -> Result<Ty, AllocError>
    ensures { IfOk result (λ ty. ty ≡ first_type types.now) }
{
    match types.first() {
        Some(ty) => copy_type(alloc, ty),
        None => Ok(Ty::Untyped),
    }
}

fn number_payload(number: NumTy) -> ValTy
    ensures { result ≡ number_payload number }
{
    match number {
        NumTy::Int(width) => ValTy::Int(width),
        NumTy::Index => ValTy::Index,
    }
}

fn cell_type(cell: CellTy) -> Ty
    ensures { result ≡ cell_type cell }
{
    match cell {
        CellTy::Int(width) => Ty::Int(width),
        CellTy::Index => Ty::Index,
        CellTy::Token => Ty::Token,
        CellTy::Group => Ty::Group,
        CellTy::Value(number) => Ty::Value(number_payload(number)),
    }
}

/// The type of the cells of a memref.
fn element_type(ty: &Ty) -> Ty
    ensures { result ≡ element_type ty.now }
{
    match ty {
        Ty::Memref(memref) => cell_type(memref.elem),
        _ => Ty::Untyped,
    }
}

fn held_type(payload: ValTy) -> Ty
    ensures { result ≡ held_type payload }
{
    match payload {
        ValTy::Int(width) => Ty::Int(width),
        ValTy::Index => Ty::Index,
        ValTy::Memref(memref) => Ty::Memref(memref),
    }
}

/// What a load from the first of these types gives, if it gives anything.
pub fn first_payload(alloc: Global, types: &[Ty]) -> Result<Option<Ty>, AllocError>
    ensures { IfOk result (λ ty. option_list ty ≡ payload_types (first_type types.now)) }
{
    match types.first() {
        Some(Ty::Value(payload)) => {
            let payload = copy_payload(alloc, payload)?;
            Ok(Some(held_type(payload)))
        }
        _ => Ok(None),
    }
}

/// The type of the cells of the first of these types, which is a memref.
pub fn first_element(types: &[Ty]) -> Ty
    ensures { result ≡ element_type (first_type types.now) }
{
    match types.first() {
        Some(ty) => element_type(ty),
        None => Ty::Untyped,
    }
}
