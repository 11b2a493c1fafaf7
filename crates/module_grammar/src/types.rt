//! The types that tokens write.
ghost use Rattle.std.specs.Prelude.{◌≡◌, [], not, filter, IfOk};
ghost use Rattle.module_grammar.specs.Tokens.{among, widths, cells, bang_types, is_blank, shaped, memref_of, memref_type, number_type, type_of_kind, type_of, payload_of_type, payload_of, grown};
ghost use Rattle.module_grammar.specs.declared.types.DimSoFar.TheVariants as so_far;

use crate::state::TextToken;
use crate::words::names::among;
use ir_forms::{CellTy, Dim, MemTy, NumTy, Ty, ValTy, Width};
use lists::Items;
use mlir_lex::TokenKind;
use std::alloc::{AllocError, Global};

/// The dimension that is being read in the body of a memref. A size isn't counted past 2^24 + 1.
#[derive(Clone, Copy)]
pub enum DimSoFar {
    Nothing,
    Unknown,
    Size(u64),
}

/// The width that an integer type's name writes.
fn width_named(text: &[u8]) -> Option<Width>
    ensures { result ≡ among widths text.now }
{
    among(
        &[
            ("i1", Width::W1),
            ("i8", Width::W8),
            ("i16", Width::W16),
            ("i32", Width::W32),
            ("i64", Width::W64),
        ],
        text,
    )
}

/// The element type that the end of a memref's body writes.
fn cell_named(text: &[u8]) -> Option<CellTy>
    ensures { result ≡ among cells text.now }
{
    among(
        &[
            ("i1", CellTy::Int(Width::W1)),
            ("i8", CellTy::Int(Width::W8)),
            ("i16", CellTy::Int(Width::W16)),
            ("i32", CellTy::Int(Width::W32)),
            ("i64", CellTy::Int(Width::W64)),
            ("index", CellTy::Index),
            ("!async.token", CellTy::Token),
            ("!async.group", CellTy::Group),
            ("!async.value<i1>", CellTy::Value(NumTy::Int(Width::W1))),
            ("!async.value<i8>", CellTy::Value(NumTy::Int(Width::W8))),
            ("!async.value<i16>", CellTy::Value(NumTy::Int(Width::W16))),
            ("!async.value<i32>", CellTy::Value(NumTy::Int(Width::W32))),
            ("!async.value<i64>", CellTy::Value(NumTy::Int(Width::W64))),
            ("!async.value<index>", CellTy::Value(NumTy::Index)),
        ],
        text,
    )
}

/// The type with these dimensions, of which there are four at most, and this element.
fn shaped(dims: Items<Dim>, elem: Option<CellTy>) -> Option<MemTy>
    ensures { result ≡ shaped dims elem }
{
    let elem = elem?;
    if dims.len() <= 4 {
        Some(MemTy { elem, dims })
    } else {
        None
    }
}

/// Dimensions, each `?` or a decimal of at most 2^24 with an `x` behind it, and an element.
fn memref_of(alloc: Global, body: &[u8]) -> Result<Option<MemTy>, AllocError>
    ensures { IfOk result (λ ty. ty ≡ memref_of body.now [] so_far.Nothing) }
{
    let mut dims = Items::new(alloc);
    let mut now = DimSoFar::Nothing;
    for at in 0..body.len() {
        let byte = body[at];
        match now {
            DimSoFar::Nothing => {
                if byte == b'?' {
                    now = DimSoFar::Unknown;
                } else if byte >= 48 && byte <= 57 {
                    now = DimSoFar::Size(u64::from(byte - 48));
                } else {
                    return Ok(shaped(dims, cell_named(&body[at..])));
                }
            }
            DimSoFar::Unknown => {
                if byte != b'x' {
                    return Ok(None);
                }
                dims.push(Dim::Dynamic)?;
                now = DimSoFar::Nothing;
            }
            DimSoFar::Size(size) => {
                if byte >= 48 && byte <= 57 {
                    now = DimSoFar::Size(
                        (size.min(16_777_217) * 10 + u64::from(byte - 48)).min(16_777_217),
                    );
                } else if byte == b'x' && size <= 16_777_216 {
                    dims.push(Dim::Fixed(size as u32))?;
                    now = DimSoFar::Nothing;
                } else {
                    return Ok(None);
                }
            }
        }
    }
    Ok(None)
}

/// The bytes that are no blanks.
fn without_blanks(alloc: Global, text: &[u8]) -> Result<Vec<u8>, AllocError>
    ensures { IfOk result (λ rest. rest.items ≡ filter (λ b. not (is_blank b)) text.now) }
{
    let mut rest = Vec::new(alloc);
    for byte in text {
        if *byte != b' ' && *byte != b'\t' && *byte != b'\r' && *byte != b'\n' {
            rest.push(*byte)?;
        }
    }
    Ok(rest)
}

/// The type of `memref<..>`, in whose brackets blanks are dropped.
#[tactic(auto, unfolding(crate::specs::Tokens::memref_type))]
fn memref_type(alloc: Global, text: &[u8]) -> Result<Option<MemTy>, AllocError>
    ensures { IfOk result (λ ty. ty ≡ memref_type text.now) }
{
    let inner = text.get(7..).unwrap_or(&[]);
    let inner = inner.get(..text.len().saturating_sub(8)).unwrap_or(inner);
    let body = without_blanks(alloc, inner)?;
    memref_of(alloc, body.as_slice())
}

/// The type of numbers that a name writes.
fn number_type(text: &[u8]) -> Option<Ty>
    ensures { result ≡ number_type text.now }
{
    if text == b"index".as_slice() {
        return Some(Ty::Index);
    }
    match width_named(text) {
        Some(width) => Some(Ty::Int(width)),
        None => None,
    }
}

/// The type that a name with `!` writes.
fn bang_type(text: &[u8]) -> Option<Ty>
    ensures { result ≡ among bang_types text.now }
{
    if text == b"!async.token".as_slice() {
        Some(Ty::Token)
    } else if text == b"!async.group".as_slice() {
        Some(Ty::Group)
    } else {
        None
    }
}

fn payload_of_type(ty: Option<Ty>) -> Option<ValTy>
    ensures { result ≡ payload_of_type ty }
{
    match ty {
        Some(Ty::Int(width)) => Some(ValTy::Int(width)),
        Some(Ty::Index) => Some(ValTy::Index),
        Some(Ty::Memref(memref)) => Some(ValTy::Memref(memref)),
        _ => None,
    }
}

impl<'a> TextToken<'a> {
    /// The type that the token writes alone.
    #[tactic(auto, unfolding(crate::specs::Tokens::type_of))]
    pub fn ty(&self, alloc: Global) -> Result<Option<Ty>, AllocError>
        ensures { IfOk result (λ ty. ty ≡ type_of self.now) }
    {
        let text = self.text.as_slice();
        match self.kind {
            TokenKind::Name => Ok(number_type(text)),
            TokenKind::BangName => Ok(bang_type(text)),
            TokenKind::Memref => match memref_type(alloc, text)? {
                Some(memref) => Ok(Some(Ty::Memref(memref))),
                None => Ok(None),
            },
            _ => Ok(None),
        }
    }

    /// What an `!async.value` holds by this token.
    pub fn payload(&self, alloc: Global) -> Result<Option<ValTy>, AllocError>
        ensures { IfOk result (λ ty. ty ≡ payload_of self.now) }
    {
        let ty = self.ty(alloc)?;
        Ok(payload_of_type(ty))
    }
}
