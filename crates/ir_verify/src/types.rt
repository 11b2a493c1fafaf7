//! What the verifier asks of one type.
ghost use Rattle.std.specs.Prelude.{◌≡◌, length};
ghost use Rattle.ir_verify.specs.Types.{same_width, same_dim, same_dims, same_number, same_cell, same_memref, same_payload, same_type, holds, holds_number, is_cell, is_element, is_number, is_truth, is_index, is_memref, is_token, is_value, is_group, is_awaitable, dims_of, is_open, open_dims, is_async_cell, has_async_cells, extends, truncates, casts_index, fits_bits, fits_width, literal_fits};

use ir_forms::{Attr, CellTy, Dim, MemTy, NumTy, Ty, ValTy, Width};

fn same_width(v: Width, w: Width) -> bool
    ensures { result ≡ same_width v w }
{
    v.bits() == w.bits()
}

fn same_dim(d: Dim, e: Dim) -> bool
    ensures { result ≡ same_dim d e }
{
    match (d, e) {
        (Dim::Fixed(m), Dim::Fixed(n)) => m == n,
        (Dim::Dynamic, Dim::Dynamic) => true,
        _ => false,
    }
}

fn same_dims(ds: &[Dim], es: &[Dim]) -> bool
    ensures { result ≡ same_dims ds.now es.now }
{
    match ds {
        [] => es.is_empty(),
        [d, ds @ ..] => match es {
            [] => false,
            [e, es @ ..] => same_dim(*d, *e) && same_dims(ds, es),
        },
    }
}

fn same_number(m: NumTy, n: NumTy) -> bool
    ensures { result ≡ same_number m n }
{
    match (m, n) {
        (NumTy::Int(v), NumTy::Int(w)) => same_width(v, w),
        (NumTy::Index, NumTy::Index) => true,
        _ => false,
    }
}

fn same_cell(c: CellTy, d: CellTy) -> bool
    ensures { result ≡ same_cell c d }
{
    match (c, d) {
        (CellTy::Int(v), CellTy::Int(w)) => same_width(v, w),
        (CellTy::Index, CellTy::Index) => true,
        (CellTy::Token, CellTy::Token) => true,
        (CellTy::Group, CellTy::Group) => true,
        (CellTy::Value(m), CellTy::Value(n)) => same_number(m, n),
        _ => false,
    }
}

fn same_memref(m: &MemTy, n: &MemTy) -> bool
    ensures { result ≡ same_memref m.now n.now }
{
    same_cell(m.elem, n.elem) && same_dims(m.dims.as_slice(), n.dims.as_slice())
}

fn same_payload(p: &ValTy, q: &ValTy) -> bool
    ensures { result ≡ same_payload p.now q.now }
{
    match (p, q) {
        (ValTy::Int(v), ValTy::Int(w)) => same_width(*v, *w),
        (ValTy::Index, ValTy::Index) => true,
        (ValTy::Memref(m), ValTy::Memref(n)) => same_memref(m, n),
        _ => false,
    }
}

/// Whether two types of the grammar are one.
pub fn same_type(t: &Ty, u: &Ty) -> bool
    ensures { result ≡ same_type t.now u.now }
{
    match (t, u) {
        (Ty::Int(v), Ty::Int(w)) => same_width(*v, *w),
        (Ty::Index, Ty::Index) => true,
        (Ty::Memref(m), Ty::Memref(n)) => same_memref(m, n),
        (Ty::Token, Ty::Token) => true,
        (Ty::Value(p), Ty::Value(q)) => same_payload(p, q),
        (Ty::Group, Ty::Group) => true,
        (Ty::CoroId, Ty::CoroId) => true,
        (Ty::CoroHandle, Ty::CoroHandle) => true,
        (Ty::CoroState, Ty::CoroState) => true,
        _ => false,
    }
}

/// Whether the second type is what a value of the first one holds.
pub fn holds(t: &Ty, u: &Ty) -> bool
    ensures { result ≡ holds t.now u.now }
{
    match (t, u) {
        (Ty::Value(ValTy::Int(v)), Ty::Int(w)) => same_width(*v, *w),
        (Ty::Value(ValTy::Index), Ty::Index) => true,
        (Ty::Value(ValTy::Memref(m)), Ty::Memref(n)) => same_memref(m, n),
        _ => false,
    }
}

fn holds_number(n: NumTy, p: &ValTy) -> bool
    ensures { result ≡ holds_number n p.now }
{
    match (n, p) {
        (NumTy::Int(v), ValTy::Int(w)) => same_width(v, *w),
        (NumTy::Index, ValTy::Index) => true,
        _ => false,
    }
}

fn is_cell(c: CellTy, t: &Ty) -> bool
    ensures { result ≡ is_cell c t.now }
{
    match (c, t) {
        (CellTy::Int(v), Ty::Int(w)) => same_width(v, *w),
        (CellTy::Index, Ty::Index) => true,
        (CellTy::Token, Ty::Token) => true,
        (CellTy::Group, Ty::Group) => true,
        (CellTy::Value(n), Ty::Value(p)) => holds_number(n, p),
        _ => false,
    }
}

/// Whether the second type is that of the cells of the first one.
pub fn is_element(t: &Ty, u: &Ty) -> bool
    ensures { result ≡ is_element t.now u.now }
{
    match t {
        Ty::Memref(m) => is_cell(m.elem, u),
        _ => false,
    }
}

pub fn is_number(t: &Ty) -> bool
    ensures { result ≡ is_number t.now }
{
    matches!(t, Ty::Int(_) | Ty::Index)
}

pub fn is_truth(t: &Ty) -> bool
    ensures { result ≡ is_truth t.now }
{
    matches!(t, Ty::Int(Width::W1))
}

pub fn is_index(t: &Ty) -> bool
    ensures { result ≡ is_index t.now }
{
    matches!(t, Ty::Index)
}

pub fn is_memref(t: &Ty) -> bool
    ensures { result ≡ is_memref t.now }
{
    matches!(t, Ty::Memref(_))
}

pub fn is_token(t: &Ty) -> bool
    ensures { result ≡ is_token t.now }
{
    matches!(t, Ty::Token)
}

pub fn is_value(t: &Ty) -> bool
    ensures { result ≡ is_value t.now }
{
    matches!(t, Ty::Value(_))
}

pub fn is_group(t: &Ty) -> bool
    ensures { result ≡ is_group t.now }
{
    matches!(t, Ty::Group)
}

pub fn is_awaitable(t: &Ty) -> bool
    ensures { result ≡ is_awaitable t.now }
{
    matches!(t, Ty::Token | Ty::Value(_))
}

/// The number of dimensions of a memref.
pub fn rank(t: &Ty) -> usize
    ensures { result ≡ length (dims_of t.now) }
{
    match t {
        Ty::Memref(m) => m.dims.len(),
        _ => 0,
    }
}

/// How many sizes of a memref are `?`.
pub fn open_rank(t: &Ty) -> usize
    ensures { result ≡ open_dims (dims_of t.now) }
{
    match t {
        Ty::Memref(m) => open_dims(m.dims.as_slice()),
        _ => 0,
    }
}

fn open_dims(dims: &[Dim]) -> usize
    ensures { result ≡ open_dims dims.now }
{
    dims.iter().filter(|dim| is_open(**dim)).count()
}

fn is_open(dim: Dim) -> bool
    ensures { result ≡ is_open dim }
{
    matches!(dim, Dim::Dynamic)
}

fn is_async_cell(c: CellTy) -> bool
    ensures { result ≡ is_async_cell c }
{
    matches!(c, CellTy::Token | CellTy::Group | CellTy::Value(_))
}

/// Whether the type is a memref with cells of an async type, or a value that holds one.
pub(crate) fn has_async_cells(t: &Ty) -> bool
    ensures { result ≡ has_async_cells t.now }
{
    match t {
        Ty::Memref(m) | Ty::Value(ValTy::Memref(m)) => is_async_cell(m.elem),
        _ => false,
    }
}

pub fn extends(t: &Ty, u: &Ty) -> bool
    ensures { result ≡ extends t.now u.now }
{
    match (t, u) {
        (Ty::Int(v), Ty::Int(w)) => v.bits() < w.bits(),
        _ => false,
    }
}

pub fn truncates(t: &Ty, u: &Ty) -> bool
    ensures { result ≡ truncates t.now u.now }
{
    match (t, u) {
        (Ty::Int(v), Ty::Int(w)) => w.bits() < v.bits(),
        _ => false,
    }
}

pub fn casts_index(t: &Ty, u: &Ty) -> bool
    ensures { result ≡ casts_index t.now u.now }
{
    matches!((t, u), (Ty::Int(_), Ty::Index) | (Ty::Index, Ty::Int(_)))
}

fn fits_width(width: Width, negative: bool, magnitude: u64) -> bool
    ensures { result ≡ fits_width width negative magnitude }
{
    let (below, above) = match width {
        Width::W1 => return false,
        Width::W8 => (0x80, 0xff),
        Width::W16 => (0x8000, 0xffff),
        Width::W32 => (0x8000_0000, 0xffff_ffff),
        Width::W64 => (0x8000_0000_0000_0000, 0xffff_ffff_ffff_ffff),
    };
    magnitude <= if negative { below } else { above }
}

/// Whether a literal, a truth or a number, has a type and lies in its range.
pub fn literal_fits(attr: &Attr, t: &Ty) -> bool
    ensures { result ≡ literal_fits attr.now t.now }
{
    match (attr, t) {
        (
            Attr::Literal {
                negative,
                magnitude,
            },
            Ty::Int(width),
        ) => fits_width(*width, *negative, *magnitude),
        (
            Attr::Literal {
                negative,
                magnitude,
            },
            Ty::Index,
        ) => fits_width(Width::W64, *negative, *magnitude),
        (Attr::Truth(_), _) => is_truth(t),
        _ => false,
    }
}
