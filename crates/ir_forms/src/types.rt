use int_ops::Width;
use lists::Items;

/// A type of the grammar, and `Untyped` for a region's parameter whose form gives it none.
#[derive(PartialEq, Drop)]
pub enum Ty {
    Int(Width),
    Index,
    Memref(MemTy),
    Token,
    Value(ValTy),
    Group,
    /// A coroutine's identity, handle and saved state stand in lowered code alone.
    CoroId,
    CoroHandle,
    CoroState,
    Untyped,
}

/// A type of whole numbers.
#[derive(Clone, Copy, PartialEq, Eq)]
pub enum NumTy {
    Int(Width),
    Index,
}

/// The type of one cell of a buffer. After verification it is a type of numbers.
#[derive(Clone, Copy, PartialEq, Eq)]
pub enum CellTy {
    Int(Width),
    Index,
    Token,
    Group,
    Value(NumTy),
}

/// One dimension of a buffer: its size, or `?`.
#[derive(Clone, Copy, PartialEq, Eq)]
pub enum Dim {
    Fixed(u32),
    Dynamic,
}

/// `memref<..>`: the sizes from the outermost dimension on, and the type of a cell.
#[derive(PartialEq, Drop)]
pub struct MemTy {
    pub elem: CellTy,
    pub dims: Items<Dim>,
}

/// What an `!async.value<..>` holds.
#[derive(PartialEq, Drop)]
pub enum ValTy {
    Int(Width),
    Index,
    Memref(MemTy),
}

/// The type of a number that a run gives back.
#[derive(Clone, Copy, PartialEq, Eq)]
pub enum OutTy {
    Int(Width),
    Index,
}
