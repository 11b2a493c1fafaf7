use crate::types::OutTy;
use lists::Items;

/// A function of a module, by its place.
#[derive(Clone, Copy, PartialEq, Eq, Debug)]
pub struct FuncNo(pub u32);

/// A task of a run, numbered in the order of launching. The root is 0.
#[derive(Clone, Copy, PartialEq, Eq)]
pub struct TaskNo(pub u32);

/// A runtime object of a run, numbered in the order of making.
#[derive(Clone, Copy, PartialEq, Eq)]
pub struct ObjNo(pub u32);

/// A number that a run gives back: its bits at the width of its type.
#[derive(Clone, Copy, PartialEq, Eq)]
pub struct Out {
    pub ty: OutTy,
    pub bits: u64,
}

/// The cells of a buffer that was the entry's parameter at this index, row by row.
#[derive(PartialEq, Drop)]
pub struct Buffer {
    pub argument: u32,
    pub cells: Items<Out>,
}
