//! Arguments of a run, as they are written and as they fit their parameters.
use lists::Items;

/// A number or a truth, as it is written.
#[derive(Clone, Copy, PartialEq, Eq)]
pub enum Scalar {
    Number { negative: bool, magnitude: u64 },
    Truth(bool),
}

/// An argument as it is written: one value, a buffer's cells row by row, or a buffer whose cells all
/// have one value.
#[derive(PartialEq, Drop)]
pub enum Arg {
    Number {
        negative: bool,
        magnitude: u64,
    },
    Truth(bool),
    Cells {
        dims: Items<u32>,
        values: Items<Scalar>,
    },
    Fill {
        dims: Items<u32>,
        value: Scalar,
    },
}

/// An argument that fits its parameter: the bits of a number, or those of a buffer's cells, row by row.
#[derive(PartialEq, Drop)]
pub enum ArgValue {
    Number(u64),
    Cells {
        dims: Items<u32>,
        values: Items<u64>,
    },
}
