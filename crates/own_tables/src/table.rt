//! Tables of numbers, as plain data.
use lists::Items;
use low_forms::Reg;

/// A register, and how many references of its object a frame owns.
#[derive(Clone, Copy)]
pub struct Owned {
    pub reg: Reg,
    pub count: u64,
}

/// By function, block and place, the registers with their numbers. The places of a block are those of its instructions,
/// and behind them that of the terminator. A place that is missing has none, and a register that isn't listed 0; of one
/// that is listed twice the first number counts.
#[derive(Drop)]
pub struct OwnTable {
    pub funcs: Items<Items<Items<Items<Owned>>>>,
}
