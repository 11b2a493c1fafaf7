//! What is made of a loop, and what its blocks are told.
use ir_forms::{Ty, ValueNo};
use lists::Items;

/// A parallel loop: its number, the bounds and steps of its dimensions, the values that its iterations use from outside,
/// and the names of its functions.
#[derive(Drop)]
pub struct Plan {
    pub at: u32,
    pub lowers: Items<ValueNo>,
    pub uppers: Items<ValueNo>,
    pub steps: Items<ValueNo>,
    pub captured: Items<(ValueNo, Ty)>,
    pub body: Items<u8>,
    pub block: Items<u8>,
    pub dispatch: Items<u8>,
}

/// What all blocks of a loop are told: the size of a block, the number of iterations, the lower bound, the step and the
/// turns of each dimension, and the values that iterations use from outside.
#[derive(Drop)]
pub struct Told {
    pub size: ValueNo,
    pub trip: ValueNo,
    pub lowers: Items<ValueNo>,
    pub steps: Items<ValueNo>,
    pub turns: Items<ValueNo>,
    pub captured: Items<(ValueNo, Ty)>,
}
