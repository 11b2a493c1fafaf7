use bit_sets::BitSet;
use lists::Items;

/// Of a function: by block, where its edges lead, and what is live over an edge to it.
#[derive(Drop)]
pub(crate) struct Table {
    pub(crate) targets: Vec<Items<usize>>,
    pub(crate) sets: Vec<BitSet>,
}
