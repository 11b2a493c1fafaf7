//! How loops are split.

/// For how many workers loops are split, and how many iterations a block has at least, where its loop has so many.
#[derive(Clone, Copy)]
pub struct Options {
    pub workers: u32,
    pub least: u32,
}
