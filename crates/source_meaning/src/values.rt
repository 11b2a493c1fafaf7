//! What a value of a function may be.
use ir_forms::{ElementName, MadeName};
use lists::Items;

/// A number by its bits, a buffer with its sizes, a token or value of a task, or a group.
#[derive(Drop)]
pub enum Val {
    Number(u64),
    Memory { buffer: MadeName, dims: Items<u32> },
    Element(ElementName),
    Group(MadeName),
}
