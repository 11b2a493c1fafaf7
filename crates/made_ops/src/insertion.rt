//! An insertion under way.
use ir_forms::{NumTy, Op, ValueNo};
use lists::Items;

/// What a made operation reads: a value, or a number, which is a constant of the operation's type.
#[derive(Clone, Copy, PartialEq, Eq)]
pub enum Operand {
    Value(ValueNo),
    Number(u64),
}

/// A constant that has been made: its type, its bits, and its value.
#[derive(Clone, Copy, PartialEq, Eq)]
pub struct Known {
    pub ty: NumTy,
    pub bits: u64,
    pub value: ValueNo,
}

/// Operations that are made for one operation: those so far, the constants that are visible where the next one stands,
/// the number of the next value, and the number of the operation that they are made for.
#[derive(Drop)]
pub struct Insertion {
    pub ops: Items<Op>,
    pub known: Items<Known>,
    pub free: u32,
    pub at: u32,
}
