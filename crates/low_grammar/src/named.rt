//! Lowered code with the names of its text: registers and blocks by the bytes of their tokens, functions by their names.
use ir_forms::{OpKind, Pred, Ty};
use lists::Items;

/// What an instruction carries beside its registers.
#[derive(Drop)]
pub enum NamedAttr {
    None,
    Literal { negative: bool, magnitude: u64 },
    Truth(bool),
    Pred(Pred),
    Count(u64),
    Callee(Items<u8>),
}

/// A register that is defined, and its type.
#[derive(Drop)]
pub struct NamedParam {
    pub name: Items<u8>,
    pub ty: Ty,
}

/// A block that a terminator leads to, with the registers that its parameters take.
#[derive(Drop)]
pub struct NamedTarget {
    pub block: Items<u8>,
    pub args: Items<Items<u8>>,
}

/// One instruction or terminator. Only a terminator has targets.
#[derive(Drop)]
pub struct NamedInstr {
    pub kind: OpKind,
    pub operands: Items<Items<u8>>,
    pub results: Items<Items<u8>>,
    /// The types of the results.
    pub types: Items<Ty>,
    pub attr: NamedAttr,
    pub targets: Items<NamedTarget>,
}

/// A block, whose last instruction is its terminator.
#[derive(Drop)]
pub struct NamedBlock {
    pub name: Items<u8>,
    pub params: Items<NamedParam>,
    pub instrs: Items<NamedInstr>,
}

#[derive(Drop)]
pub struct NamedFunc {
    pub name: Items<u8>,
    pub coroutine: bool,
    pub params: Items<NamedParam>,
    pub results: Items<Ty>,
    pub blocks: Items<NamedBlock>,
}
