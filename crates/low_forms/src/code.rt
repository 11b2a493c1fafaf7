//! Functions of blocks, as plain data.
use ir_forms::{FuncNo, OpKind, Pred, Ty};
use lists::Items;

/// A register of a function. Registers are numbered from 0 in the order in which the text defines them, the function's
/// parameters first.
#[derive(Clone, Copy, PartialEq, Eq)]
pub struct Reg(pub u32);

/// A block of a function, by its place.
#[derive(Clone, Copy, PartialEq, Eq)]
pub struct BlockNo(pub u32);

/// A kind of instruction or terminator: one of the operations of the table, or one of the two high rows, which stand
/// for a launch and for an await until coroutines are made of them, and have no text.
#[derive(Clone, Copy, PartialEq, Eq)]
pub enum LowKind {
    Row(OpKind),
    Launch,
    Await,
}

/// What an instruction carries beside its registers: a literal as it is written, a truth, a predicate, a count of
/// references, or the function that it calls, by its place in the module.
#[derive(Clone, Copy)]
pub enum LowAttr {
    None,
    Literal { negative: bool, magnitude: u64 },
    Truth(bool),
    Pred(Pred),
    Count(u64),
    Callee(FuncNo),
}

/// One instruction.
#[derive(Drop)]
pub struct Instr {
    pub kind: LowKind,
    pub operands: Items<Reg>,
    pub results: Items<Reg>,
    pub attr: LowAttr,
}

/// A block that a terminator leads to, with the registers that its parameters take.
#[derive(Drop)]
pub struct Target {
    pub block: BlockNo,
    pub args: Items<Reg>,
}

/// The end of a block: an instruction without results, and its targets.
#[derive(Drop)]
pub struct Term {
    pub instr: Instr,
    pub targets: Items<Target>,
}

#[derive(Drop)]
pub struct Block {
    pub params: Items<Reg>,
    pub instrs: Items<Instr>,
    pub term: Term,
}

/// A function. `regs` are the types of its registers. A coroutine is called at a launch alone, and all others plainly.
#[derive(Drop)]
pub struct LowFunc {
    pub name: Items<u8>,
    pub coroutine: bool,
    pub params: Items<Reg>,
    pub results: Items<Ty>,
    pub regs: Items<Ty>,
    pub blocks: Items<Block>,
}

#[derive(Drop)]
pub struct LowModule {
    pub funcs: Items<LowFunc>,
}
