//! What is built while a text is read: the functions so far, what is open, and the names of the open function.
use crate::name_text::NameText;
use crate::named::{NamedBlock, NamedFunc, NamedInstr, NamedParam};
use ir_forms::Ty;
use lists::Items;
use module_grammar::{Bytes, TextToken};
use name_lists::NameList;

/// How far an entry of a dictionary is `aio.coroutine`.
#[derive(Clone, Copy)]
pub enum AttributeEntry {
    Fresh,
    Coroutine,
    Other,
}

/// The state of a reader.
#[derive(Drop)]
pub struct State<'a> {
    /// The last token.
    pub last: TextToken<'a>,
    /// The types read since the last act that took them.
    pub read: Items<Ty>,
    /// How many types are owed.
    pub owed: u64,
    /// The parameters of the head that is read, and the name of the next one.
    pub params: Items<NamedParam>,
    pub param: Bytes<'a>,
    /// The instruction, the block and the function that are read.
    pub instr: NamedInstr,
    pub block: NamedBlock,
    pub func: NamedFunc,
    /// The registers and blocks that the function defines so far, and those that it uses.
    pub defined: NameList<NameText<'a>>,
    pub labels: NameList<NameText<'a>>,
    pub used: Items<Bytes<'a>>,
    pub jumps: Items<Bytes<'a>>,
    /// How far the entry of a dictionary is read, and whether a whole one was found.
    pub entry: AttributeEntry,
    pub coroutine: bool,
    /// The functions that are read.
    pub funcs: Items<NamedFunc>,
}
