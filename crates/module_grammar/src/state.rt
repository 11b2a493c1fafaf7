//! What is built while a text is read: the functions so far, what is open, and the names that are visible.
use crate::words::bytes::Bytes;
use ir_forms::{Attr, Func, Op, OpKind, Region, Ty, ValueNo};
use lists::Items;
use mlir_lex::TokenKind;
use name_lists::{HasName, NameList};

/// A token: its kind, its bytes, the place of the first of them, and whether it follows the token before at once.
#[derive(Drop)]
pub struct TextToken<'a> {
    pub kind: TokenKind,
    pub text: Bytes<'a>,
    pub at: u32,
    pub joined: bool,
}

impl<'a> HasName for TextToken<'a> {
    ghost text = { λ t. t.text };

    fn name(&self) -> &[u8] {
        self.text.as_slice()
    }
}

/// A name, the place where it is defined, and the number of its first value.
///
/// `%a:n` names n values, of which `%a#k` is number k and `%a` number 0. Any other name has one value and no `#k`.
#[derive(Drop)]
pub struct Name<'a> {
    pub text: Bytes<'a>,
    pub at: u32,
    pub first: u32,
    pub count: Option<u64>,
}

impl<'a> HasName for Name<'a> {
    ghost text = { λ n. n.text };

    fn name(&self) -> &[u8] {
        self.text.as_slice()
    }
}

/// A parameter and its type.
#[derive(Drop)]
pub struct Param<'a> {
    pub name: Name<'a>,
    pub ty: Ty,
}

impl<'a> HasName for Param<'a> {
    ghost text = { λ p. p.name.text };

    fn name(&self) -> &[u8] {
        self.name.text.as_slice()
    }
}

/// An operation whose end isn't read yet. `params` are those of its next region.
#[derive(Drop)]
pub struct OpenOp<'a> {
    pub kind: OpKind,
    pub at: u32,
    pub operands: Items<ValueNo>,
    pub groups: Items<u32>,
    pub written: Items<Ty>,
    pub results: NameList<Name<'a>>,
    pub types: Items<Ty>,
    pub attr: Attr,
    pub regions: Items<Region>,
    pub params: NameList<Param<'a>>,
}

/// A body whose end isn't read yet, and how many names are visible outside of it.
#[derive(Drop)]
pub struct OpenBody<'a> {
    pub params: Items<Param<'a>>,
    pub ops: Items<Op>,
    pub outside: usize,
}

/// An operation in whose region the text stands, and the body that it stands in.
#[derive(Drop)]
pub struct Outer<'a> {
    pub op: OpenOp<'a>,
    pub body: OpenBody<'a>,
}

/// A function whose end isn't read yet.
#[derive(Drop)]
pub struct OpenFunc<'a> {
    pub name: Items<u8>,
    pub params: Items<Param<'a>>,
    pub results: Items<Ty>,
    pub at: u32,
}

/// How far an entry of a dictionary is `aio.at = N : i64`, with N, which is none where it isn't below 2^64, and its place.
#[derive(Clone, Copy)]
pub enum DictEntry {
    Fresh,
    Keyed,
    Equated,
    Numbered { number: Option<u64>, at: u32 },
    Typed { number: Option<u64>, at: u32 },
    Whole { number: Option<u64>, at: u32 },
    Other,
}

/// The state of a reader. What is counted is that of the whole text, and not past 2^32.
#[derive(Drop)]
pub struct State<'a> {
    /// The last token.
    pub last: TextToken<'a>,
    /// The types read since the last act that took them.
    pub read: Items<Ty>,
    /// The names that are visible, the newest last.
    pub visible: NameList<Name<'a>>,
    /// The number of the next value.
    pub next: u32,
    /// The name used last.
    pub used: Bytes<'a>,
    /// How many operations are begun.
    pub begun: u64,
    /// How many functions are begun.
    pub functions: u64,
    /// The depth of the deepest region.
    pub deepest: u64,
    /// How often values' names stand at definitions and uses.
    pub counted: u64,
    /// The operation that is read.
    pub op: OpenOp<'a>,
    /// The body that the operation stands in.
    pub body: OpenBody<'a>,
    /// The operations in whose regions the text stands, the innermost last.
    pub outer: Items<Outer<'a>>,
    /// Names that may be operands or the next operation's results.
    pub held: NameList<TextToken<'a>>,
    /// How far the entry of a dictionary is read.
    pub entry: DictEntry,
    /// The number of the last whole entry of a dictionary.
    pub entry_at: Option<u64>,
    /// The function that is read.
    pub func: OpenFunc<'a>,
    /// The functions that are read.
    pub funcs: Items<Func>,
}
