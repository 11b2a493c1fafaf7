use crate::types::Ty;
use int_ops::Pred;
use lists::Items;
use op_table::OpKind;

/// A value of a function, numbered from 0 in the order in which the text defines them.
#[derive(Clone, Copy, PartialEq, Eq)]
pub struct ValueNo(pub u32);

impl ValueNo {
    /// Stands for a name that isn't visible where it is used.
    pub const UNKNOWN: ValueNo = ValueNo(u32::MAX);
}

/// What an operation carries beside its operands: a literal as it is written, a truth, a predicate,
/// a text, or the name of the function that it calls.
#[derive(PartialEq, Drop)]
pub enum Attr {
    None,
    Literal { negative: bool, magnitude: u64 },
    Truth(bool),
    Pred(Pred),
    Text(Items<u8>),
    Callee(Items<u8>),
}

/// One operation.
///
/// `operands` are the operand groups one after another, `groups` their lengths for the forms that
/// have several, and `written` the operand types as the form writes them. `types` are the types of
/// the results as the form says them; their number may differ from that of `results`.
#[cycle(ir)]
#[derive(PartialEq, Drop)]
pub struct Op {
    pub kind: OpKind,
    pub at: u32,
    pub operands: Items<ValueNo>,
    pub groups: Items<u32>,
    pub written: Items<Ty>,
    pub results: Items<ValueNo>,
    pub types: Items<Ty>,
    pub attr: Attr,
    pub regions: Items<Region>,
}

/// A body: its parameters and its operations, the terminator last.
#[cycle(ir)]
#[derive(PartialEq, Drop)]
pub struct Region {
    pub params: Items<(ValueNo, Ty)>,
    pub ops: Items<Op>,
}

/// A function. Its parameters stand here, and those of its body are empty.
#[derive(PartialEq, Drop)]
pub struct Func {
    pub name: Items<u8>,
    pub params: Items<(ValueNo, Ty)>,
    pub results: Items<Ty>,
    pub body: Region,
    pub at: u32,
}

#[derive(PartialEq, Drop)]
pub struct Module {
    pub funcs: Items<Func>,
}
