//! What opens and closes functions and regions.
ghost use Rattle.std.specs.Prelude.{◌≡◌, ◌∷◌, ◌++◌, [], map, IfOk, OnOk};
ghost use Rattle.module_grammar.specs.State.{does, region_of, made, body_ops, left_out, with_made, begun_with, param_names, param_value, last_as_reduce, as_reduce, is_yield, is_ending, ends_in, terminator_of, close_into};
ghost use Rattle.module_grammar.specs.Steps.{func_of, gone_out, region_joined, ops_ended, terminator_counted};
ghost use Rattle.module_grammar.specs.declared.symbols.Act.TheVariants as act;

use crate::plain::counting::{as_number, up};
use crate::plain::room::add;
use crate::state::{Name, OpenBody, OpenFunc, OpenOp, Outer, Param, State};
use ir_forms::{Attr, Func, Op, OpKind, Region, Ty, ValueNo, copy_type};
use lists::Items;
use name_lists::NameList;
use std::alloc::{AllocError, Global};
use std::mem;

/// Adds copies of the parameters' names to the names.
fn add_names<'a>(
    alloc: Global,
    names: &mut NameList<Name<'a>>,
    params: &[Param<'a>],
) -> Result<(), AllocError>
    ensures { OnOk result (names.new ≡ names.old ++ param_names params.now) }
{
    for param in params {
        names.push(alloc, param.name.copy())?;
    }
    Ok(())
}

/// The values and types of parameters.
fn param_values(alloc: Global, params: &[Param]) -> Result<Items<(ValueNo, Ty)>, AllocError>
    ensures { IfOk result (λ values. values ≡ map param_value params.now) }
{
    let mut values = Items::new(alloc);
    for param in params {
        values.push((ValueNo(param.name.first), copy_type(alloc, &param.ty)?))?;
    }
    Ok(values)
}

/// The operation without operands that a reader makes.
fn made(alloc: Global, kind: OpKind, at: u32) -> Op
    ensures { result ≡ made kind at }
{
    Op {
        kind,
        at,
        operands: Items::new(alloc),
        groups: Items::new(alloc),
        written: Items::new(alloc),
        results: Items::new(alloc),
        types: Items::new(alloc),
        attr: Attr::None,
        regions: Items::new(alloc),
    }
}

fn is_yield(kind: OpKind) -> bool
    ensures { result ≡ is_yield kind }
{
    matches!(kind, OpKind::ScfYield)
}

/// Whether an operation of the kind is a terminator of the other kind.
fn is_ending(terminator: OpKind, kind: OpKind) -> bool
    ensures { result ≡ is_ending terminator kind }
{
    match terminator {
        OpKind::ScfYield => matches!(kind, OpKind::ScfYield),
        OpKind::AsyncYield => matches!(kind, OpKind::AsyncYield),
        OpKind::ScfReduce => matches!(kind, OpKind::ScfReduce),
        _ => false,
    }
}

/// Whether the last operation is a terminator of this kind.
fn ends_in(terminator: OpKind, ops: &Items<Op>) -> bool
    ensures { result ≡ ends_in terminator ops.now }
{
    match ops.get(ops.len().saturating_sub(1)) {
        Some(op) => is_ending(terminator, op.kind),
        None => false,
    }
}

/// The kind of terminator that a region may leave out, where its operation has so many types of results.
fn terminator_of(kind: OpKind, types: usize) -> Option<OpKind>
    ensures { result ≡ terminator_of kind types }
{
    match kind {
        OpKind::ScfFor | OpKind::ScfIf if types == 0 => Some(OpKind::ScfYield),
        OpKind::AsyncExecute if types == 1 => Some(OpKind::AsyncYield),
        OpKind::ScfParallel => Some(OpKind::ScfReduce),
        _ => None,
    }
}

/// The kind of the terminator that is made at the end of a region, if one is.
fn left_out(kind: OpKind, types: &Items<Ty>, ops: &Items<Op>) -> Option<OpKind>
    ensures { result ≡ left_out kind types.now ops.now }
{
    match terminator_of(kind, types.len()) {
        Some(terminator) if !ends_in(terminator, ops) => Some(terminator),
        _ => None,
    }
}

/// In a parallel body a last yield without operands is a reduce.
#[tactic(auto, using(crate::proofs::Lists::last_reduced))]
fn reduce_last(kind: OpKind, ops: &mut Items<Op>) -> Result<(), AllocError>
    ensures { OnOk result (ops.new ≡ body_ops kind ops.old) }
{
    match kind {
        OpKind::ScfParallel => match ops.pop() {
            Some(last) => ops.push(as_reduce(last)),
            None => Ok(()),
        },
        _ => Ok(()),
    }
}

fn as_reduce(op: Op) -> Op
    ensures { result ≡ as_reduce op }
{
    if is_yield(op.kind) && op.operands.len() == 0 {
        Op {
            kind: OpKind::ScfReduce,
            ..op
        }
    } else {
        op
    }
}

/// The function that is over, with these parameters and this body.
fn func_of(alloc: Global, over: OpenFunc, params: Items<(ValueNo, Ty)>, ops: Items<Op>) -> Func
    ensures { result ≡ func_of over.entry params ops }
{
    Func {
        name: over.name,
        params,
        results: over.results,
        body: Region {
            params: Items::new(alloc),
            ops,
        },
        at: over.at,
    }
}

#[tactic(auto, unfolding(crate::specs::State::does))]
impl<'a> State<'a> {
    pub(crate) fn open_body(&mut self, alloc: Global) -> Result<(), AllocError>
        ensures { OnOk result (self.new ≡ does act.OpenBody self.old) }
    {
        let _names = mem::replace(&mut self.visible, NameList::new(alloc));
        add_names(alloc, &mut self.visible, self.op.params.as_slice())?;
        let params = mem::replace(&mut self.op.params, NameList::new(alloc)).into_items();
        let _params = mem::replace(&mut self.func.params, params);
        self.op = OpenOp::blank(alloc, 0);
        self.body = OpenBody::blank(alloc);
        self.deepest = self.deepest.max(1);
        Ok(())
    }

    pub(crate) fn open_region(&mut self, alloc: Global) -> Result<(), AllocError>
        ensures { OnOk result (self.new ≡ does act.OpenRegion self.old) }
    {
        self.deepest = self.deepest.max(up(self.outer.len() as u64, 2));
        let outside = self.visible.len();
        add_names(alloc, &mut self.visible, self.op.params.as_slice())?;
        let params = mem::replace(&mut self.op.params, NameList::new(alloc)).into_items();
        let op = mem::replace(&mut self.op, OpenOp::blank(alloc, 0));
        let inner = OpenBody {
            params,
            ops: Items::new(alloc),
            outside,
        };
        let body = mem::replace(&mut self.body, inner);
        self.outer.push(Outer { op, body })
    }

    /// The region is over: it joins the operation in which it stands.
    #[tactic(auto, unfolding(crate::specs::State::does), using(crate::proofs::Lists::last_pushed, crate::proofs::Lists::without_pushed))]
    pub(crate) fn close_region(&mut self, alloc: Global) -> Result<(), AllocError>
        ensures { OnOk result (self.new ≡ does act.CloseRegion self.old) }
    {
        match self.outer.pop() {
            Some(outer) => {
                let mut body = self.go_out(outer);
                self.join_region(alloc, &mut body)
            }
            None => Ok(()),
        }
    }

    /// Goes back to the operation in which the region stands, and answers the region's body.
    fn go_out(&mut self, outer: Outer<'a>) -> OpenBody<'a>
        ensures body { result ≡ self.old.body }
        ensures state { self.new ≡ gone_out outer.entry self.old }
    {
        let Outer { op, body } = outer;
        self.op = op;
        self.visible.truncate(self.body.outside);
        mem::replace(&mut self.body, body)
    }

    /// The body joins the operation, as its next region. Then it is no longer of use.
    fn join_region(&mut self, alloc: Global, body: &mut OpenBody<'a>) -> Result<(), AllocError>
        ensures { OnOk result (self.new ≡ region_joined body.old self.old) }
    {
        self.end_ops(alloc, &mut body.ops)?;
        let params = param_values(alloc, body.params.as_slice())?;
        let ops = mem::replace(&mut body.ops, Items::new(alloc));
        add(alloc, &mut self.op.regions, Region { params, ops })
    }

    /// Makes the terminator that a body leaves out.
    fn end_ops(&mut self, alloc: Global, ops: &mut Items<Op>) -> Result<(), AllocError>
        ensures ops { OnOk result (ops.new ≡ ops_ended self.old ops.old) }
        ensures state { OnOk result (self.new ≡ terminator_counted ops.old self.old) }
    {
        reduce_last(self.op.kind, ops)?;
        match left_out(self.op.kind, &self.op.types, ops) {
            Some(kind) => {
                self.begun = up(self.begun, 1);
                ops.push(made(alloc, kind, as_number(self.begun)))
            }
            None => Ok(()),
        }
    }

    pub(crate) fn end_func(&mut self, alloc: Global) -> Result<(), AllocError>
        ensures { OnOk result (self.new ≡ does act.EndFunc self.old) }
    {
        let params = param_values(alloc, self.func.params.as_slice())?;
        let func = mem::replace(&mut self.func, OpenFunc::blank(alloc, 0));
        let ops = mem::replace(&mut self.body, OpenBody::blank(alloc)).ops;
        self.funcs.push(func_of(alloc, func, params, ops))
    }
}
