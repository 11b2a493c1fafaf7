//! What the acts make of the state.
ghost use Rattle.std.specs.Prelude.{◌≡◌, ◌∷◌, [], OnOk};
ghost use Rattle.module_grammar.specs.State.{no_op, no_body, no_func, does, add_operand, add_result, add_param, add_block_param, end_op, begin_op, add_types, add_written};
ghost use Rattle.module_grammar.specs.Steps.{closed_op, results_shown, op_joined};
ghost use Rattle.module_grammar.specs.declared.symbols.Act.TheVariants as act;

use crate::acts::parts::{add_else, ungrouped};
use crate::names::{resolve, resolve_at, values_of, with_names};
use crate::plain::copies::copied_twice;
use crate::plain::counting::{as_number, number_up, up};
use crate::plain::room::{add, join};
use crate::state::{DictEntry, OpenBody, OpenFunc, OpenOp, Param, State, TextToken};
use crate::words::bytes::Bytes;
use ir_forms::{Attr, Op, OpKind, Ty, ValueNo};
use lists::Items;
use name_lists::NameList;
use std::alloc::{AllocError, Global};
use std::mem;

impl<'a> OpenOp<'a> {
    /// An operation of which nothing is read yet.
    pub fn blank(alloc: Global, at: u32) -> OpenOp<'a>
        ensures { result ≡ no_op at }
    {
        OpenOp {
            kind: OpKind::ScfReduce,
            at,
            operands: Items::new(alloc),
            groups: Items::new(alloc),
            written: Items::new(alloc),
            results: NameList::new(alloc),
            types: Items::new(alloc),
            attr: Attr::None,
            regions: Items::new(alloc),
            params: NameList::new(alloc),
        }
    }
}

impl<'a> OpenBody<'a> {
    pub fn blank(alloc: Global) -> OpenBody<'a>
        ensures { result ≡ no_body }
    {
        OpenBody {
            params: Items::new(alloc),
            ops: Items::new(alloc),
            outside: 0,
        }
    }
}

impl<'a> OpenFunc<'a> {
    pub fn blank(alloc: Global, at: u32) -> OpenFunc<'a>
        ensures { result ≡ no_func at }
    {
        OpenFunc {
            name: Items::new(alloc),
            params: Items::new(alloc),
            results: Items::new(alloc),
            at,
        }
    }
}

/// The operation that is over, of these results.
fn op_of(over: OpenOp, results: Items<ValueNo>) -> Op
    ensures { result ≡ closed_op over.entry results }
{
    Op {
        kind: over.kind,
        at: over.at,
        operands: over.operands,
        groups: over.groups,
        written: over.written,
        results,
        types: over.types,
        attr: over.attr,
        regions: over.regions,
    }
}

#[tactic(auto, unfolding(crate::specs::State::does))]
impl<'a> State<'a> {
    pub(crate) fn begin_func(&mut self, alloc: Global)
        ensures { self.new ≡ does act.BeginFunc self.old }
    {
        self.begun = up(self.begun, 1);
        self.functions = up(self.functions, 1);
        self.func = OpenFunc::blank(alloc, as_number(self.begun));
        let _names = mem::replace(&mut self.visible, NameList::new(alloc));
        self.next = 0;
        self.op = OpenOp::blank(alloc, 0);
        self.body = OpenBody::blank(alloc);
        let _outer = mem::replace(&mut self.outer, Items::new(alloc));
    }

    pub(crate) fn func_results(&mut self, alloc: Global)
        ensures { self.new ≡ does act.FuncResults self.old }
    {
        self.func.results = mem::replace(&mut self.read, Items::new(alloc));
    }

    pub(crate) fn func_at(&mut self)
        ensures { self.new ≡ does act.FuncAt self.old }
    {
        if let Some(number) = self.entry_at {
            self.func.at = as_number(number);
        }
    }

    pub(crate) fn begin_op(&mut self, alloc: Global)
        ensures { self.new ≡ begin_op self.old }
    {
        self.begun = up(self.begun, 1);
        self.op = OpenOp::blank(alloc, as_number(self.begun));
    }

    /// The names of the results become visible.
    fn show_results(&mut self, alloc: Global) -> Result<(), AllocError>
        ensures { OnOk result (self.new ≡ results_shown self.old) }
    {
        let names = mem::replace(&mut self.op.results, NameList::new(alloc));
        self.visible.append(alloc, names)
    }

    /// The operation, of these results, joins its body.
    fn close_op(&mut self, alloc: Global, values: Items<ValueNo>) -> Result<(), AllocError>
        ensures { OnOk result (self.new ≡ op_joined values self.old) }
    {
        let open = mem::replace(&mut self.op, OpenOp::blank(alloc, 0));
        self.body.ops.push(op_of(open, values))
    }

    /// The operation is over: it joins its body, and its results become visible.
    pub(crate) fn end_op(&mut self, alloc: Global) -> Result<(), AllocError>
        ensures { OnOk result (self.new ≡ end_op self.old) }
    {
        let values = values_of(alloc, self.op.results.as_slice())?;
        add_else(alloc, self.op.kind, &mut self.op.regions)?;
        self.show_results(alloc)?;
        self.close_op(alloc, values)
    }

    pub(crate) fn op_at(&mut self)
        ensures { self.new ≡ does act.OpAt self.old }
    {
        if let Some(number) = self.entry_at {
            self.op.at = as_number(number);
        }
    }

    /// The token names the next result.
    pub(crate) fn add_result(
        &mut self,
        alloc: Global,
        token: &TextToken<'a>,
    ) -> Result<(), AllocError>
        ensures { OnOk result (self.new ≡ add_result token.now self.old) }
    {
        self.op.results.push(alloc, token.name(self.next))?;
        self.next = number_up(self.next, 1);
        Ok(())
    }

    pub(crate) fn result(&mut self, alloc: Global) -> Result<(), AllocError>
        ensures { OnOk result (self.new ≡ does act.Result self.old) }
    {
        self.op.results.push(alloc, self.last.name(self.next))?;
        self.next = number_up(self.next, 1);
        Ok(())
    }

    pub(crate) fn count_names(&mut self)
        ensures { self.new ≡ does act.CountNames self.old }
    {
        self.counted = with_names(self.counted, self.op.results.as_slice());
    }

    /// The token is a use of the next operand.
    pub(crate) fn add_operand(&mut self, token: &TextToken<'a>) -> Result<(), AllocError>
        ensures { OnOk result (self.new ≡ add_operand token.now self.old) }
    {
        let value = resolve(&self.visible, token.text.as_slice());
        self.op.operands.push(value)?;
        self.used = token.text.copy();
        self.counted = up(self.counted, 1);
        Ok(())
    }

    pub(crate) fn operand(&mut self) -> Result<(), AllocError>
        ensures { OnOk result (self.new ≡ does act.Operand self.old) }
    {
        let value = resolve(&self.visible, self.last.text.as_slice());
        self.op.operands.push(value)?;
        self.used = self.last.text.copy();
        self.counted = up(self.counted, 1);
        Ok(())
    }

    pub(crate) fn group(&mut self) -> Result<(), AllocError>
        ensures { OnOk result (self.new ≡ does act.Group self.old) }
    {
        let count = ungrouped(self.op.operands.len() as u64, self.op.groups.as_slice());
        self.op.groups.push(as_number(count))
    }

    pub(crate) fn hold(&mut self, alloc: Global) -> Result<(), AllocError>
        ensures { OnOk result (self.new ≡ does act.Hold self.old) }
    {
        self.held.push(alloc, self.last.copy())
    }

    /// The last token names a parameter of this type.
    pub(crate) fn add_param(&mut self, alloc: Global, ty: Ty) -> Result<(), AllocError>
        ensures { OnOk result (self.new ≡ add_param ty self.old) }
    {
        let name = self.last.name(self.next);
        self.op.params.push(alloc, Param { name, ty })?;
        self.next = number_up(self.next, 1);
        self.counted = up(self.counted, 1);
        Ok(())
    }

    pub(crate) fn block_param(&mut self, alloc: Global) -> Result<(), AllocError>
        ensures { OnOk result (self.new ≡ does act.BlockParam self.old) }
    {
        self.visible.push(alloc, self.last.name(self.next))?;
        self.body.params.push(Param {
            name: self.last.name(self.next),
            ty: Ty::Untyped,
        })?;
        self.next = number_up(self.next, 1);
        self.counted = up(self.counted, 1);
        Ok(())
    }

    /// This type joins those of the results.
    pub(crate) fn add_type(&mut self, alloc: Global, ty: Ty) -> Result<(), AllocError>
        ensures { OnOk result (self.new ≡ add_types (ty ∷ []) self.old) }
    {
        add(alloc, &mut self.op.types, ty)
    }

    /// The types read join those that the form writes for its operands.
    pub(crate) fn written(&mut self, alloc: Global) -> Result<(), AllocError>
        ensures { OnOk result (self.new ≡ does act.Written self.old) }
    {
        let types = mem::replace(&mut self.read, Items::new(alloc));
        join(&mut self.op.written, types)
    }

    pub(crate) fn twice(&mut self, alloc: Global) -> Result<(), AllocError>
        ensures { OnOk result (self.new ≡ does act.Twice self.old) }
    {
        let types = copied_twice(alloc, self.read.as_slice())?;
        self.read = Items::new(alloc);
        join(&mut self.op.written, types)
    }

    pub(crate) fn same_types(&mut self, alloc: Global) -> Result<(), AllocError>
        ensures { OnOk result (self.new ≡ does act.SameTypes self.old) }
    {
        let types = copied_twice(alloc, self.read.as_slice())?;
        join(&mut self.op.written, types)?;
        self.results(alloc)
    }

    pub(crate) fn results(&mut self, alloc: Global) -> Result<(), AllocError>
        ensures { OnOk result (self.new ≡ does act.Results self.old) }
    {
        let types = mem::replace(&mut self.read, Items::new(alloc));
        join(&mut self.op.types, types)
    }

    pub(crate) fn begin_dict(&mut self)
        ensures { self.new ≡ does act.BeginDict self.old }
    {
        self.entry = DictEntry::Fresh;
        self.entry_at = None;
    }

    pub(crate) fn other_entry(&mut self)
        ensures { self.new ≡ does act.OtherEntry self.old }
    {
        self.entry = DictEntry::Other;
    }

    pub(crate) fn end_entry(&mut self)
        ensures { self.new ≡ does act.EndEntry self.old }
    {
        if let DictEntry::Whole { number, at: _ } = self.entry {
            self.entry_at = number;
        }
        self.entry = DictEntry::Fresh;
    }
}
