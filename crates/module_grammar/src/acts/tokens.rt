//! What the acts make of the last token.
ghost use Rattle.std.specs.Prelude.{◌≡◌, ◌∷◌, [], drop, unwrap_or, IfOk, OnOk};
ghost use Rattle.module_grammar.specs.State.{does, begin_op, end_op, add_operands, add_results, last_typed, typed_by, first_type, payload_types, element_type, cell_type, held_type, number_payload, value_type, entry_after, index_of, with_attr, literal};
ghost use Rattle.module_grammar.specs.Steps.{option_list};
ghost use Rattle.module_grammar.specs.declared.symbols.Act.TheVariants as act;

use crate::names::resolve_at;
use crate::plain::counting::number_up;
use crate::plain::room::add;
use crate::state::{DictEntry, Name, Param, State, TextToken};
use ir_forms::{Attr, CellTy, NumTy, Pred, Ty, ValTy, Width, copy_payload, copy_type};
use lists::Items;
use mlir_lex::TokenKind;
use name_lists::NameList;
use std::alloc::{AllocError, Global};
use std::mem;

/// The first type, or none.
fn first_type(alloc: Global, types: &[Ty]) -> Result<Ty, AllocError>
    ensures { IfOk result (λ ty. ty ≡ first_type types.now) }
{
    match types.first() {
        Some(ty) => copy_type(alloc, ty),
        None => Ok(Ty::Untyped),
    }
}

fn number_payload(number: NumTy) -> ValTy
    ensures { result ≡ number_payload number }
{
    match number {
        NumTy::Int(width) => ValTy::Int(width),
        NumTy::Index => ValTy::Index,
    }
}

fn cell_type(cell: CellTy) -> Ty
    ensures { result ≡ cell_type cell }
{
    match cell {
        CellTy::Int(width) => Ty::Int(width),
        CellTy::Index => Ty::Index,
        CellTy::Token => Ty::Token,
        CellTy::Group => Ty::Group,
        CellTy::Value(number) => Ty::Value(number_payload(number)),
    }
}

/// The type of the cells of a memref.
fn element_type(ty: &Ty) -> Ty
    ensures { result ≡ element_type ty.now }
{
    match ty {
        Ty::Memref(memref) => cell_type(memref.elem),
        _ => Ty::Untyped,
    }
}

fn held_type(payload: ValTy) -> Ty
    ensures { result ≡ held_type payload }
{
    match payload {
        ValTy::Int(width) => Ty::Int(width),
        ValTy::Index => Ty::Index,
        ValTy::Memref(memref) => Ty::Memref(memref),
    }
}

/// What awaiting the first of these types gives, if it gives anything.
fn first_payload(alloc: Global, types: &[Ty]) -> Result<Option<Ty>, AllocError>
    ensures { IfOk result (λ ty. option_list ty ≡ payload_types (first_type types.now)) }
{
    match types.first() {
        Some(Ty::Value(payload)) => {
            let payload = copy_payload(alloc, payload)?;
            Ok(Some(held_type(payload)))
        }
        _ => Ok(None),
    }
}

/// The type of the cells of the first of these types, which is a memref.
fn first_element(types: &[Ty]) -> Ty
    ensures { result ≡ element_type (first_type types.now) }
{
    match types.first() {
        Some(ty) => element_type(ty),
        None => Ty::Untyped,
    }
}

impl DictEntry {
    /// The entry with one more token, which is no bracket and no comma.
    fn after(self, token: &TextToken) -> DictEntry
        ensures { result ≡ entry_after self token.now }
    {
        let text = token.text.as_slice();
        match self {
            DictEntry::Fresh if text == b"aio.at".as_slice() => DictEntry::Keyed,
            DictEntry::Keyed if text == b"=".as_slice() => DictEntry::Equated,
            DictEntry::Equated if matches!(token.kind, TokenKind::Digits | TokenKind::Hex) =>
                DictEntry::Numbered {
                    number: token.number(),
                    at: token.at,
                },
            DictEntry::Numbered { number, at } if text == b":".as_slice() => DictEntry::Typed {
                number,
                at,
            },
            DictEntry::Typed { number, at } if text == b"i64".as_slice() => DictEntry::Whole {
                number,
                at,
            },
            _ => DictEntry::Other,
        }
    }
}

#[tactic(auto, unfolding(crate::specs::State::does))]
impl<'a> State<'a> {
    /// The tokens are uses of the next operands.
    fn add_operands(&mut self, tokens: &[TextToken<'a>]) -> Result<(), AllocError>
        ensures { OnOk result (self.new ≡ add_operands tokens.now self.old) }
    {
        for token in tokens {
            self.add_operand(token)?;
        }
        Ok(())
    }

    /// The tokens name the next results.
    fn add_results(&mut self, alloc: Global, tokens: &[TextToken<'a>]) -> Result<(), AllocError>
        ensures { OnOk result (self.new ≡ add_results tokens.now self.old) }
    {
        for token in tokens {
            self.add_result(alloc, token)?;
        }
        Ok(())
    }

    /// The operation is over, and the tokens name the results of the next.
    fn end_with_results(
        &mut self,
        alloc: Global,
        tokens: &[TextToken<'a>],
    ) -> Result<(), AllocError>
        ensures { OnOk result (self.new ≡ add_results tokens.now (begin_op (end_op self.old))) }
    {
        self.end_op(alloc)?;
        self.begin_op(alloc);
        self.add_results(alloc, tokens)
    }

    pub(crate) fn entry(&mut self)
        ensures { self.new ≡ does act.Entry self.old }
    {
        self.entry = self.entry.after(&self.last);
    }

    #[tactic(auto, unfolding(crate::specs::State::does), using(crate::proofs::Lists::last_named))]
    pub(crate) fn result_count(&mut self, alloc: Global) -> Result<(), AllocError>
        ensures { OnOk result (self.new ≡ does act.ResultCount self.old) }
    {
        let number = self.last.number().unwrap_or(0);
        if let Some(name) = self.op.results.pop() {
            let name = Name {
                text: name.text,
                at: name.at,
                first: name.first,
                count: Some(number),
            };
            self.op.results.push(alloc, name)?;
        }
        self.next = number_up(self.next.saturating_sub(1), number);
        Ok(())
    }

    pub(crate) fn held_operands(&mut self, alloc: Global) -> Result<(), AllocError>
        ensures { OnOk result (self.new ≡ does act.HeldOperands self.old) }
    {
        let held = mem::replace(&mut self.held, NameList::new(alloc));
        self.add_operands(held.as_slice())
    }

    pub(crate) fn held_results(&mut self, alloc: Global) -> Result<(), AllocError>
        ensures { OnOk result (self.new ≡ does act.HeldResults self.old) }
    {
        let held = mem::replace(&mut self.held, NameList::new(alloc));
        self.end_with_results(alloc, held.as_slice())
    }

    #[tactic(auto, unfolding(crate::specs::State::does), using(crate::proofs::Lists::last_given))]
    pub(crate) fn param_type(&mut self, alloc: Global) -> Result<(), AllocError>
        ensures { OnOk result (self.new ≡ does act.ParamType self.old) }
    {
        let ty = first_type(alloc, self.read.as_slice())?;
        self.read = Items::new(alloc);
        match self.op.params.pop() {
            Some(param) => {
                let name = param.name;
                self.op.params.push(alloc, Param { name, ty })
            }
            None => Ok(()),
        }
    }

    #[tactic(auto, unfolding(crate::specs::State::does), using(crate::proofs::Lists::last_given))]
    pub(crate) fn block_param_type(&mut self, alloc: Global) -> Result<(), AllocError>
        ensures { OnOk result (self.new ≡ does act.BlockParamType self.old) }
    {
        let ty = first_type(alloc, self.read.as_slice())?;
        self.read = Items::new(alloc);
        match self.body.params.pop() {
            Some(param) => self.body.params.push(Param {
                name: param.name,
                ty,
            }),
            None => Ok(()),
        }
    }

    #[tactic(auto, unfolding(crate::specs::State::does), using(crate::proofs::Lists::last_given))]
    pub(crate) fn payload_param(&mut self, alloc: Global) -> Result<(), AllocError>
        ensures { OnOk result (self.new ≡ does act.PayloadParam self.old) }
    {
        let ty = first_payload(alloc, self.read.as_slice())?.unwrap_or(Ty::Untyped);
        match self.op.params.pop() {
            Some(param) => {
                let name = param.name;
                self.op.params.push(alloc, Param { name, ty })
            }
            None => Ok(()),
        }
    }

    pub(crate) fn plain_type(&mut self, alloc: Global) -> Result<(), AllocError>
        ensures { OnOk result (self.new ≡ does act.PlainType self.old) }
    {
        let ty = match self.last.ty(alloc)? {
            Some(ty) => ty,
            None => Ty::Untyped,
        };
        add(alloc, &mut self.read, ty)
    }

    pub(crate) fn value_type(&mut self, alloc: Global) -> Result<(), AllocError>
        ensures { OnOk result (self.new ≡ does act.ValueType self.old) }
    {
        let ty = match self.last.payload(alloc)? {
            Some(payload) => Ty::Value(payload),
            None => Ty::Untyped,
        };
        add(alloc, &mut self.read, ty)
    }

    pub(crate) fn element_result(&mut self, alloc: Global) -> Result<(), AllocError>
        ensures { OnOk result (self.new ≡ does act.ElementResult self.old) }
    {
        add(
            alloc,
            &mut self.op.types,
            first_element(self.read.as_slice()),
        )
    }

    pub(crate) fn payload_result(&mut self, alloc: Global) -> Result<(), AllocError>
        ensures { OnOk result (self.new ≡ does act.PayloadResult self.old) }
    {
        match first_payload(alloc, self.read.as_slice())? {
            Some(ty) => add(alloc, &mut self.op.types, ty),
            None => Ok(()),
        }
    }

    pub(crate) fn literal(&mut self, negative: bool)
        ensures { self.new ≡ with_attr (literal negative self.old.last) self.old }
    {
        let magnitude = self.last.number().unwrap_or(0);
        self.op.attr = Attr::Literal {
            negative,
            magnitude,
        };
    }

    pub(crate) fn truth(&mut self)
        ensures { self.new ≡ does act.Truth self.old }
    {
        self.op.attr = Attr::Truth(self.last.text.as_slice() == b"true".as_slice());
    }

    pub(crate) fn predicate(&mut self)
        ensures { self.new ≡ does act.Predicate self.old }
    {
        self.op.attr = Attr::Pred(self.last.predicate().unwrap_or(Pred::Eq));
    }

    #[tactic(auto, unfolding(crate::specs::State::does), using(crate::proofs::Lists::without_pushed))]
    pub(crate) fn operand_index(&mut self) -> Result<(), AllocError>
        ensures { OnOk result (self.new ≡ does act.OperandIndex self.old) }
    {
        let value = resolve_at(&self.visible, self.used.as_slice(), self.last.index());
        self.op.operands.pop();
        self.op.operands.push(value)
    }

    pub(crate) fn func_name(&mut self, alloc: Global) -> Result<(), AllocError>
        ensures { OnOk result (self.new ≡ does act.FuncName self.old) }
    {
        self.func.name = self.last.symbol(alloc)?;
        Ok(())
    }

    pub(crate) fn callee(&mut self, alloc: Global) -> Result<(), AllocError>
        ensures { OnOk result (self.new ≡ does act.Callee self.old) }
    {
        self.op.attr = Attr::Callee(self.last.symbol(alloc)?);
        Ok(())
    }

    pub(crate) fn message(&mut self, alloc: Global) -> Result<(), AllocError>
        ensures { OnOk result (self.new ≡ does act.Message self.old) }
    {
        self.op.attr = Attr::Text(self.last.string(alloc)?);
        Ok(())
    }
}
