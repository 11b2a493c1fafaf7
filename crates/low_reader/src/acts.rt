//! What the acts make of the state.
ghost use Rattle.std.specs.Prelude.{◌≡◌, ◌∷◌, [], IfOk, OnOk};
ghost use Rattle.low_grammar.specs.State.{no_instr, no_block, no_func, at_start, last_args, entry_after, is_coroutine, literal, with_attr, with_types, does};
ghost use Rattle.low_reader.specs.Steps.{with_defined};
ghost use Rattle.low_grammar.specs.declared.symbols.Act.TheVariants as act;

use crate::types::{first_element, first_payload, first_type, low_type};
use ir_forms::{OpKind, Pred, Ty};
use lists::Items;
use low_grammar::{
    AttributeEntry, NameText, NamedAttr, NamedBlock, NamedFunc, NamedInstr, NamedParam,
    NamedTarget, State,
};
use mlir_lex::TokenKind;
use module_grammar::{Bytes, TextToken};
use name_lists::NameList;
use std::alloc::{AllocError, Global};
use std::mem;

fn blank_instr(alloc: Global) -> NamedInstr
    ensures { result ≡ no_instr }
{
    NamedInstr {
        kind: OpKind::AioFinish,
        operands: Items::new(alloc),
        results: Items::new(alloc),
        types: Items::new(alloc),
        attr: NamedAttr::None,
        targets: Items::new(alloc),
    }
}

fn blank_block(alloc: Global) -> NamedBlock
    ensures { result ≡ no_block }
{
    NamedBlock {
        name: Items::new(alloc),
        params: Items::new(alloc),
        instrs: Items::new(alloc),
    }
}

fn blank_func(alloc: Global) -> NamedFunc
    ensures { result ≡ no_func }
{
    NamedFunc {
        name: Items::new(alloc),
        coroutine: false,
        params: Items::new(alloc),
        results: Items::new(alloc),
        blocks: Items::new(alloc),
    }
}

/// The state before the first token.
pub fn start<'a>(alloc: Global) -> State<'a>
    ensures { result ≡ at_start }
{
    State {
        last: TextToken {
            kind: TokenKind::End,
            text: Bytes::new(&[]),
            at: 0,
            joined: false,
        },
        read: Items::new(alloc),
        owed: 0,
        params: Items::new(alloc),
        param: Bytes::new(&[]),
        instr: blank_instr(alloc),
        block: blank_block(alloc),
        func: blank_func(alloc),
        defined: NameList::new(alloc),
        labels: NameList::new(alloc),
        used: Items::new(alloc),
        jumps: Items::new(alloc),
        entry: AttributeEntry::Fresh,
        coroutine: false,
        funcs: Items::new(alloc),
    }
}

/// The bytes of the last token, for a name that is kept.
fn last_name(alloc: Global, state: &State) -> Result<Items<u8>, AllocError>
    ensures { IfOk result (λ name. name ≡ state.now.last.text) }
{
    Items::from_slice(alloc, state.last.text.as_slice())
}

/// How many arguments the last target has.
#[tactic(auto, using(crate::proofs::Lists::last_args_at, crate::proofs::Lists::last_args_none))]
fn last_args(targets: &[NamedTarget]) -> u64
    ensures { result ≡ last_args targets.now }
{
    match targets.last() {
        Some(target) => target.args.len() as u64,
        None => 0,
    }
}

fn is_coroutine(entry: AttributeEntry) -> bool
    ensures { result ≡ is_coroutine entry }
{
    matches!(entry, AttributeEntry::Coroutine)
}

/// The entry with one more token, which is no bracket and no comma.
fn entry_after(entry: AttributeEntry, token: &TextToken) -> AttributeEntry
    ensures { result ≡ entry_after entry token.now }
{
    match entry {
        AttributeEntry::Fresh if token.text.as_slice() == b"aio.coroutine".as_slice() =>
            AttributeEntry::Coroutine,
        _ => AttributeEntry::Other,
    }
}

// ---- functions and blocks

#[tactic(auto, unfolding(low_grammar::specs::State::does))]
pub fn begin_func<'a>(alloc: Global, state: &mut State<'a>)
    ensures { state.new ≡ does act.BeginFunc state.old }
{
    state.func = blank_func(alloc);
    state.block = blank_block(alloc);
    state.instr = blank_instr(alloc);
    state.params = Items::new(alloc);
    let _defined = mem::replace(&mut state.defined, NameList::new(alloc));
    let _labels = mem::replace(&mut state.labels, NameList::new(alloc));
    let _used = mem::replace(&mut state.used, Items::new(alloc));
    let _jumps = mem::replace(&mut state.jumps, Items::new(alloc));
    state.coroutine = false;
}

#[tactic(auto, unfolding(low_grammar::specs::State::does))]
pub fn func_name(alloc: Global, state: &mut State) -> Result<(), AllocError>
    ensures { OnOk result (state.new ≡ does act.FuncName state.old) }
{
    state.func.name = state.last.symbol(alloc)?;
    Ok(())
}

#[tactic(auto, unfolding(low_grammar::specs::State::does))]
pub fn func_results(alloc: Global, state: &mut State)
    ensures { state.new ≡ does act.FuncResults state.old }
{
    state.func.params = mem::replace(&mut state.params, Items::new(alloc));
    state.func.results = mem::replace(&mut state.read, Items::new(alloc));
}

#[tactic(auto, unfolding(low_grammar::specs::State::does))]
pub fn func_attributes(state: &mut State)
    ensures { state.new ≡ does act.FuncAttributes state.old }
{
    state.func.coroutine = state.coroutine;
}

#[tactic(auto, unfolding(low_grammar::specs::State::does))]
pub fn end_func(alloc: Global, state: &mut State) -> Result<(), AllocError>
    ensures { OnOk result (state.new ≡ does act.EndFunc state.old) }
{
    let func = mem::replace(&mut state.func, blank_func(alloc));
    state.funcs.push(func)
}

#[tactic(auto, unfolding(low_grammar::specs::State::does))]
pub fn begin_block(alloc: Global, state: &mut State) -> Result<(), AllocError>
    ensures { OnOk result (state.new ≡ does act.BeginBlock state.old) }
{
    state.block = NamedBlock {
        name: last_name(alloc, state)?,
        params: Items::new(alloc),
        instrs: Items::new(alloc),
    };
    state
        .labels
        .push(alloc, NameText::new(state.last.text.copy()))
}

#[tactic(auto, unfolding(low_grammar::specs::State::does))]
pub fn block_params(alloc: Global, state: &mut State)
    ensures { state.new ≡ does act.BlockParams state.old }
{
    state.block.params = mem::replace(&mut state.params, Items::new(alloc));
}

#[tactic(auto, unfolding(low_grammar::specs::State::does))]
pub fn end_instr(alloc: Global, state: &mut State) -> Result<(), AllocError>
    ensures { OnOk result (state.new ≡ does act.EndInstr state.old) }
{
    let instr = mem::replace(&mut state.instr, blank_instr(alloc));
    state.block.instrs.push(instr)
}

#[tactic(auto, unfolding(low_grammar::specs::State::does))]
pub fn end_block(alloc: Global, state: &mut State) -> Result<(), AllocError>
    ensures { OnOk result (state.new ≡ does act.EndBlock state.old) }
{
    end_instr(alloc, state)?;
    let block = mem::replace(&mut state.block, blank_block(alloc));
    state.func.blocks.push(block)
}

// ---- names

/// The last token names a register that the function defines.
fn define_last(alloc: Global, state: &mut State) -> Result<(), AllocError>
    ensures { OnOk result (state.new ≡ with_defined state.old) }
{
    state
        .defined
        .push(alloc, NameText::new(state.last.text.copy()))
}

#[tactic(auto, unfolding(low_grammar::specs::State::does))]
pub fn define(alloc: Global, state: &mut State) -> Result<(), AllocError>
    ensures { OnOk result (state.new ≡ does act.Define state.old) }
{
    state.param = state.last.text.copy();
    define_last(alloc, state)
}

#[tactic(auto, unfolding(low_grammar::specs::State::does))]
pub fn param_type(alloc: Global, state: &mut State) -> Result<(), AllocError>
    ensures { OnOk result (state.new ≡ does act.ParamType state.old) }
{
    let name = Items::from_slice(alloc, state.param.as_slice())?;
    let ty = first_type(alloc, state.read.as_slice())?;
    state.read = Items::new(alloc);
    state.params.push(NamedParam { name, ty })
}

#[tactic(auto, unfolding(low_grammar::specs::State::does))]
pub fn result(alloc: Global, state: &mut State) -> Result<(), AllocError>
    ensures { OnOk result (state.new ≡ does act.Result state.old) }
{
    let name = last_name(alloc, state)?;
    state.instr.results.push(name)?;
    define_last(alloc, state)
}

#[tactic(auto, unfolding(low_grammar::specs::State::does))]
pub fn operand(alloc: Global, state: &mut State) -> Result<(), AllocError>
    ensures { OnOk result (state.new ≡ does act.Operand state.old) }
{
    let name = last_name(alloc, state)?;
    state.instr.operands.push(name)?;
    state.used.push(state.last.text.copy())
}

#[tactic(auto, unfolding(low_grammar::specs::State::does))]
pub fn jump(alloc: Global, state: &mut State) -> Result<(), AllocError>
    ensures { OnOk result (state.new ≡ does act.Jump state.old) }
{
    let block = last_name(alloc, state)?;
    let args = Items::new(alloc);
    state.instr.targets.push(NamedTarget { block, args })?;
    state.jumps.push(state.last.text.copy())
}

#[tactic(auto, unfolding(low_grammar::specs::State::does), using(crate::proofs::Lists::last_given))]
pub fn argument(alloc: Global, state: &mut State) -> Result<(), AllocError>
    ensures { OnOk result (state.new ≡ does act.Argument state.old) }
{
    let name = last_name(alloc, state)?;
    if let Some(target) = state.instr.targets.pop() {
        let mut args = target.args;
        args.push(name)?;
        let block = target.block;
        state.instr.targets.push(NamedTarget { block, args })?;
    }
    state.used.push(state.last.text.copy())
}

// ---- how many types are owed

#[tactic(auto, unfolding(low_grammar::specs::State::does))]
pub fn owe_arguments(state: &mut State)
    ensures { state.new ≡ does act.OweArguments state.old }
{
    state.owed = last_args(state.instr.targets.as_slice());
}

#[tactic(auto, unfolding(low_grammar::specs::State::does))]
pub fn owe_operands(state: &mut State)
    ensures { state.new ≡ does act.OweOperands state.old }
{
    state.owed = state.instr.operands.len() as u64;
}

#[tactic(auto, unfolding(low_grammar::specs::State::does))]
pub fn owe_results(state: &mut State)
    ensures { state.new ≡ does act.OweResults state.old }
{
    state.owed = state.instr.results.len() as u64;
}

#[tactic(auto, unfolding(low_grammar::specs::State::does))]
pub fn paid(state: &mut State)
    ensures { state.new ≡ does act.Paid state.old }
{
    state.owed = state.owed.saturating_sub(1);
}

// ---- types

#[tactic(auto, unfolding(low_grammar::specs::State::does))]
pub fn plain_type(alloc: Global, state: &mut State) -> Result<(), AllocError>
    ensures { OnOk result (state.new ≡ does act.PlainType state.old) }
{
    let ty = match low_type(alloc, &state.last)? {
        Some(ty) => ty,
        None => Ty::Untyped,
    };
    state.read.push(ty)
}

#[tactic(auto, unfolding(low_grammar::specs::State::does))]
pub fn value_type(alloc: Global, state: &mut State) -> Result<(), AllocError>
    ensures { OnOk result (state.new ≡ does act.ValueType state.old) }
{
    let ty = match state.last.payload(alloc)? {
        Some(payload) => Ty::Value(payload),
        None => Ty::Untyped,
    };
    state.read.push(ty)
}

#[tactic(auto, unfolding(low_grammar::specs::State::does))]
pub fn drop_types(alloc: Global, state: &mut State)
    ensures { state.new ≡ does act.DropTypes state.old }
{
    state.read = Items::new(alloc);
}

#[tactic(auto, unfolding(low_grammar::specs::State::does))]
pub fn results(alloc: Global, state: &mut State)
    ensures { state.new ≡ does act.Results state.old }
{
    state.instr.types = mem::replace(&mut state.read, Items::new(alloc));
}

/// The result has this type.
pub fn one_result(alloc: Global, state: &mut State, ty: Ty) -> Result<(), AllocError>
    ensures { OnOk result (state.new ≡ with_types (ty ∷ []) state.old) }
{
    let mut types = Items::new(alloc);
    types.push(ty)?;
    state.instr.types = types;
    state.read = Items::new(alloc);
    Ok(())
}

#[tactic(auto, unfolding(low_grammar::specs::State::does))]
pub fn element_result(alloc: Global, state: &mut State) -> Result<(), AllocError>
    ensures { OnOk result (state.new ≡ does act.ElementResult state.old) }
{
    let ty = first_element(state.read.as_slice());
    one_result(alloc, state, ty)
}

#[tactic(auto, unfolding(low_grammar::specs::State::does))]
pub fn payload_result(alloc: Global, state: &mut State) -> Result<(), AllocError>
    ensures { OnOk result (state.new ≡ does act.PayloadResult state.old) }
{
    let payload = first_payload(alloc, state.read.as_slice())?;
    let mut types = Items::new(alloc);
    if let Some(ty) = payload {
        types.push(ty)?;
    }
    state.instr.types = types;
    state.read = Items::new(alloc);
    Ok(())
}

// ---- what an instruction carries

pub fn number(state: &mut State, negative: bool)
    ensures { state.new ≡ with_attr (literal negative state.old.last) state.old }
{
    let magnitude = state.last.number().unwrap_or(0);
    state.instr.attr = NamedAttr::Literal {
        negative,
        magnitude,
    };
}

#[tactic(auto, unfolding(low_grammar::specs::State::does))]
pub fn truth(state: &mut State)
    ensures { state.new ≡ does act.Truth state.old }
{
    state.instr.attr = NamedAttr::Truth(state.last.text.as_slice() == b"true".as_slice());
}

#[tactic(auto, unfolding(low_grammar::specs::State::does))]
pub fn predicate(state: &mut State)
    ensures { state.new ≡ does act.Predicate state.old }
{
    state.instr.attr = NamedAttr::Pred(state.last.predicate().unwrap_or(Pred::Eq));
}

#[tactic(auto, unfolding(low_grammar::specs::State::does))]
pub fn count(state: &mut State)
    ensures { state.new ≡ does act.Count state.old }
{
    state.instr.attr = NamedAttr::Count(state.last.number().unwrap_or(0));
}

#[tactic(auto, unfolding(low_grammar::specs::State::does))]
pub fn callee(alloc: Global, state: &mut State) -> Result<(), AllocError>
    ensures { OnOk result (state.new ≡ does act.Callee state.old) }
{
    state.instr.attr = NamedAttr::Callee(state.last.symbol(alloc)?);
    Ok(())
}

// ---- dictionaries

#[tactic(auto, unfolding(low_grammar::specs::State::does))]
pub fn begin_dict(state: &mut State)
    ensures { state.new ≡ does act.BeginDict state.old }
{
    state.entry = AttributeEntry::Fresh;
}

#[tactic(auto, unfolding(low_grammar::specs::State::does))]
pub fn entry(state: &mut State)
    ensures { state.new ≡ does act.Entry state.old }
{
    state.entry = entry_after(state.entry, &state.last);
}

#[tactic(auto, unfolding(low_grammar::specs::State::does))]
pub fn other_entry(state: &mut State)
    ensures { state.new ≡ does act.OtherEntry state.old }
{
    state.entry = AttributeEntry::Other;
}

#[tactic(auto, unfolding(low_grammar::specs::State::does))]
pub fn end_entry(state: &mut State)
    ensures { state.new ≡ does act.EndEntry state.old }
{
    state.coroutine = state.coroutine || is_coroutine(state.entry);
    state.entry = AttributeEntry::Fresh;
}
