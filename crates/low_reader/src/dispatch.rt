//! Which act does what.
ghost use Rattle.std.specs.Prelude.{◌≡◌, OnOk};
ghost use Rattle.low_grammar.specs.State.{does};

use crate::acts;
use ir_forms::{Ty, Width};
use low_grammar::{Act, State};
use std::alloc::{AllocError, Global};

/// Does an act. Without memory the state is of no more use.
#[tactic(auto, unfolding(low_grammar::specs::State::does))]
pub fn do_act(alloc: Global, act: Act, state: &mut State) -> Result<(), AllocError>
    ensures { OnOk result (state.new ≡ does act state.old) }
{
    match act {
        Act::BeginFunc => {
            acts::begin_func(alloc, state);
            Ok(())
        }
        Act::FuncName => acts::func_name(alloc, state),
        Act::FuncResults => {
            acts::func_results(alloc, state);
            Ok(())
        }
        Act::FuncAttributes => {
            acts::func_attributes(state);
            Ok(())
        }
        Act::EndFunc => acts::end_func(alloc, state),
        Act::BeginBlock => acts::begin_block(alloc, state),
        Act::BlockParams => {
            acts::block_params(alloc, state);
            Ok(())
        }
        Act::EndBlock => acts::end_block(alloc, state),
        Act::EndInstr => acts::end_instr(alloc, state),
        Act::Define => acts::define(alloc, state),
        Act::ParamType => acts::param_type(alloc, state),
        Act::Result => acts::result(alloc, state),
        Act::Operand => acts::operand(alloc, state),
        Act::Jump => acts::jump(alloc, state),
        Act::Argument => acts::argument(alloc, state),
        Act::OweArguments => {
            acts::owe_arguments(state);
            Ok(())
        }
        Act::OweOperands => {
            acts::owe_operands(state);
            Ok(())
        }
        Act::OweResults => {
            acts::owe_results(state);
            Ok(())
        }
        Act::Paid => {
            acts::paid(state);
            Ok(())
        }
        Act::PlainType => acts::plain_type(alloc, state),
        Act::ValueType => acts::value_type(alloc, state),
        Act::DropTypes => {
            acts::drop_types(alloc, state);
            Ok(())
        }
        Act::Results => {
            acts::results(alloc, state);
            Ok(())
        }
        Act::TruthResult => acts::one_result(alloc, state, Ty::Int(Width::W1)),
        Act::IndexResult => acts::one_result(alloc, state, Ty::Index),
        Act::ElementResult => acts::element_result(alloc, state),
        Act::PayloadResult => acts::payload_result(alloc, state),
        Act::CoroIdResult => acts::one_result(alloc, state, Ty::CoroId),
        Act::CoroHandleResult => acts::one_result(alloc, state, Ty::CoroHandle),
        Act::CoroStateResult => acts::one_result(alloc, state, Ty::CoroState),
        Act::Literal => {
            acts::number(state, false);
            Ok(())
        }
        Act::Negative => {
            acts::number(state, true);
            Ok(())
        }
        Act::Truth => {
            acts::truth(state);
            Ok(())
        }
        Act::Predicate => {
            acts::predicate(state);
            Ok(())
        }
        Act::Count => {
            acts::count(state);
            Ok(())
        }
        Act::Callee => acts::callee(alloc, state),
        Act::BeginDict => {
            acts::begin_dict(state);
            Ok(())
        }
        Act::Entry => {
            acts::entry(state);
            Ok(())
        }
        Act::OtherEntry => {
            acts::other_entry(state);
            Ok(())
        }
        Act::EndEntry => {
            acts::end_entry(state);
            Ok(())
        }
    }
}
