//! Which act does what.
ghost use Rattle.std.specs.Prelude.{◌≡◌, OnOk};
ghost use Rattle.module_grammar.specs.State.{does};

use crate::state::State;
use crate::symbols::Act;
use ir_forms::{Ty, Width};
use std::alloc::{AllocError, Global};

#[tactic(auto, unfolding(crate::specs::State::does))]
impl<'a> State<'a> {
    /// Does an act. Without memory the state is no longer of use.
    pub fn act(&mut self, alloc: Global, act: Act) -> Result<(), AllocError>
        ensures { OnOk result (self.new ≡ does act self.old) }
    {
        match act {
            Act::BeginFunc => {
                self.begin_func(alloc);
                Ok(())
            }
            Act::FuncName => self.func_name(alloc),
            Act::FuncResults => {
                self.func_results(alloc);
                Ok(())
            }
            Act::FuncAt => {
                self.func_at();
                Ok(())
            }
            Act::OpenBody => self.open_body(alloc),
            Act::EndFunc => self.end_func(alloc),
            Act::BeginOp => {
                self.begin_op(alloc);
                Ok(())
            }
            Act::Kind(kind) => {
                self.op.kind = kind;
                Ok(())
            }
            Act::EndOp => self.end_op(alloc),
            Act::OpAt => {
                self.op_at();
                Ok(())
            }
            Act::OpenRegion => self.open_region(alloc),
            Act::CloseRegion => self.close_region(alloc),
            Act::Result => self.result(alloc),
            Act::ResultCount => self.result_count(alloc),
            Act::CountNames => {
                self.count_names();
                Ok(())
            }
            Act::Operand => self.operand(),
            Act::OperandIndex => self.operand_index(),
            Act::Group => self.group(),
            Act::Hold => self.hold(alloc),
            Act::HeldOperands => self.held_operands(alloc),
            Act::HeldResults => self.held_results(alloc),
            Act::Param => self.add_param(alloc, Ty::Untyped),
            Act::IndexParam => self.add_param(alloc, Ty::Index),
            Act::ParamType => self.param_type(alloc),
            Act::BlockParam => self.block_param(alloc),
            Act::BlockParamType => self.block_param_type(alloc),
            Act::PayloadParam => self.payload_param(alloc),
            Act::ResultParams => self.result_params(alloc),
            Act::WrittenParams => self.written_params(alloc),
            Act::PlainType => self.plain_type(alloc),
            Act::ValueType => self.value_type(alloc),
            Act::Written => self.written(alloc),
            Act::Twice => self.twice(alloc),
            Act::SameTypes => self.same_types(alloc),
            Act::Results => self.results(alloc),
            Act::TruthResult => self.add_type(alloc, Ty::Int(Width::W1)),
            Act::IndexResult => self.add_type(alloc, Ty::Index),
            Act::TokenResult => self.add_type(alloc, Ty::Token),
            Act::ElementResult => self.element_result(alloc),
            Act::PayloadResult => self.payload_result(alloc),
            Act::Literal => {
                self.literal(false);
                Ok(())
            }
            Act::Negative => {
                self.literal(true);
                Ok(())
            }
            Act::Truth => {
                self.truth();
                Ok(())
            }
            Act::Predicate => {
                self.predicate();
                Ok(())
            }
            Act::Message => self.message(alloc),
            Act::Callee => self.callee(alloc),
            Act::BeginDict => {
                self.begin_dict();
                Ok(())
            }
            Act::Entry => {
                self.entry();
                Ok(())
            }
            Act::OtherEntry => {
                self.other_entry();
                Ok(())
            }
            Act::EndEntry => {
                self.end_entry();
                Ok(())
            }
        }
    }
}
