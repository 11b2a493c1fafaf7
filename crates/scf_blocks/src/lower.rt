//! Operations become blocks.
ghost use Rattle.std.specs.Prelude.{◌≡◌, ◌+◌, ◌∷◌, [], length, drop, IfOk, OnOk};
ghost use Rattle.std.specs.Option.{option_copied};
ghost use Rattle.ir_forms.specs.Ops.{kind_of, operands_of, results_of, regions_of};
ghost use Rattle.std.specs.Prelude.{List};
ghost use Rattle.ir_forms.specs.declared.ops.Func.{Func};
ghost use Rattle.ir_forms.specs.declared.ops.Op.{out-Op};
ghost use Rattle.ir_forms.specs.declared.types.Ty.TheVariants.{Index};
ghost use Rattle.low_forms.specs.declared.code.LowAttr.TheVariants.{Truth};
ghost use Rattle.scf_blocks.specs.declared.role.Role.TheVariants as role;
ghost use Rattle.scf_blocks.specs.Tree.{ends_region, params_at, role_of, tree, tree_at};
ghost use Rattle.scf_blocks.specs.Code as code;
ghost use Rattle.scf_blocks.specs.Bodies.{behind, by_role, ended, finished, made, next_reg, operand_of, results_in, takes, with_assertion, with_await, with_bit, with_head, written};

use crate::body::{Body, Close, Failure, plus};
use crate::count::{count_at, ends};
use crate::parts::{low_attr, operands_from, region_params};
use crate::role::{Role, role_of};
use crate::terms::{add, await_on, br, call, cond_br, constant, less, one_reg, ret, with_first};
use ir_forms::{Op, Ty, ValueNo, Width};
use ir_verify::Names;
use lists::Items;
use low_forms::{BlockNo, Instr, LowAttr, LowKind, Reg};
use std::alloc::{AllocError, Global};

impl Body {
    /// The open block goes to another one.
    fn branch(&mut self, alloc: Global, to: BlockNo, args: Items<Reg>) -> Result<(), AllocError>
        ensures { OnOk result (self.new ≡ ended (code.br to args) self.old) }
    {
        let term = br(alloc, to, args)?;
        self.end_block(alloc, term)
    }

    /// The step of a counted loop, and the next turn.
    fn repeat(
        &mut self,
        alloc: Global,
        head: BlockNo,
        variable: Reg,
        step: Reg,
        args: Items<Reg>,
    ) -> Result<(), AllocError>
        ensures { OnOk result (self.new ≡ ended (code.br head (next_reg self.old ∷ args)) (written (code.add (next_reg self.old) variable step) (made Index self.old))) }
    {
        let sum = self.make(Ty::Index)?;
        self.write(add(alloc, sum, variable, step)?)?;
        let args = with_first(alloc, sum, args)?;
        self.branch(alloc, head, args)
    }

    /// A region ends with these values.
    #[tactic(auto, using(crate::proofs::Ends::ended_law, crate::proofs::Ends::repeated_law))]
    fn give(&mut self, alloc: Global, values: &[ValueNo], close: Close) -> Result<(), AllocError>
        ensures { OnOk result (self.new ≡ behind self.old self.old.scope (code.close close (length self.old.types) (code.regs self.old.scope values.now)) (code.close_types close) []) }
    {
        let args = self.regs(alloc, values)?;
        match close {
            Close::Returns => self.end_block(alloc, ret(alloc, args)),
            Close::Joins(block) => self.branch(alloc, block, args),
            Close::Repeats {
                head,
                variable,
                step,
            } => self.repeat(alloc, head, variable, step, args),
            Close::Decides { after, exit: _ } => self.branch(alloc, after, args),
        }
    }

    /// A region ends with a condition and these values.
    #[tactic(auto, using(crate::proofs::Ends::ended_law))]
    fn decide(
        &mut self,
        alloc: Global,
        test: Option<&ValueNo>,
        values: &[ValueNo],
        close: Close,
    ) -> Result<(), AllocError>
        ensures { OnOk result (self.new ≡ behind self.old self.old.scope (code.decide close (length self.old.types) (code.operand self.old.scope (option_copied test.entry)) (code.regs self.old.scope values.now)) (code.close_types close) []) }
    {
        match close {
            Close::Decides { after, exit } => {
                let test = self.scope.operand(test);
                let args = self.regs(alloc, values)?;
                let term = cond_br(alloc, test, after, exit, args.as_slice())?;
                self.end_block(alloc, term)
            }
            _ => self.give(alloc, values, close),
        }
    }

    /// A region ends by its last operation.
    fn end(&mut self, alloc: Global, op: &Op, close: Close) -> Result<(), AllocError>
        ensures { OnOk result ((funcs : List Func) → self.new ≡ finished funcs self.old self.old.scope close (ends_region (role_of (kind_of op.now)) (operands_of op.now))) }
    {
        match role_of(op.kind) {
            Role::Condition => self.decide(alloc, op.operands.get(0), operands_from(op, 1), close),
            _ => self.give(alloc, op.operands.as_slice(), close),
        }
    }

    /// The open block takes the parameters of one of an operation's regions.
    fn take_params(&mut self, alloc: Global, op: &Op, at: usize) -> Result<(), AllocError>
        ensures { OnOk result (self.new ≡ takes (params_at (regions_of op.now) at) self.old) }
    {
        let params = self.define_params(alloc, region_params(op, at))?;
        self.open(params);
        Ok(())
    }

    /// The open block takes the results of an operation.
    fn take_results(&mut self, alloc: Global, op: &Op) -> Result<(), AllocError>
        ensures { OnOk result (self.new ≡ takes (results_in op.now) self.old) }
    {
        let params = self.define_results(alloc, op.results.as_slice(), op.types.as_slice())?;
        self.open(params);
        Ok(())
    }

    /// One instruction.
    fn plain(
        &mut self,
        alloc: Global,
        callees: &Names<'_>,
        kind: LowKind,
        op: &Op,
    ) -> Result<(), AllocError>
        ensures { OnOk result (self.new ≡ by_role callees.now (role.Plain kind) op.now self.old) }
    {
        let attr = low_attr(callees, &op.attr)?;
        let operands = self.regs(alloc, op.operands.as_slice())?;
        let results = self.define_results(alloc, op.results.as_slice(), op.types.as_slice())?;
        self.write(Instr {
            kind,
            operands,
            results,
            attr,
        })
    }

    /// An assertion goes on, or to its failure block.
    fn assertion(&mut self, alloc: Global, op: &Op) -> Result<(), AllocError>
        ensures { OnOk result (self.new ≡ with_assertion (out-Op op.now).at (operand_of op.now 0) self.old) }
    {
        let test = self.scope.operand(op.operands.get(0));
        let go = self.next_block(1)?;
        let failure = self.next_failure()?;
        let term = cond_br(alloc, test, go, failure, &[])?;
        self.end_block(alloc, term)?;
        self.fail_at(Failure::Constant(op.at))
    }

    /// A choice between two regions, and the block where they join.
    #[cycle(lower)]
    fn choice(&mut self, alloc: Global, callees: &Names<'_>, op: &Op) -> Result<(), AllocError>
        ensures { OnOk result (self.new ≡ by_role callees.now role.Choice op.now self.old) }
    {
        let first = count_at(op, 0)?;
        let second = count_at(op, 1)?;
        let test = self.scope.operand(op.operands.get(0));
        let on = self.next_block(1)?;
        let off = self.next_block(plus(2, first)?)?;
        let join = self.next_block(plus(3, plus(first, second)?)?)?;
        let term = cond_br(alloc, test, on, off, &[])?;
        self.end_block(alloc, term)?;
        self.region(alloc, callees, op, 0, Close::Joins(join))?;
        self.region(alloc, callees, op, 1, Close::Joins(join))?;
        self.take_results(alloc, op)
    }

    /// The head of a counted loop: it takes the variable and the carried values, and tests the variable.
    fn head(&mut self, alloc: Global, op: &Op, exit: BlockNo) -> Result<(), AllocError>
        ensures { OnOk result (self.new ≡ with_head (operand_of op.now 0) (operand_of op.now 1) (drop 3 (operands_of op.now)) (params_at (regions_of op.now) 0) exit self.old) }
    {
        let head = self.next_block(1)?;
        let body = self.next_block(2)?;
        let variable = self.next_reg()?;
        let lower = self.scope.operand(op.operands.get(0));
        let upper = self.scope.operand(op.operands.get(1));
        let inits = self.regs(alloc, operands_from(op, 3))?;
        let args = with_first(alloc, lower, inits)?;
        self.branch(alloc, head, args)?;
        self.take_params(alloc, op, 0)?;
        let test = self.make(Ty::Int(Width::W1))?;
        self.write(less(alloc, test, variable, upper)?)?;
        let term = cond_br(alloc, test, body, exit, &[])?;
        self.end_block(alloc, term)
    }

    /// A counted loop. Its results are the values that its head carries.
    #[cycle(lower)]
    fn counted(&mut self, alloc: Global, callees: &Names<'_>, op: &Op) -> Result<(), AllocError>
        ensures { OnOk result (self.new ≡ by_role callees.now role.Counted op.now self.old) }
    {
        let depth = self.scope.len();
        let head = self.next_block(1)?;
        let exit = self.next_block(plus(3, count_at(op, 0)?)?)?;
        let variable = self.next_reg()?;
        let step = self.scope.operand(op.operands.get(2));
        self.head(alloc, op, exit)?;
        let close = Close::Repeats {
            head,
            variable,
            step,
        };
        self.region(alloc, callees, op, 0, close)?;
        self.scope.truncate(depth);
        let first = plus(variable.0 as usize, 1)?;
        self.scope.define_from(op.results.as_slice(), first)
    }

    /// A while loop: its first region ends with the condition, and its second goes back.
    #[cycle(lower)]
    fn tested(&mut self, alloc: Global, callees: &Names<'_>, op: &Op) -> Result<(), AllocError>
        ensures { OnOk result (self.new ≡ by_role callees.now role.Tested op.now self.old) }
    {
        let depth = self.scope.len();
        let first = count_at(op, 0)?;
        let second = count_at(op, 1)?;
        let head = self.next_block(1)?;
        let after = self.next_block(plus(2, first)?)?;
        let exit = self.next_block(plus(3, plus(first, second)?)?)?;
        let inits = self.regs(alloc, op.operands.as_slice())?;
        self.branch(alloc, head, inits)?;
        self.take_params(alloc, op, 0)?;
        self.region(alloc, callees, op, 0, Close::Decides { after, exit })?;
        self.scope.truncate(depth);
        self.take_params(alloc, op, 1)?;
        self.region(alloc, callees, op, 1, Close::Joins(head))?;
        self.scope.truncate(depth);
        self.take_results(alloc, op)
    }

    /// A call goes on with the results, or to its failure block with the code.
    fn call(&mut self, alloc: Global, callees: &Names<'_>, op: &Op) -> Result<(), AllocError>
        ensures { OnOk result (self.new ≡ by_role callees.now role.Call op.now self.old) }
    {
        let callee = low_attr(callees, &op.attr)?;
        let args = self.regs(alloc, op.operands.as_slice())?;
        let ok = self.next_block(1)?;
        let failure = self.next_failure()?;
        let term = call(alloc, callee, args, ok, failure)?;
        self.end_block(alloc, term)?;
        self.fail_at(Failure::Passed)?;
        self.take_results(alloc, op)
    }

    /// A block that gives this bit to another.
    fn bit(&mut self, alloc: Global, bit: bool, to: BlockNo) -> Result<(), AllocError>
        ensures { OnOk result (self.new ≡ with_bit (Truth bit) to self.old) }
    {
        let reg = self.make(Ty::Int(Width::W1))?;
        self.write(constant(alloc, reg, LowAttr::Truth(bit))?)?;
        let args = one_reg(alloc, reg)?;
        self.branch(alloc, to, args)
    }

    /// A call that is tried: a block for each answer, and one where they join.
    fn tried_call(&mut self, alloc: Global, callees: &Names<'_>, op: &Op) -> Result<(), AllocError>
        ensures { OnOk result (self.new ≡ by_role callees.now role.TriedCall op.now self.old) }
    {
        let callee = low_attr(callees, &op.attr)?;
        let args = self.regs(alloc, op.operands.as_slice())?;
        let yes = self.next_block(1)?;
        let no = self.next_block(2)?;
        let join = self.next_block(3)?;
        let term = call(alloc, callee, args, yes, no)?;
        self.end_block(alloc, term)?;
        self.bit(alloc, true, join)?;
        let code = self.make(Ty::Int(Width::W64))?;
        self.open(one_reg(alloc, code)?);
        self.bit(alloc, false, join)?;
        self.take_results(alloc, op)
    }

    /// An await goes on with what it gives, or to its failure block.
    fn awaits(&mut self, alloc: Global, op: &Op) -> Result<(), AllocError>
        ensures { OnOk result (self.new ≡ with_await (out-Op op.now).at (operand_of op.now 0) (results_in op.now) self.old) }
    {
        let object = self.scope.operand(op.operands.get(0));
        let go = self.next_block(1)?;
        let failure = self.next_failure()?;
        let term = await_on(alloc, object, go, failure)?;
        self.end_block(alloc, term)?;
        self.fail_at(Failure::Constant(op.at))?;
        self.take_results(alloc, op)
    }

    /// Writes an operation that doesn't end its region.
    #[cycle(lower)]
    fn operation(&mut self, alloc: Global, callees: &Names<'_>, op: &Op) -> Result<(), AllocError>
        ensures { OnOk result (self.new ≡ by_role callees.now (role_of (kind_of op.now)) op.now self.old) }
    {
        match role_of(op.kind) {
            Role::Plain(kind) => self.plain(alloc, callees, kind, op),
            Role::Assertion => self.assertion(alloc, op),
            Role::Choice => self.choice(alloc, callees, op),
            Role::Counted => self.counted(alloc, callees, op),
            Role::Tested => self.tested(alloc, callees, op),
            Role::Call => self.call(alloc, callees, op),
            Role::TriedCall => self.tried_call(alloc, callees, op),
            Role::Await => self.awaits(alloc, op),
            Role::End | Role::Condition | Role::Nothing => Ok(()),
        }
    }

    /// Writes one of an operation's regions. One that is missing has no operations.
    #[cycle(lower)]
    #[tactic(auto, using(crate::proofs::Trees::tree_some, crate::proofs::Trees::tree_none))]
    fn region(
        &mut self,
        alloc: Global,
        callees: &Names<'_>,
        op: &Op,
        at: usize,
        close: Close,
    ) -> Result<(), AllocError>
        ensures { OnOk result (self.new ≡ finished callees.now self.old self.old.scope close (tree_at (regions_of op.now) at)) }
    {
        match op.regions.get(at) {
            Some(region) => self.operations(alloc, callees, region.ops.as_slice(), close),
            None => self.give(alloc, &[], close),
        }
    }

    /// Writes all operations of a region.
    #[cycle(lower)]
    pub(crate) fn operations(
        &mut self,
        alloc: Global,
        callees: &Names<'_>,
        ops: &[Op],
        close: Close,
    ) -> Result<(), AllocError>
        ensures { OnOk result (self.new ≡ finished callees.now self.old self.old.scope close (tree ops.now)) }
    {
        let depth = self.scope.len();
        for op in ops {
            if ends(role_of(op.kind)) {
                self.end(alloc, op, close)?;
                self.scope.truncate(depth);
                return Ok(());
            }
            self.operation(alloc, callees, op)?;
        }
        self.give(alloc, &[], close)?;
        self.scope.truncate(depth);
        Ok(())
    }
}
