//! The operations that see nothing but their task.
ghost use Rattle.std.specs.Prelude.{◌≡◌, IfOk};
ghost use Rattle.ir_forms.specs.declared.ops.Op.{out-Op};
ghost use Rattle.source_meaning.specs.Steps.{operands};
ghost use Rattle.source_tasks.specs.Code.{IsNext};
ghost use Rattle.source_tasks.specs.Rows.{number_does, flow_does};

use crate::facts::Facts;
use crate::frames::Follow;
use crate::rows::{FlowRow, NumberRow};
use crate::task::{Did, Task};
use ir_forms::Op;
use std::alloc::{AllocError, Global};

impl<'a> Task<'a> {
    /// What an operation does that sees its task's values alone.
    pub(crate) fn number_step(
        &mut self,
        alloc: Global,
        op: &'a Op,
        row: NumberRow,
    ) -> Result<Did, AllocError>
        ensures { IfOk result (λ d. IsNext d self.new (number_does row (out-Op op.now) (operands self.old (out-Op op.now)) self.old)) }
    {
        match row {
            NumberRow::Binary(how) => self.binary(op, how),
            NumberRow::Constant => self.constant(op),
            NumberRow::Compare => self.compare(op),
            NumberRow::Select => self.select(alloc, op),
            NumberRow::ExtendSign => self.extend_sign(op),
            NumberRow::FitWidth => self.fit_width(op),
            NumberRow::Dimension => self.dimension(op),
            NumberRow::Assert => Ok(self.assert_true(op)),
        }
    }

    /// What an operation with regions, or a call, does that sees its task alone.
    pub(crate) fn flow_step(
        &mut self,
        alloc: Global,
        facts: &Facts<'a>,
        op: &'a Op,
        row: FlowRow,
    ) -> Result<Did, AllocError>
        ensures { IfOk result (λ d. IsNext d self.new (flow_does row facts.now (out-Op op.now) (operands self.old (out-Op op.now)) self.old)) }
    {
        match row {
            FlowRow::Call => {
                self.call(alloc, facts, op, Follow::Returns)?;
                Ok(Did::Went)
            }
            FlowRow::TryCall => {
                self.call(alloc, facts, op, Follow::Tries)?;
                Ok(Did::Went)
            }
            FlowRow::While => {
                self.begin_while(alloc, op)?;
                Ok(Did::Went)
            }
            FlowRow::For => self.begin_loop(alloc, op),
            FlowRow::If => self.branch(alloc, op),
        }
    }
}
