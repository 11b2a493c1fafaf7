//! The insertion before an operation.
ghost use Rattle.std.specs.Prelude.{◌≡◌, OnOk, IfOk};
ghost use Rattle.ir_forms.specs.declared.ops.Op.{out-Op};
ghost use Rattle.check_insert.specs.Shape as shape;
ghost use Rattle.check_insert.specs.Shape.{guarded};

use crate::access::check_access;
use crate::arith::{check_divisor, check_quotient};
use crate::check::{check, check_most};
use crate::guard::{Guard, guard_of};
use crate::loops::{MOST_ELEMENTS, check_bounds, check_ranges};
use crate::parts::{after, number_type, operand_at, ranges_of, rank};
use crate::sizes::{asked_sizes, check_sizes};
use ir_forms::{NumTy, Op, Pred};
use made_ops::{Insertion, Operand, width_of};
use std::alloc::{AllocError, Global};

/// Adds what guards an operation.
fn guarded(alloc: Global, made: &mut Insertion, guard: Guard, op: &Op) -> Result<(), AllocError>
    ensures { OnOk result (made.new ≡ guarded guard (out-Op op.now) made.old) }
{
    let text = guard.message().as_bytes();
    let operands = op.operands.as_slice();
    let types = op.types.as_slice();
    let written = op.written.as_slice();
    let first = operand_at(operands, 0);
    let second = operand_at(operands, 1);
    let ty = number_type(types);
    match guard {
        Guard::Nothing => Ok(()),
        Guard::Divisor => check_divisor(alloc, made, text, ty, second),
        Guard::Quotient => check_quotient(alloc, made, text, ty, first, second),
        Guard::Shift => {
            let width = Operand::Number(width_of(ty) as u64);
            check(alloc, made, text, Pred::Ult, ty, second, width)
        }
        Guard::Load => check_access(alloc, made, text, written, operands),
        Guard::Store => check_access(alloc, made, text, written, after(operands, 1)),
        Guard::Dimension => {
            let rank = Operand::Number(rank(written) as u64);
            check(alloc, made, text, Pred::Ult, NumTy::Index, second, rank)
        }
        Guard::Alloc => {
            let sizes = asked_sizes(alloc, types, operands)?;
            check_sizes(alloc, made, text, sizes.as_slice())
        }
        Guard::Group => check_most(alloc, made, text, MOST_ELEMENTS, first),
        Guard::Bounds => {
            let step = operand_at(operands, 2);
            check_bounds(alloc, made, text, first, second, step)
        }
        Guard::Parallel => {
            let ranges = ranges_of(alloc, op.groups.as_slice(), operands)?;
            check_ranges(alloc, made, text, ranges.as_slice())
        }
    }
}

/// The insertion before an operation, whose values are numbered from here on.
pub(crate) fn insertion(alloc: Global, op: &Op, free: u32) -> Result<Insertion, AllocError>
    ensures { IfOk result (λ made. made ≡ shape.insertion (out-Op op.now) free) }
{
    let mut made = Insertion::begin(alloc, op.at, free);
    guarded(alloc, &mut made, guard_of(op.kind), op)?;
    Ok(made)
}
