//! How many blocks operations make.
ghost use Rattle.std.specs.Prelude.{◌≡◌, IfOk};
ghost use Rattle.ir_forms.specs.Ops.{kind_of, regions_of};
ghost use Rattle.scf_blocks.specs.Tree.{role_of, tree, tree_at};
ghost use Rattle.scf_blocks.specs.Code.{blocks_of};
ghost use Rattle.scf_blocks.specs.Bodies.{ends, own_blocks};

use crate::body::plus;
use crate::role::{Role, role_of};
use ir_forms::Op;
use std::alloc::AllocError;

/// Whether an operation of this role ends its region.
pub(crate) fn ends(role: Role) -> bool
    ensures { result ≡ ends role }
{
    matches!(role, Role::End | Role::Condition)
}

/// How many blocks one of an operation's regions makes behind its first one.
#[cycle(count)]
#[tactic(auto, using(crate::proofs::Trees::tree_some, crate::proofs::Trees::tree_none))]
pub(crate) fn count_at(op: &Op, at: usize) -> Result<usize, AllocError>
    ensures { IfOk result (λ count. count ≡ blocks_of (tree_at (regions_of op.now) at)) }
{
    match op.regions.get(at) {
        Some(region) => count_ops(region.ops.as_slice()),
        None => Ok(0),
    }
}

#[cycle(count)]
fn count_op(op: &Op) -> Result<usize, AllocError>
    ensures { IfOk result (λ count. count ≡ own_blocks (role_of (kind_of op.now)) (blocks_of (tree_at (regions_of op.now) 0)) (blocks_of (tree_at (regions_of op.now) 1))) }
{
    match role_of(op.kind) {
        Role::Assertion | Role::Call | Role::Await => Ok(1),
        Role::TriedCall => Ok(3),
        Role::Counted => {
            let body = count_at(op, 0)?;
            plus(3, body)
        }
        Role::Choice | Role::Tested => {
            let first = count_at(op, 0)?;
            let second = count_at(op, 1)?;
            plus(3, plus(first, second)?)
        }
        Role::Plain(_) | Role::End | Role::Condition | Role::Nothing => Ok(0),
    }
}

/// How many blocks operations make behind the one in which they begin.
#[cycle(count)]
pub(crate) fn count_ops(ops: &[Op]) -> Result<usize, AllocError>
    ensures { IfOk result (λ count. count ≡ blocks_of (tree ops.now)) }
{
    let mut count = 0;
    for op in ops {
        if ends(role_of(op.kind)) {
            return Ok(count);
        }
        count = plus(count, count_op(op)?)?;
    }
    Ok(count)
}
