//! An operation in its place.
ghost use Rattle.std.specs.Prelude.{◌≡◌, None};
ghost use Rattle.std.specs.Option.{option_copied};
ghost use Rattle.ir_verify.specs.Places.{nest_in, within, in_body};
ghost use Rattle.ir_verify.specs.Standing.{around_of};

use crate::place::Nest;
use ir_forms::{Func, Op, OpKind};

/// What stands round the operations of a region.
#[derive(Clone, Copy)]
pub(crate) struct Around<'a> {
    pub(crate) func: &'a Func,
    pub(crate) is_called: bool,
    pub(crate) holder: Option<&'a Op>,
    pub(crate) region: usize,
    pub(crate) nest: Nest,
}

/// An operation, what stands round it, whether it is its region's last, and the function that it
/// calls.
#[derive(Clone, Copy)]
pub(crate) struct Place<'a> {
    pub(crate) around: Around<'a>,
    pub(crate) is_last: bool,
    pub(crate) callee: Option<&'a Func>,
    pub(crate) op: &'a Op,
}

/// What is nearest round the regions of an operation of this kind.
pub(crate) fn nest_in(kind: OpKind, nest: Nest) -> Nest
    ensures { result ≡ nest_in kind nest }
{
    match kind {
        OpKind::AsyncExecute => Nest::InTask,
        OpKind::ScfParallel => Nest::InLoop,
        _ => nest,
    }
}

impl<'a> Around<'a> {
    /// What stands round the operations of a function's body.
    pub(crate) fn of_body(func: &'a Func, is_called: bool) -> Around<'a>
        ensures { around_of result ≡ in_body func.now is_called }
    {
        Around {
            func,
            is_called,
            holder: None,
            region: 0,
            nest: Nest::InFunction,
        }
    }

    /// What stands round the operations of a region of this operation.
    pub(crate) fn within(&self, op: &'a Op, region: usize) -> Around<'a>
        ensures { around_of result ≡ within (around_of self.now) op.now region }
    {
        Around {
            func: self.func,
            is_called: self.is_called,
            holder: Some(op),
            region,
            nest: nest_in(op.kind, self.nest),
        }
    }
}
