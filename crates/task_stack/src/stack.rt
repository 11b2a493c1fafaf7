//! The stack of one task.
ghost use Rattle.std.specs.Prelude.{◌≡◌, ◌↔◌, IsTrue, IfOk};
ghost use Rattle.task_stack.specs.Frames.{root_stack, copied_stack};

use crate::frames::{Activation, Frame, Saved};
use async_objects::Val;
use ir_forms::FuncNo;
use low_forms::LowFunc;
use std::alloc::{AllocError, Global};
use std::marker::Model;

/// The frames of one task, each with its kept copy.
#[derive(Drop)]
pub struct Stack {
    pub(crate) is_root: bool,
    pub(crate) top: Frame,
    pub(crate) below: Vec<Frame>,
    /// Room for values on their way to the parameters of a block.
    pub(crate) passed: Vec<Val>,
}

impl Model for Stack {
    ghost use Rattle.std.specs.Prelude.{reverse};
    ghost use Rattle.task_stack.specs.Frames.{Stack};

    ghost Value = { Stack };

    ghost view = { λ s. record { is_root = s.is_root; top = s.top; below = reverse s.below.items } };
}

impl Stack {
    /// The root's stack, at the start of a function whose parameters have these values.
    pub fn root(
        alloc: Global,
        no: FuncNo,
        func: &LowFunc,
        vals: &[Val],
    ) -> Result<Stack, AllocError>
        ensures { IfOk result (λ s. s ≡ root_stack no func.now vals.now) }
    {
        let top = Frame::of_func(alloc, no, func, vals)?;
        Ok(Stack {
            is_root: true,
            top,
            below: Vec::new(alloc),
            passed: Vec::new(alloc),
        })
    }

    /// The stack of a task that is a kept copy.
    pub fn of_copy(alloc: Global, copy: Activation) -> Stack
        ensures { result ≡ copied_stack copy }
    {
        Stack {
            is_root: false,
            top: Frame {
                current: copy,
                saved: Saved::Copied,
            },
            below: Vec::new(alloc),
            passed: Vec::new(alloc),
        }
    }

    /// An equal stack.
    pub fn copy(&self, alloc: Global) -> Result<Stack, AllocError>
        ensures { IfOk result (λ copy. copy ≡ self.now) }
    {
        let below = copies(alloc, self.below.as_slice())?;
        let top = self.top.copy(alloc)?;
        Ok(Stack {
            is_root: self.is_root,
            top,
            below,
            passed: Vec::new(alloc),
        })
    }

    /// Whether both are equal.
    #[tactic(auto, using(crate::proofs::Standings::reverse_same))]
    pub fn same(&self, other: &Stack) -> bool
        ensures { IsTrue result ↔ (self.now ≡ other.now) }
    {
        self.is_root == other.is_root
            && self.top.same(&other.top)
            && same_frames(self.below.as_slice(), other.below.as_slice())
    }
}

fn copies(alloc: Global, frames: &[Frame]) -> Result<Vec<Frame>, AllocError>
    ensures { IfOk result (λ all. all.items ≡ frames.now) }
{
    let mut all = Vec::with_capacity(alloc, frames.len())?;
    for frame in frames {
        all.push(frame.copy(alloc)?)?;
    }
    Ok(all)
}

fn same_frames(left: &[Frame], right: &[Frame]) -> bool
    ensures { IsTrue result ↔ (left.now ≡ right.now) }
{
    if left.len() != right.len() {
        return false;
    }
    for i in 0..left.len() {
        if !left[i].same(&right[i]) {
            return false;
        }
    }
    true
}
