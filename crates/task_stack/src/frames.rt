//! Frames: where a function stands, what its registers hold, and what its last save has left.
ghost use Rattle.std.specs.Prelude.{◌≡◌, [], None, ◌<◌, ◌+◌, ◌^◌, ◌↔◌, IsTrue, IfOk, OnOk, OnErr};
ghost use Rattle.low_forms.specs.Registers.{block_at};
ghost use Rattle.low_forms.specs.Owns.{params_of};
ghost use Rattle.task_stack.specs.Frames.{place_after, went, new_frame, saving};

use crate::registers::Registers;
use async_objects::Val;
use ir_forms::FuncNo;
use low_forms::{BlockNo, LowFunc, Reg};
use std::alloc::{AllocError, Global};

/// Where a frame stands: in a function, a block of it, and there the number of an instruction. The terminator stands
/// behind the last one.
#[derive(Clone, Copy, PartialEq, Eq)]
pub struct Place {
    pub func: FuncNo,
    pub block: BlockNo,
    pub at: usize,
}

/// A function in the middle of its work.
#[derive(Drop)]
pub struct Activation {
    pub place: Place,
    pub regs: Registers,
}

/// What a frame's last save has left, up to the suspend behind it: nothing, a kept copy, a copy that was taken to be a
/// task; or that the frame is itself such a copy.
#[derive(Drop)]
pub enum Saved {
    Nothing,
    Kept(Activation),
    Taken,
    Copied,
}

#[derive(Drop)]
pub struct Frame {
    pub current: Activation,
    pub saved: Saved,
}

impl Place {
    /// Behind this place, or at the start of a block.
    fn after(self, block: Option<BlockNo>) -> Place
        requires { self.at + 1 < 2 ^ 64 }
        ensures { result ≡ place_after block self }
    {
        match block {
            Some(block) => Place {
                func: self.func,
                block,
                at: 0,
            },
            None => Place {
                func: self.func,
                block: self.block,
                at: self.at + 1,
            },
        }
    }
}

impl Activation {
    fn copy(&self, alloc: Global) -> Result<Activation, AllocError>
        ensures { IfOk result (λ copy. copy ≡ self.now) }
    {
        let regs = self.regs.copy(alloc)?;
        Ok(Activation {
            place: self.place,
            regs,
        })
    }

    fn same(&self, other: &Activation) -> bool
        ensures { IsTrue result ↔ (self.now ≡ other.now) }
    {
        self.place == other.place && self.regs.same(&other.regs)
    }
}

impl Frame {
    /// A new frame of a function, whose parameters have these values.
    pub(crate) fn of_func(
        alloc: Global,
        no: FuncNo,
        func: &LowFunc,
        vals: &[Val],
    ) -> Result<Frame, AllocError>
        ensures { IfOk result (λ frame. frame ≡ new_frame no func.now vals.now) }
    {
        let mut regs = Registers::with_capacity(alloc, func.regs.len())?;
        regs.bind(func.params.as_slice(), vals)?;
        let place = Place {
            func: no,
            block: BlockNo(0),
            at: 0,
        };
        Ok(Frame {
            current: Activation { place, regs },
            saved: Saved::Nothing,
        })
    }

    /// Gives these registers these values, and goes on at the start of a block, or behind the instruction.
    pub(crate) fn go(
        &mut self,
        regs: &[Reg],
        block: Option<BlockNo>,
        vals: &[Val],
    ) -> Result<(), AllocError>
        requires { self.old.current.place.at + 1 < 2 ^ 64 }
        ensures ok { OnOk result (self.new ≡ went (record { regs = regs.now; block = block }) vals.now self.old) }
        ensures err { OnErr result (self.new ≡ self.old) }
    {
        self.current.regs.bind(regs, vals)?;
        self.current.place = self.current.place.after(block);
        Ok(())
    }

    /// Goes on behind the instruction.
    pub(crate) fn pass(&mut self)
        requires { self.old.current.place.at + 1 < 2 ^ 64 }
        ensures { self.new ≡ went (record { regs = []; block = None }) [] self.old }
    {
        self.current.place = self.current.place.after(None);
    }

    /// Keeps a copy, which stands behind what follows the save.
    pub(crate) fn save(&mut self, alloc: Global, results: &[Reg]) -> Result<(), AllocError>
        requires { self.old.current.place.at + 2 < 2 ^ 64 }
        ensures ok { OnOk result (self.new ≡ saving results.now self.old) }
        ensures err { OnErr result (self.new ≡ self.old) }
    {
        let zero = [Val::Number(0)];
        let mut regs = self.current.regs.copy(alloc)?;
        regs.bind(results, &zero)?;
        self.current.regs.bind(results, &zero)?;
        let after = self.current.place.after(None);
        self.current.place = after;
        self.saved = Saved::Kept(Activation {
            place: after.after(None),
            regs,
        });
        Ok(())
    }

    pub(crate) fn copy(&self, alloc: Global) -> Result<Frame, AllocError>
        ensures { IfOk result (λ copy. copy ≡ self.now) }
    {
        let current = self.current.copy(alloc)?;
        let saved = self.saved.copy(alloc)?;
        Ok(Frame { current, saved })
    }

    pub(crate) fn same(&self, other: &Frame) -> bool
        ensures { IsTrue result ↔ (self.now ≡ other.now) }
    {
        self.current.same(&other.current) && self.saved.same(&other.saved)
    }
}

impl Saved {
    fn copy(&self, alloc: Global) -> Result<Saved, AllocError>
        ensures { IfOk result (λ copy. copy ≡ self.now) }
    {
        match self {
            Saved::Nothing => Ok(Saved::Nothing),
            Saved::Kept(copy) => Ok(Saved::Kept(copy.copy(alloc)?)),
            Saved::Taken => Ok(Saved::Taken),
            Saved::Copied => Ok(Saved::Copied),
        }
    }

    fn same(&self, other: &Saved) -> bool
        ensures { IsTrue result ↔ (self.now ≡ other.now) }
    {
        match (self, other) {
            (Saved::Nothing, Saved::Nothing) => true,
            (Saved::Kept(left), Saved::Kept(right)) => left.same(right),
            (Saved::Taken, Saved::Taken) => true,
            (Saved::Copied, Saved::Copied) => true,
            _ => false,
        }
    }
}

/// The parameters of a block; one that isn't there has none.
pub(crate) fn params_of(func: &LowFunc, block: BlockNo) -> &[Reg]
    ensures { result.now ≡ params_of (block_at func.now block) }
{
    match func.blocks.get(block.0 as usize) {
        Some(block) => block.params.as_slice(),
        None => &[],
    }
}
