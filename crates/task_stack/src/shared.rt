//! What shared steps see of a stack, and do to it.
ghost use Rattle.std.specs.Prelude.{◌≡◌, ◌<◌, ◌≤◌, ◌+◌, ◌-◌, ◌^◌, ◌↔◌, ◌∷◌, [], length, None, Some, true, false, IsTrue, IsSome, IfOk, IfErr, OnOk, OnErr, OnSome, MatchOption};
ghost use Rattle.task_stack.specs.Registers.{value, number};
ghost use Rattle.task_stack.specs.Frames.{copied_stack};
ghost use Rattle.task_stack.specs.Local.{operands};
ghost use Rattle.task_stack.specs.Shared.{next_of, moved, passed, kept, resumed, becomes, CreateRefusal, AddRefusal};
ghost use Rattle.async_objects.specs.Objects.{object_at, is_group, takes_more, added};
ghost use Rattle.async_objects.specs.Counts.{count_at, live, IsThere};
ghost use Rattle.async_objects.specs.Reserved.{grown};
ghost use Rattle.async_objects.specs.Tables.{with_created, with_element};

use crate::frames::Saved;
use crate::local::standing;
use crate::stack::Stack;
use async_objects::{AddError, CreateError, Kind, Objects, Val, WokenList};
use ir_forms::ObjNo;
use low_forms::{Instr, LowFunc, LowModule, Reg};
use std::alloc::{AllocError, Global};
use std::mem;

impl Stack {
    /// The next instruction, with its function.
    pub fn next<'a>(&self, code: &'a LowModule) -> Option<(&'a LowFunc, &'a Instr)>
        ensures value { MatchOption result (next_of code.now self.now ≡ None) (λ n. next_of code.now self.now ≡ Some (record { func = n.0.now; instr = n.1.now })) }
        ensures within { OnSome result (self.now.top.current.place.at + 2 < 2 ^ 64) }
    {
        let Some(stands) = standing(code, self.top.current.place) else {
            return None;
        };
        match stands.instrs.first() {
            Some(instr) => Some((stands.func, instr)),
            None => Some((stands.func, &stands.term.instr)),
        }
    }

    /// What one of its operands holds.
    pub fn value(&self, instr: &Instr, i: usize) -> Val
        ensures { result ≡ value (operands self.now instr.now) i }
    {
        self.top.current.regs.value(instr.operands.as_slice(), i)
    }

    /// The number in it; what is no number reads as 0.
    pub fn number(&self, instr: &Instr, i: usize) -> u64
        ensures { result ≡ number (operands self.now instr.now) i }
    {
        self.top.current.regs.number(instr.operands.as_slice(), i)
    }

    /// What all of its operands hold.
    pub fn values(&self, alloc: Global, instr: &Instr) -> Result<Vec<Val>, AllocError>
        ensures { IfOk result (λ vals. vals.items ≡ operands self.now instr.now) }
    {
        self.top
            .current
            .regs
            .values(alloc, instr.operands.as_slice())
    }

    pub fn is_root(&self) -> bool
        ensures { result ≡ self.now.is_root }
    {
        self.is_root
    }

    /// Whether the working frame is the only one.
    pub fn is_last(&self) -> bool
        ensures { IsTrue result ↔ (self.now.below ≡ []) }
    {
        self.below.is_empty()
    }

    /// The working frame goes on behind its instruction, with these values in these registers. Without memory nothing has
    /// changed.
    pub fn give(&mut self, regs: &[Reg], vals: &[Val]) -> Result<(), AllocError>
        requires { self.old.top.current.place.at + 2 < 2 ^ 64 }
        ensures ok { OnOk result (self.new ≡ moved regs.now vals.now self.old) }
        ensures err { OnErr result (self.new ≡ self.old) }
    {
        self.top.go(regs, None, vals)
    }

    /// Makes an object, and goes on behind the instruction with the object in these registers.
    ///
    /// # Errors
    ///
    /// Where as many objects are there as may be, and where memory runs out. Then nothing has changed.
    pub fn give_created(
        &mut self,
        objects: &mut Objects,
        kind: Kind,
        regs: &[Reg],
    ) -> Result<ObjNo, CreateError>
        requires place { self.old.top.current.place.at + 2 < 2 ^ 64 }
        requires made { length objects.old.objects < 2 ^ 32 - 1 }
        ensures created { IfOk result (λ o. (o.0 ≡ length objects.old.objects) × (live objects.old.counts < objects.old.limit) × (objects.new ≡ with_created kind objects.old) × (self.new ≡ moved regs.now (Val.Object o ∷ []) self.old)) }
        ensures refused { IfErr result (λ why. CreateRefusal why objects.old × (objects.new ≡ objects.old) × (self.new ≡ self.old)) }
    {
        match self.top.current.regs.bind_created(objects, kind, regs) {
            Ok(o) => {
                self.top.pass();
                Ok(o)
            }
            Err(refusal) => Err(refusal),
        }
    }

    /// Adds an element to a group, and goes on behind the instruction with the number of elements before it in these
    /// registers.
    ///
    /// # Errors
    ///
    /// Where the group has as many elements as its size, and where memory runs out. Then nothing has changed.
    pub fn give_added(
        &mut self,
        objects: &mut Objects,
        element: ObjNo,
        group: ObjNo,
        woken: &mut WokenList,
        regs: &[Reg],
    ) -> Result<u64, AddError>
        requires place { self.old.top.current.place.at + 2 < 2 ^ 64 }
        requires element { IsThere objects.old.counts element }
        requires single { is_group (object_at objects.old.objects element).kind ≡ false }
        requires group { IsThere objects.old.counts group }
        requires grouped { is_group (object_at objects.old.objects group).kind ≡ true }
        requires count { count_at objects.old.counts group.0 < 2 ^ 64 - 1 }
        requires woken { length (added element group objects.old.objects).tasks ≤ woken.old.room }
        ensures added { IfOk result (λ rank. (rank ≡ (object_at objects.old.objects group).members.added) × (takes_more (object_at objects.old.objects group) ≡ true) × (objects.new ≡ with_element element group objects.old) × (woken.new ≡ grown (added element group objects.old.objects).tasks woken.old) × (self.new ≡ moved regs.now (Val.Number rank ∷ []) self.old)) }
        ensures refused { IfErr result (λ why. AddRefusal why (object_at objects.old.objects group) × (objects.new ≡ objects.old) × (woken.new ≡ woken.old) × (self.new ≡ self.old)) }
    {
        match self
            .top
            .current
            .regs
            .bind_added(objects, element, group, woken, regs)
        {
            Ok(rank) => {
                self.top.pass();
                Ok(rank)
            }
            Err(refusal) => Err(refusal),
        }
    }

    /// The working frame goes on behind its instruction.
    pub fn pass(&mut self)
        requires { self.old.top.current.place.at + 2 < 2 ^ 64 }
        ensures { self.new ≡ passed self.old }
    {
        self.top.pass();
    }

    /// Whether the working frame has a kept copy.
    pub fn has_copy(&self) -> bool
        ensures { IsTrue result ↔ IsSome (kept self.now) }
    {
        matches!(&self.top.saved, Saved::Kept(_))
    }

    /// The stack of a new task, which is the working frame's kept copy. The working frame goes on behind its instruction.
    /// Where there is no copy nothing changes.
    pub fn resume(&mut self, alloc: Global) -> Option<Stack>
        requires { self.old.top.current.place.at + 2 < 2 ^ 64 }
        ensures { MatchOption (kept self.old) ((result ≡ None) × (self.new ≡ self.old)) (λ copy. (result ≡ Some (copied_stack copy)) × (self.new ≡ resumed self.old)) }
    {
        match mem::replace(&mut self.top.saved, Saved::Taken) {
            Saved::Kept(copy) => {
                self.top.pass();
                Some(Stack::of_copy(alloc, copy))
            }
            other => {
                self.top.saved = other;
                None
            }
        }
    }

    /// The working frame becomes its kept copy, if it has one; else nothing changes.
    pub fn become_copy(&mut self) -> bool
        ensures { MatchOption (kept self.old) ((result ≡ false) × (self.new ≡ self.old)) (λ copy. (result ≡ true) × (self.new ≡ becomes copy self.old)) }
    {
        match mem::replace(&mut self.top.saved, Saved::Copied) {
            Saved::Kept(copy) => {
                self.top.current = copy;
                true
            }
            other => {
                self.top.saved = other;
                false
            }
        }
    }
}
