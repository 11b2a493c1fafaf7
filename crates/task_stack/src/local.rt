//! The local steps of a stack.
ghost use Rattle.std.specs.Prelude.{◌≡◌, ◌<◌, ◌+◌, ◌^◌, ◌∷◌, [], None, Some, true, false, slice_get, reverse, IfOk, OnSome, OnErr, MatchOption};
ghost use Rattle.low_forms.specs.Owns.{count_of};
ghost use Rattle.task_stack.specs.Effects.{effect_of};
ghost use Rattle.task_stack.specs.Registers.{number};
ghost use Rattle.task_stack.specs.Local.{IsLocal, has_room, local_step, standing, target_way, way_on, way_behind, way_after, operands, count_step, branch, side, goes, computes, calls, counts, jumps, suspends, leaves, with_top, inner_step, end_step};
ghost use Rattle.task_stack.specs.Local as answers;
ghost use Rattle.task_stack.specs.Frames.{saving};
ghost use Rattle.task_stack.specs.Waiting.{HasNext, GoesOn};

use crate::effects::{Effect, Number, effect_of};
use crate::frames::{Frame, Place, Saved, params_of};
use crate::numbers::computed;
use crate::stack::Stack;
use crate::steps::{CountStep, LocalStep};
use async_objects::Val;
use low_forms::{BlockNo, Instr, LowAttr, LowFunc, LowModule, Reg, Term};
use std::alloc::{AllocError, Global};
use std::mem;

/// A task has at most so many frames.
const MOST_FRAMES: usize = 1024;

/// Where a frame stands: its function, and what remains of the block.
#[derive(Clone, Copy)]
pub(crate) struct Stands<'a> {
    pub(crate) func: &'a LowFunc,
    pub(crate) instrs: &'a [Instr],
    pub(crate) term: &'a Term,
}

/// Where a frame of this place stands, if that is there.
#[tactic(auto, using(crate::proofs::Standings::stands, crate::proofs::Standings::stands_past))]
pub(crate) fn standing(code: &LowModule, place: Place) -> Option<Stands<'_>>
    ensures value { MatchOption result (standing code.now place ≡ None) (λ st. standing code.now place ≡ Some (record { func = st.func.now; rest = record { instrs = st.instrs.now; term = st.term.now } })) }
    ensures within { OnSome result (place.at + 2 < 2 ^ 64) }
{
    let Some(func) = code.funcs.get(place.func.0 as usize) else {
        return None;
    };
    let Some(block) = func.blocks.get(place.block.0 as usize) else {
        return None;
    };
    let instrs = block.instrs.as_slice();
    if instrs.len() < place.at {
        return None;
    }
    Some(Stands {
        func,
        instrs: &instrs[place.at..],
        term: &block.term,
    })
}

/// To the start of one of the targets: the registers that take values there, and the block.
pub(crate) fn target_way<'a>(
    func: &'a LowFunc,
    term: &'a Term,
    k: usize,
) -> Option<(&'a [Reg], BlockNo)>
    ensures { MatchOption result (target_way func.now term.now k ≡ None) (λ way. target_way func.now term.now k ≡ Some (record { regs = way.0.now; block = Some way.1 })) }
{
    match term.targets.get(k) {
        Some(target) => Some((params_of(func, target.block), target.block)),
        None => None,
    }
}

/// How a frame that waits at this place goes on when the frame that it called ends.
pub(crate) fn way_on(
    code: &LowModule,
    place: Place,
    fails: bool,
) -> Option<(&[Reg], Option<BlockNo>)>
    ensures value { MatchOption result (way_on fails code.now place ≡ None) (λ way. way_on fails code.now place ≡ Some (record { regs = way.0.now; block = way.1 })) }
    ensures within { OnSome result (place.at + 1 < 2 ^ 64) }
{
    let Some(stands) = standing(code, place) else {
        return None;
    };
    match stands.instrs.first() {
        Some(call) => way_behind(call, fails),
        None => way_after(stands.func, stands.term, fails),
    }
}

/// Behind the call of a coroutine, which can't fail.
fn way_behind(call: &Instr, fails: bool) -> Option<(&[Reg], Option<BlockNo>)>
    ensures { MatchOption result (way_behind fails call.now ≡ None) (λ way. way_behind fails call.now ≡ Some (record { regs = way.0.now; block = way.1 })) }
{
    match effect_of(call.kind) {
        Effect::Launches if !fails => Some((call.results.as_slice(), None)),
        _ => None,
    }
}

/// To the first target of another call, or where it fails, to the second.
fn way_after<'a>(
    func: &'a LowFunc,
    term: &'a Term,
    fails: bool,
) -> Option<(&'a [Reg], Option<BlockNo>)>
    ensures { MatchOption result (way_after fails func.now term.now ≡ None) (λ way. way_after fails func.now term.now ≡ Some (record { regs = way.0.now; block = way.1 })) }
{
    match effect_of(term.instr.kind) {
        Effect::Calls => {
            let k = if fails { 1 } else { 0 };
            match target_way(func, term, k) {
                Some((regs, block)) => Some((regs, Some(block))),
                None => None,
            }
        }
        _ => None,
    }
}

/// Takes off the frame that waits, and has it go on.
fn go_next(
    below: &mut Vec<Frame>,
    regs: &[Reg],
    block: Option<BlockNo>,
    vals: &[Val],
) -> Result<Frame, AllocError>
    requires { HasNext (reverse below.old.items) }
    ensures ok { IfOk result (λ frame. GoesOn (reverse below.old.items) (record { regs = regs.now; block = block }) vals.now frame (reverse below.new.items)) }
    ensures err { OnErr result (below.new.items ≡ below.old.items) }
{
    match below.pop() {
        Some(mut frame) => match frame.go(regs, block, vals) {
            Ok(()) => Ok(frame),
            Err(wanting) => {
                below.push_reserved(frame);
                Err(wanting)
            }
        },
        None => unreachable!(),
    }
}

/// A step that counts nothing.
const DONE: LocalStep = LocalStep::Done(None);

impl Stack {
    /// Takes the next instruction, where that is a step of the task alone. Else, and without memory, nothing has changed.
    pub fn local(&mut self, alloc: Global, code: &LowModule) -> Result<LocalStep, AllocError>
        ensures step { IfOk result (λ step. IsLocal step self.old self.new (local_step code.now self.old)) }
        ensures err { OnErr result (self.new ≡ self.old) }
    {
        let Some(stands) = standing(code, self.top.current.place) else {
            return Ok(LocalStep::Stuck);
        };
        match stands.instrs.first() {
            Some(instr) => self.inner(alloc, code, stands.func, instr),
            None => self.terminate(alloc, code, stands.func, stands.term),
        }
    }

    /// An instruction within a block.
    fn inner(
        &mut self,
        alloc: Global,
        code: &LowModule,
        func: &LowFunc,
        instr: &Instr,
    ) -> Result<LocalStep, AllocError>
        requires { self.old.top.current.place.at + 2 < 2 ^ 64 }
        ensures step { IfOk result (λ step. IsLocal step self.old self.new (inner_step (effect_of instr.now.kind) (has_room self.old) code.now func.now instr.now self.old)) }
        ensures err { OnErr result (self.new ≡ self.old) }
    {
        match effect_of(instr.kind) {
            Effect::Computes(how) => self.compute(func, instr, how),
            Effect::Skips => self.go(instr.results.as_slice(), None, &[]),
            Effect::Launches => self.call(alloc, code, instr),
            Effect::Saves => self.save(alloc, instr),
            Effect::AddsReferences => self.count(instr, true),
            Effect::DropsReferences => self.count(instr, false),
            Effect::Shared => Ok(LocalStep::Shared),
            _ => Ok(LocalStep::Stuck),
        }
    }

    /// The terminator of a block.
    fn terminate(
        &mut self,
        alloc: Global,
        code: &LowModule,
        func: &LowFunc,
        term: &Term,
    ) -> Result<LocalStep, AllocError>
        requires { self.old.top.current.place.at + 2 < 2 ^ 64 }
        ensures step { IfOk result (λ step. IsLocal step self.old self.new (end_step (effect_of term.now.instr.kind) (has_room self.old) code.now func.now term.now self.old)) }
        ensures err { OnErr result (self.new ≡ self.old) }
    {
        match effect_of(term.instr.kind) {
            Effect::Jumps => self.jump(func, term, 0),
            Effect::Branches => self.branch(func, term),
            Effect::Calls => self.call(alloc, code, &term.instr),
            Effect::Returns => self.give_back(alloc, code, &term.instr),
            Effect::Fails => self.fail(code, &term.instr),
            Effect::Suspends => self.suspend(func, term),
            Effect::Shared => Ok(LocalStep::Shared),
            _ => Ok(LocalStep::Stuck),
        }
    }

    /// The working frame goes on, with these values in these registers.
    fn go(
        &mut self,
        regs: &[Reg],
        block: Option<BlockNo>,
        vals: &[Val],
    ) -> Result<LocalStep, AllocError>
        requires { self.old.top.current.place.at + 2 < 2 ^ 64 }
        ensures step { IfOk result (λ step. IsLocal step self.old self.new (goes (record { regs = regs.now; block = block }) vals.now self.old)) }
        ensures err { OnErr result (self.new ≡ self.old) }
    {
        self.top.go(regs, block, vals)?;
        Ok(DONE)
    }

    fn compute(
        &mut self,
        func: &LowFunc,
        instr: &Instr,
        how: Number,
    ) -> Result<LocalStep, AllocError>
        requires { self.old.top.current.place.at + 2 < 2 ^ 64 }
        ensures step { IfOk result (λ step. IsLocal step self.old self.new (computes how func.now instr.now self.old)) }
        ensures err { OnErr result (self.new ≡ self.old) }
    {
        match computed(how, func, instr, &self.top.current.regs) {
            Some(val) => self.go(instr.results.as_slice(), None, &[val]),
            None => Ok(LocalStep::Stuck),
        }
    }

    /// A call: a frame more, if it may be.
    #[tactic(auto, using(crate::proofs::Standings::reverse_snoc))]
    fn call(
        &mut self,
        alloc: Global,
        code: &LowModule,
        instr: &Instr,
    ) -> Result<LocalStep, AllocError>
        ensures step { IfOk result (λ step. IsLocal step self.old self.new (calls (has_room self.old) code.now instr.now.attr (operands self.old instr.now) self.old)) }
        ensures err { OnErr result (self.new ≡ self.old) }
    {
        let LowAttr::Callee(no) = instr.attr else {
            return Ok(LocalStep::Stuck);
        };
        let Some(func) = code.funcs.get(no.0 as usize) else {
            return Ok(LocalStep::Stuck);
        };
        if MOST_FRAMES <= self.below.len() + 1 {
            return Ok(LocalStep::Deep);
        }
        let vals = self
            .top
            .current
            .regs
            .values(alloc, instr.operands.as_slice())?;
        self.below.reserve(1)?;
        let frame = Frame::of_func(alloc, no, func, vals.as_slice())?;
        let caller = mem::replace(&mut self.top, frame);
        self.below.push_reserved(caller);
        Ok(DONE)
    }

    fn save(&mut self, alloc: Global, instr: &Instr) -> Result<LocalStep, AllocError>
        requires { self.old.top.current.place.at + 2 < 2 ^ 64 }
        ensures step { IfOk result (λ step. IsLocal step self.old self.new (answers.Done (with_top self.old (saving instr.now.results self.old.top)) None)) }
        ensures err { OnErr result (self.new ≡ self.old) }
    {
        self.top.save(alloc, instr.results.as_slice())?;
        Ok(DONE)
    }

    /// References are counted elsewhere; the step says of what, and how many.
    fn count(&mut self, instr: &Instr, adds: bool) -> Result<LocalStep, AllocError>
        requires { self.old.top.current.place.at + 2 < 2 ^ 64 }
        ensures step { IfOk result (λ step. IsLocal step self.old self.new (counts adds instr.now self.old)) }
        ensures err { OnErr result (self.new ≡ self.old) }
    {
        let val = self.top.current.regs.value(instr.operands.as_slice(), 0);
        self.top.go(&[], None, &[])?;
        Ok(LocalStep::Done(count_step(instr.attr, adds, val)))
    }

    /// To one of the targets, with what its arguments hold.
    fn jump(&mut self, func: &LowFunc, term: &Term, k: usize) -> Result<LocalStep, AllocError>
        requires { self.old.top.current.place.at + 2 < 2 ^ 64 }
        ensures step { IfOk result (λ step. IsLocal step self.old self.new (jumps func.now (slice_get term.now.targets k) self.old)) }
        ensures err { OnErr result (self.new ≡ self.old) }
    {
        let Some(target) = term.targets.get(k) else {
            return Ok(LocalStep::Stuck);
        };
        self.top
            .current
            .regs
            .read(target.args.as_slice(), &mut self.passed)?;
        let regs = params_of(func, target.block);
        self.top
            .go(regs, Some(target.block), self.passed.as_slice())?;
        Ok(DONE)
    }

    fn branch(&mut self, func: &LowFunc, term: &Term) -> Result<LocalStep, AllocError>
        requires { self.old.top.current.place.at + 2 < 2 ^ 64 }
        ensures step { IfOk result (λ step. IsLocal step self.old self.new (jumps func.now (slice_get term.now.targets (branch (number (operands self.old term.now.instr) 0))) self.old)) }
        ensures err { OnErr result (self.new ≡ self.old) }
    {
        let truth = self
            .top
            .current
            .regs
            .number(term.instr.operands.as_slice(), 0);
        let k = if truth == 0 { 1 } else { 0 };
        self.jump(func, term, k)
    }

    /// A frame that was copied goes on at the first target, and its copy at the second.
    fn suspend(&mut self, func: &LowFunc, term: &Term) -> Result<LocalStep, AllocError>
        requires { self.old.top.current.place.at + 2 < 2 ^ 64 }
        ensures step { IfOk result (λ step. IsLocal step self.old self.new (suspends func.now term.now self.old)) }
        ensures err { OnErr result (self.new ≡ self.old) }
    {
        let Some(k) = side(&self.top.saved) else {
            return Ok(LocalStep::Stuck);
        };
        let Some((regs, block)) = target_way(func, term, k) else {
            return Ok(LocalStep::Stuck);
        };
        self.top.go(regs, Some(block), &[])?;
        self.top.saved = Saved::Nothing;
        Ok(DONE)
    }

    /// A return.
    fn give_back(
        &mut self,
        alloc: Global,
        code: &LowModule,
        instr: &Instr,
    ) -> Result<LocalStep, AllocError>
        ensures step { IfOk result (λ step. IsLocal step self.old self.new (leaves false code.now (operands self.old instr.now) self.old.below self.old)) }
        ensures err { OnErr result (self.new ≡ self.old) }
    {
        let vals = self
            .top
            .current
            .regs
            .values(alloc, instr.operands.as_slice())?;
        self.leave(code, vals.as_slice(), false)
    }

    fn fail(&mut self, code: &LowModule, instr: &Instr) -> Result<LocalStep, AllocError>
        ensures step { IfOk result (λ step. IsLocal step self.old self.new (leaves true code.now (Val.Number (number (operands self.old instr.now) 0) ∷ []) self.old.below self.old)) }
        ensures err { OnErr result (self.new ≡ self.old) }
    {
        let failure = self.top.current.regs.number(instr.operands.as_slice(), 0);
        self.leave(code, &[Val::Number(failure)], true)
    }

    /// The working frame is done, and the one that called it goes on with these values.
    fn leave(
        &mut self,
        code: &LowModule,
        vals: &[Val],
        fails: bool,
    ) -> Result<LocalStep, AllocError>
        ensures step { IfOk result (λ step. IsLocal step self.old self.new (leaves fails code.now vals.now self.old.below self.old)) }
        ensures err { OnErr result (self.new ≡ self.old) }
    {
        let Some(caller) = self.below.last() else {
            return Ok(if self.is_root {
                LocalStep::Shared
            } else {
                LocalStep::Stuck
            });
        };
        let Some((regs, block)) = way_on(code, caller.current.place, fails) else {
            return Ok(LocalStep::Stuck);
        };
        self.top = go_next(&mut self.below, regs, block, vals)?;
        Ok(DONE)
    }
}

/// Which target a suspend takes.
pub(crate) fn side(saved: &Saved) -> Option<usize>
    ensures { result ≡ side saved.now }
{
    match saved {
        Saved::Nothing => None,
        Saved::Kept(_) | Saved::Taken => Some(0),
        Saved::Copied => Some(1),
    }
}

/// What an instruction that counts references says of its operand. A number is no object, and isn't counted.
pub(crate) fn count_step(attr: LowAttr, adds: bool, val: Val) -> Option<CountStep>
    ensures { result ≡ count_step adds (count_of attr) val }
{
    match val {
        Val::Object(object) => Some(CountStep {
            object,
            adds,
            n: count_of(attr),
        }),
        _ => None,
    }
}

fn count_of(attr: LowAttr) -> u64
    ensures { result ≡ count_of attr }
{
    match attr {
        LowAttr::Count(n) => n,
        _ => 0,
    }
}
