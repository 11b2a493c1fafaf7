//! What becomes of the blocks of a function.
ghost use Rattle.std.specs.Prelude.{◌≡◌, ◌++◌, ◌∷◌, [], map, slice_get, Some, IfOk, OnOk};
ghost use Rattle.coro_lower.specs.Layout as spec;
ghost use Rattle.coro_lower.specs.Rows as rows;
ghost use Rattle.coro_lower.specs.Shape as shape;

use crate::label::{End, Label};
use crate::layout::{end_of, target_at};
use crate::plan::{Plan, counted};
use crate::rows::{block, copy_instr, ends, idle, push_called, push_row};
use lists::Items;
use low_forms::{Block, BlockNo, Instr, OpKind, Reg, Target, Term};
use std::alloc::{AllocError, Global};

impl<'a> Plan<'a> {
    // ---- terminators

    pub(crate) fn jump(&self, alloc: Global, label: Label) -> Result<Term, AllocError>
        ensures { IfOk result (λ made. made ≡ shape.jump self.now label) }
    {
        ends(alloc, OpKind::CfBr, &[], &[self.place(label)])
    }

    /// Where what was awaited is in error, to the failure block.
    fn branch(&self, alloc: Global, at: u32, targets: &[Target]) -> Result<Term, AllocError>
        ensures { IfOk result (λ made. made ≡ shape.branch self.now at targets.now) }
    {
        let flag = self.flag(at)?;
        let failed = self.place(Label::Body(target_at(targets, 1)));
        let go = self.place(Label::Body(target_at(targets, 0)));
        ends(alloc, OpKind::CfCondBr, &[flag], &[failed, go])
    }

    pub(crate) fn suspend(&self, alloc: Global, state: Reg, next: Label) -> Result<Term, AllocError>
        ensures { IfOk result (λ made. made ≡ shape.suspend self.now state next) }
    {
        let blocks = [
            self.place(Label::Suspended),
            self.place(next),
            self.place(Label::Cleanup),
        ];
        ends(alloc, OpKind::AsyncCoroSuspend, &[state], &blocks)
    }

    fn moved(&self, alloc: Global, target: &Target) -> Result<Target, AllocError>
        ensures { IfOk result (λ made. made ≡ shape.moved self.now target.now) }
    {
        let args = Items::from_slice(alloc, target.args.as_slice())?;
        let block = BlockNo(self.place(Label::Body(target.block.0)));
        Ok(Target { block, args })
    }

    fn all_moved(&self, alloc: Global, targets: &[Target]) -> Result<Items<Target>, AllocError>
        ensures { IfOk result (λ made. made ≡ map (shape.moved self.now) targets.now) }
    {
        let mut made = Items::new(alloc);
        for target in targets {
            made.push(self.moved(alloc, target)?)?;
        }
        Ok(made)
    }

    fn stays(&self, alloc: Global, term: &Term) -> Result<Term, AllocError>
        ensures { IfOk result (λ made. made ≡ record term.now { targets = map (shape.moved self.now) term.now.targets }) }
    {
        let instr = copy_instr(alloc, &term.instr, term.instr.kind)?;
        let targets = self.all_moved(alloc, term.targets.as_slice())?;
        Ok(Term { instr, targets })
    }

    fn term(&self, alloc: Global, end: End, at: u32, term: &Term) -> Result<Term, AllocError>
        ensures { IfOk result (λ made. made ≡ shape.term_of end self.now at term.now) }
    {
        match end {
            End::Stays => self.stays(alloc, term),
            End::Waits => self.branch(alloc, at, term.targets.as_slice()),
            End::Suspends => {
                let state = self.saved(at)?;
                self.suspend(alloc, state, Label::Next(at))
            }
            End::Gives => self.jump(alloc, Label::Cleanup),
            End::Fails => self.jump(alloc, Label::SetsError),
        }
    }

    // ---- instructions

    fn push_is_error(
        &self,
        alloc: Global,
        instrs: &mut Items<Instr>,
        at: u32,
        awaited: &[Reg],
    ) -> Result<(), AllocError>
        ensures { OnOk result (instrs.new ≡ instrs.old ++ shape.is_error self.now at awaited.now ∷ []) }
    {
        let flag = self.flag(at)?;
        push_row(alloc, instrs, OpKind::AsyncRuntimeIsError, awaited, &[flag])
    }

    /// Stores and sets each value, and then sets the token.
    fn push_gives(
        &self,
        alloc: Global,
        instrs: &mut Items<Instr>,
        values: &[Reg],
    ) -> Result<(), AllocError>
        ensures { OnOk result (instrs.new ≡ instrs.old ++ shape.gives self.now 1 values.now) }
    {
        for (k, value) in values.iter().enumerate() {
            let object = self.made(counted(k)? + 1)?;
            push_row(
                alloc,
                instrs,
                OpKind::AsyncRuntimeStore,
                &[*value, object],
                &[],
            )?;
            push_row(
                alloc,
                instrs,
                OpKind::AsyncRuntimeSetAvailable,
                &[object],
                &[],
            )?;
        }
        let token = self.token()?;
        push_row(
            alloc,
            instrs,
            OpKind::AsyncRuntimeSetAvailable,
            &[token],
            &[],
        )
    }

    fn push_waits(
        &self,
        alloc: Global,
        instrs: &mut Items<Instr>,
        at: u32,
        awaited: &[Reg],
    ) -> Result<(), AllocError>
        ensures { OnOk result (instrs.new ≡ instrs.old ++ shape.before_end End.Waits self.now at awaited.now) }
    {
        push_row(alloc, instrs, OpKind::AsyncRuntimeAwait, awaited, &[])?;
        self.push_is_error(alloc, instrs, at, awaited)
    }

    fn push_suspends(
        &self,
        alloc: Global,
        instrs: &mut Items<Instr>,
        at: u32,
        awaited: &[Reg],
    ) -> Result<(), AllocError>
        ensures { OnOk result (instrs.new ≡ instrs.old ++ shape.before_end End.Suspends self.now at awaited.now) }
    {
        let handle = self.handle()?;
        let state = self.saved(at)?;
        let mut operands = Vec::from_slice(alloc, awaited)?;
        operands.push(handle)?;
        push_row(alloc, instrs, OpKind::AsyncCoroSave, &[handle], &[state])?;
        push_row(
            alloc,
            instrs,
            OpKind::AsyncRuntimeAwaitAndResume,
            &operands,
            &[],
        )
    }

    fn push_before_end(
        &self,
        alloc: Global,
        instrs: &mut Items<Instr>,
        end: End,
        at: u32,
        operands: &[Reg],
    ) -> Result<(), AllocError>
        ensures { OnOk result (instrs.new ≡ instrs.old ++ shape.before_end end self.now at operands.now) }
    {
        match end {
            End::Stays | End::Fails => Ok(()),
            End::Waits => self.push_waits(alloc, instrs, at, operands),
            End::Suspends => self.push_suspends(alloc, instrs, at, operands),
            End::Gives => self.push_gives(alloc, instrs, operands),
        }
    }

    /// What this block awaits.
    fn awaited_at(&self, at: u32) -> &'a [Reg]
        ensures { result.now ≡ shape.awaited_at (slice_get self.now.blocks at) }
    {
        match self.func().blocks.get(at as usize) {
            Some(block) => block.term.instr.operands.as_slice(),
            None => &[],
        }
    }

    fn push_load(
        &self,
        alloc: Global,
        instrs: &mut Items<Instr>,
        awaiting: Option<u32>,
        params: &[Reg],
    ) -> Result<(), AllocError>
        ensures { OnOk result (instrs.new ≡ instrs.old ++ shape.loads self.now awaiting params.now) }
    {
        match awaiting {
            Some(block) => {
                if params.is_empty() {
                    return Ok(());
                }
                let awaited = self.awaited_at(block);
                push_row(alloc, instrs, OpKind::AsyncRuntimeLoad, awaited, params)
            }
            None => Ok(()),
        }
    }

    fn instrs(
        &self,
        alloc: Global,
        end: End,
        at: u32,
        block: &Block,
    ) -> Result<Items<Instr>, AllocError>
        ensures { IfOk result (λ made. made ≡ shape.instrs_of end self.now at block.now) }
    {
        let mut instrs = Items::new(alloc);
        if let End::Fails = end {
            return Ok(instrs);
        }
        let operands = block.term.instr.operands.as_slice();
        self.push_load(
            alloc,
            &mut instrs,
            self.awaiting(at),
            block.params.as_slice(),
        )?;
        push_called(alloc, &mut instrs, block.instrs.as_slice())?;
        self.push_before_end(alloc, &mut instrs, end, at, operands)?;
        Ok(instrs)
    }

    // ---- blocks

    fn params(&self, alloc: Global, at: u32, params: &[Reg]) -> Result<Items<Reg>, AllocError>
        ensures { IfOk result (λ left. left ≡ shape.params_left (spec.awaiting self.now at) params.now) }
    {
        match self.awaiting(at) {
            Some(_block) => Ok(Items::new(alloc)),
            None => Items::from_slice(alloc, params),
        }
    }

    fn lowered(&self, alloc: Global, at: u32, block: &Block) -> Result<Block, AllocError>
        ensures { IfOk result (λ made. made ≡ shape.body self.now at (Some block.now)) }
    {
        let end = end_of(self.func(), block);
        let params = self.params(alloc, at, block.params.as_slice())?;
        let instrs = self.instrs(alloc, end, at, block)?;
        let term = self.term(alloc, end, at, &block.term)?;
        Ok(Block {
            params,
            instrs,
            term,
        })
    }

    /// What this block becomes.
    pub(crate) fn body(&self, alloc: Global, at: u32) -> Result<Block, AllocError>
        ensures { IfOk result (λ made. made ≡ shape.body self.now at (slice_get self.now.blocks at)) }
    {
        match self.func().blocks.get(at as usize) {
            Some(block) => self.lowered(alloc, at, block),
            None => idle(alloc),
        }
    }

    fn test(&self, alloc: Global, at: u32, term: &Term) -> Result<Block, AllocError>
        ensures { IfOk result (λ made. made ≡ rows.block (shape.is_error self.now at term.now.instr.operands ∷ []) (shape.branch self.now at term.now.targets)) }
    {
        let mut instrs = Items::new(alloc);
        self.push_is_error(alloc, &mut instrs, at, term.instr.operands.as_slice())?;
        let branch = self.branch(alloc, at, term.targets.as_slice())?;
        Ok(block(alloc, instrs, branch))
    }

    /// Tests what this block awaited.
    pub(crate) fn next(&self, alloc: Global, at: u32) -> Result<Block, AllocError>
        ensures { IfOk result (λ made. made ≡ shape.next self.now at (slice_get self.now.blocks at)) }
    {
        match self.func().blocks.get(at as usize) {
            Some(block) => self.test(alloc, at, &block.term),
            None => idle(alloc),
        }
    }
}
