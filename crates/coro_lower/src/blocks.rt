//! The blocks of a coroutine that its task hasn't.
ghost use Rattle.std.specs.Prelude.{◌≡◌, ◌∷◌, map, IfOk};
ghost use Rattle.coro_lower.specs.Registers.{token, values};
ghost use Rattle.coro_lower.specs.Shape as shape;

use crate::label::Label;
use crate::plan::Plan;
use crate::rows::{block, ends, push_row};
use lists::Items;
use low_forms::{Block, Instr, OpKind, Reg};
use std::alloc::{AllocError, Global};

fn creates(alloc: Global, objects: &[Reg]) -> Result<Items<Instr>, AllocError>
    ensures { IfOk result (λ made. made ≡ map shape.create objects.now) }
{
    let mut instrs = Items::new(alloc);
    for object in objects {
        push_row(
            alloc,
            &mut instrs,
            OpKind::AsyncRuntimeCreate,
            &[],
            &[*object],
        )?;
    }
    Ok(instrs)
}

fn set_errors(alloc: Global, objects: &[Reg]) -> Result<Items<Instr>, AllocError>
    ensures { IfOk result (λ made. made ≡ map shape.set_error objects.now) }
{
    let mut instrs = Items::new(alloc);
    for object in objects {
        push_row(
            alloc,
            &mut instrs,
            OpKind::AsyncRuntimeSetError,
            &[*object],
            &[],
        )?;
    }
    Ok(instrs)
}

impl<'a> Plan<'a> {
    /// The token, and the values behind it.
    fn objects(&self, alloc: Global) -> Result<Vec<Reg>, AllocError>
        ensures { IfOk result (λ objects. objects.items ≡ token self.now ∷ values self.now) }
    {
        let mut objects = Vec::new(alloc);
        objects.push(self.token()?)?;
        self.push_values(&mut objects)?;
        Ok(objects)
    }

    fn begins(&self, alloc: Global) -> Result<Items<Instr>, AllocError>
        ensures { IfOk result (λ made. made ≡ shape.begins self.now) }
    {
        let identity = self.identity()?;
        let handle = self.handle()?;
        let state = self.first_saved()?;
        let mut instrs = Items::new(alloc);
        push_row(alloc, &mut instrs, OpKind::AsyncCoroId, &[], &[identity])?;
        push_row(
            alloc,
            &mut instrs,
            OpKind::AsyncCoroBegin,
            &[identity],
            &[handle],
        )?;
        push_row(
            alloc,
            &mut instrs,
            OpKind::AsyncCoroSave,
            &[handle],
            &[state],
        )?;
        push_row(
            alloc,
            &mut instrs,
            OpKind::AsyncRuntimeResume,
            &[handle],
            &[],
        )?;
        Ok(instrs)
    }

    fn entry(&self, alloc: Global) -> Result<Block, AllocError>
        ensures { IfOk result (λ made. made ≡ shape.label_block self.now Label.Entry) }
    {
        let objects = self.objects(alloc)?;
        let mut instrs = creates(alloc, &objects)?;
        instrs.append(self.begins(alloc)?)?;
        let state = self.first_saved()?;
        let term = self.suspend(alloc, state, Label::Body(0))?;
        Ok(block(alloc, instrs, term))
    }

    fn sets_error(&self, alloc: Global) -> Result<Block, AllocError>
        ensures { IfOk result (λ made. made ≡ shape.label_block self.now Label.SetsError) }
    {
        let mut objects = Vec::new(alloc);
        self.push_values(&mut objects)?;
        objects.push(self.token()?)?;
        let instrs = set_errors(alloc, &objects)?;
        let term = self.jump(alloc, Label::Cleanup)?;
        Ok(block(alloc, instrs, term))
    }

    fn cleanup(&self, alloc: Global) -> Result<Block, AllocError>
        ensures { IfOk result (λ made. made ≡ shape.label_block self.now Label.Cleanup) }
    {
        let identity = self.identity()?;
        let handle = self.handle()?;
        let mut instrs = Items::new(alloc);
        push_row(
            alloc,
            &mut instrs,
            OpKind::AsyncCoroFree,
            &[identity, handle],
            &[],
        )?;
        push_row(alloc, &mut instrs, OpKind::AsyncCoroEnd, &[handle], &[])?;
        let term = ends(alloc, OpKind::AioFinish, &[], &[])?;
        Ok(block(alloc, instrs, term))
    }

    fn suspended(&self, alloc: Global) -> Result<Block, AllocError>
        ensures { IfOk result (λ made. made ≡ shape.label_block self.now Label.Suspended) }
    {
        let handle = self.handle()?;
        let mut instrs = Items::new(alloc);
        push_row(alloc, &mut instrs, OpKind::AsyncCoroEnd, &[handle], &[])?;
        let objects = self.objects(alloc)?;
        let term = ends(alloc, OpKind::FuncReturn, &objects, &[])?;
        Ok(block(alloc, instrs, term))
    }

    /// The block of a label.
    pub(crate) fn block(&self, alloc: Global, label: Label) -> Result<Block, AllocError>
        ensures { IfOk result (λ made. made ≡ shape.label_block self.now label) }
    {
        match label {
            Label::Entry => self.entry(alloc),
            Label::Next(at) => self.next(alloc, at),
            Label::Body(at) => self.body(alloc, at),
            Label::SetsError => self.sets_error(alloc),
            Label::Cleanup => self.cleanup(alloc),
            Label::Suspended => self.suspended(alloc),
        }
    }
}
