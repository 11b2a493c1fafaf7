//! What a run has come to.
ghost use Rattle.std.specs.Prelude.{◌≡◌, map, IfOk};
ghost use Rattle.step_core.specs.Cells.{of_type, buffer_of};
ghost use Rattle.step_core.specs.State.{end_of};

use crate::cells::{ArgBuffer, Cells};
use crate::ends::{End, RootEnd};
use crate::running::Core;
use ir_forms::{Buffer, Out, OutTy};
use lists::Items;
use std::alloc::{AllocError, Global};

impl<'a> Core<'a> {
    /// The end of the run's root, once it has ended. The buffers are final once no task is left.
    ///
    /// # Errors
    ///
    /// Where memory runs out.
    pub fn end(&self) -> Result<Option<End>, AllocError>
        ensures { IfOk result (λ end. end ≡ end_of self.now.core.plain) }
    {
        match &self.root_end {
            None => Ok(None),
            Some(RootEnd::FailedAt { op }) => Ok(Some(End::Failed { op: *op })),
            Some(RootEnd::Returned { results }) => {
                let buffers = buffers_out(self.alloc, &self.cells, self.arguments.as_slice())?;
                let results = Items::from_slice(self.alloc, results.as_slice())?;
                Ok(Some(End::Done { results, buffers }))
            }
        }
    }
}

/// The cells of the arguments that are buffers.
fn buffers_out(
    alloc: Global,
    cells: &Cells,
    arguments: &[ArgBuffer],
) -> Result<Items<Buffer>, AllocError>
    ensures { IfOk result (λ buffers. buffers ≡ map (λ a. buffer_of cells.now.buffers a) arguments.now) }
{
    let mut buffers = Items::new(alloc);
    for argument in arguments {
        buffers.push(buffer_out(alloc, cells, *argument)?)?;
    }
    Ok(buffers)
}

/// The cells of an argument that is a buffer.
fn buffer_out(alloc: Global, cells: &Cells, argument: ArgBuffer) -> Result<Buffer, AllocError>
    ensures { IfOk result (λ buffer. buffer ≡ buffer_of cells.now.buffers argument) }
{
    let outs = outs(alloc, argument.cell, cells.cells(argument.buffer))?;
    Ok(Buffer {
        argument: argument.argument,
        cells: outs,
    })
}

/// Numbers of this type.
fn outs(alloc: Global, ty: OutTy, cells: &[u64]) -> Result<Items<Out>, AllocError>
    ensures { IfOk result (λ outs. outs ≡ map (λ n. of_type ty n) cells.now) }
{
    let mut outs = Items::new(alloc);
    for bits in cells {
        outs.push(Out { ty, bits: *bits })?;
    }
    Ok(outs)
}
