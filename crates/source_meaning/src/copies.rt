//! An exact copy of a value.
ghost use Rattle.std.specs.Prelude.{◌≡◌, IfOk};

use crate::values::Val;
use ir_forms::{copy_element, copy_made};
use lists::Items;
use std::alloc::{AllocError, Global};

pub fn copy_val(alloc: Global, value: &Val) -> Result<Val, AllocError>
    ensures { IfOk result (λ copy. copy ≡ value.now) }
{
    match value {
        Val::Number(n) => Ok(Val::Number(*n)),
        Val::Memory { buffer, dims } => Ok(Val::Memory {
            buffer: copy_made(alloc, buffer)?,
            dims: Items::from_slice(alloc, dims.as_slice())?,
        }),
        Val::Element(x) => Ok(Val::Element(copy_element(alloc, x)?)),
        Val::Group(g) => Ok(Val::Group(copy_made(alloc, g)?)),
    }
}
