//! A function with another body.
ghost use Rattle.std.specs.Prelude.{◌≡◌, IfOk};

use ir_forms::{Func, Region, copy_params, copy_types};
use lists::Items;
use std::alloc::{AllocError, Global};

/// A copy of the function, with this body.
pub fn with_body(alloc: Global, func: &Func, body: Region) -> Result<Func, AllocError>
    ensures { IfOk result (λ made. made ≡ record func.now { body = body }) }
{
    let name = Items::from_slice(alloc, func.name.as_slice())?;
    let params = copy_params(alloc, func.params.as_slice())?;
    let results = copy_types(alloc, func.results.as_slice())?;
    Ok(Func {
        name,
        params,
        results,
        body,
        at: func.at,
    })
}
