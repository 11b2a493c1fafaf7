//! Names as the keys of maps.
ghost use Rattle.std.specs.Prelude.{◌≡◌, IfOk};
ghost use Rattle.source_state.specs.Seen.{made_of};

use ir_forms::MadeName;
use std::alloc::{AllocError, Global};

/// The name of a buffer or a group, in an order.
#[derive(PartialEq, Eq, PartialOrd, Ord, Drop)]
pub(crate) enum Name {
    Argument(u32),
    Made(Vec<u32>, u32),
}

pub(crate) fn name_of(alloc: Global, name: &MadeName) -> Result<Name, AllocError>
    ensures { IfOk result (λ key. made_of key ≡ name.now) }
{
    match name {
        MadeName::Argument { parameter } => Ok(Name::Argument(*parameter)),
        MadeName::Made { task, action } => {
            Ok(Name::Made(Vec::from_slice(alloc, task.as_slice())?, *action))
        }
    }
}
