//! The pass.
ghost use Rattle.std.specs.Prelude.{◌≡◌, ◌≤◌, IfOk};
ghost use Rattle.op_table.specs.Rows.{place_of};
ghost use Rattle.value_numbers.specs.Numbers.{value_numbered};
ghost use Rattle.check_insert.specs.Shape as shape;

use crate::laws::{checked_has_level, checked_is_sound};
use crate::walk::checked;
use ir_forms::Level;
use ir_verify::Verified;
use std::alloc::{AllocError, Global};
use value_numbers::number_values;

/// Inserts assertions before each operation that can fail, and numbers all values by their places. A function whose
/// values pass 2^32 is want of memory.
pub fn insert_checks(alloc: Global, source: Verified) -> Result<Verified, AllocError>
    requires { place_of source.level ≤ place_of Level.Checked }
    ensures { IfOk result (λ done. done ≡ record { program = value_numbered (shape.checked source.program); level = Level.Checked }) }
{
    checked_is_sound();
    checked_has_level();
    let made = checked(alloc, source.module())?;
    let numbered = number_values(alloc, made)?;
    Ok(Verified::of_pass(numbered, Level::Checked))
}
