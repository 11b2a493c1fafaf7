//! Instructions that code with the high rows and lowered code both have do the same in both: registers that are alike stay so, and the same
//! is shown. Read `specs/Alike.antt`, and then `Laws`.
#![tactic(auto)]

mod laws;

pub use laws::{bound_alike, cells_alike, computed_alike, inner_alike, operands_alike};
