//! The pass of checks: before each operation that can fail stand assertions that it doesn't.
#![tactic(auto)]

mod access;
mod arith;
mod check;
mod free;
mod guard;
mod guarded;
mod insert;
mod laws;
mod loops;
mod parts;
mod sizes;
mod walk;

pub use guard::Guard;
pub use insert::insert_checks;
pub use laws::{checked_has_level, checked_is_sound};
pub use parts::Range;
