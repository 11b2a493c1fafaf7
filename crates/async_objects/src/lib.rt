//! Tokens, values and groups of a run, by number, with their reference counts.
#![tactic(auto)]

mod awaiters;
mod effects;
mod kinds;
mod object;
mod objects;
mod reserved;
mod slots;

pub use kinds::{AddError, Awaited, CreateError, Dropped, Kind, State, Val};
pub use object::{Members, Object};
pub use objects::Objects;
pub use reserved::{FreedList, ReservedList, WokenList};
