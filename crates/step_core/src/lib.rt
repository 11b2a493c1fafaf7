//! The core of lowered code: tasks that take one instruction at a time, in any order, over shared cells and objects.
#![tactic(auto)]

mod cells;
mod counting;
mod enabled;
mod enabled_rows;
mod ends;
pub mod laws;
mod limits;
mod parts;
mod results;
mod rows;
mod running;
mod shared;
mod shared_cells;
mod shared_ends;
mod shared_objects;
mod start;
mod step;
mod tasks;

pub use cells::ArgBuffer;
pub use ends::{Counts, End, Entry, RootEnd, Step};
pub use limits::{Limit, Limits};
pub use rows::{SharedRow, shared_row};
pub use running::Core;
pub use tasks::Task;
