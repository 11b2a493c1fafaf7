//! The machines of code: with the high rows, and lowered; by numbers, and under the names of the source. Read `specs/Numbered.antt`,
//! `HighCode`, `CoreCode`, `Objects`, `Paths`, `Named`, and then `Naming` and `Worked`.
#![tactic(auto)]

mod laws;

pub use laws::{named_carries, names_differ, names_stay, worked_shows};
