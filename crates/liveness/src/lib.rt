//! Which registers of lowered code are live at which places: `live` follows their uses backwards through the blocks, by
//! sets of bits, until nothing changes.
#![tactic(auto)]

pub mod before;
mod live_map;
mod solve;
mod steps;
mod table;
mod walk;

pub use live_map::{LiveMap, live};
pub use steps::Steps;
