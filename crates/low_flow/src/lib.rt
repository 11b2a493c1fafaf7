//! Registers along the paths of a function's blocks: `all_assigned` answers whether each register that a block needs is
//! assigned on every path that leads there. Blocks and registers are numbers here, so that whatever code consists of
//! blocks can be asked about.
#![tactic(auto)]

mod above;
mod assigned;
mod marking;
mod node;
mod order;
mod places;
#[cfg(test)]
mod tests;
mod tree;

pub use assigned::all_assigned;
pub use places::inverse;
