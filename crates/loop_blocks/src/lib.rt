//! What is made of a parallel loop: the functions of blocks of iterations, and what stands in the loop's place.
#![tactic(auto)]

mod blocks;
mod halves;
mod loops;
mod making;
mod options;
mod told;

pub use blocks::block_func;
pub use halves::{Range, dispatch_func};
pub use loops::{serial_loop, split_loop};
pub use making::{Carried, Course};
pub use options::Options;
pub use told::{Plan, Told};
