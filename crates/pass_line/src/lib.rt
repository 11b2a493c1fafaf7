//! All passes in one line: from a verified module to the code that the core runs, and the texts on the way.
#![tactic(auto)]

mod line;
mod texts;

pub use line::{Compiled, compile, lower, to_blocks};
pub use loop_blocks::Options;
pub use texts::{Texts, push_texts};
