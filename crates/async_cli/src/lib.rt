//! The commands of Dofraneg's program: each serves words on a module that a source has, and writes its answer to a sink.
#![tactic(auto)]

mod answering;
mod calls;
mod checks;
mod host;
mod input;
mod laws;
mod replays;
mod running;
mod runs;
mod serving;
mod sources;
mod stops;
mod texts;
mod tool_stops;
mod words;

pub use host::{HostInput, read_words};
pub use laws::owes_one_answer;
pub use running::{RunEnd, run};
pub use serving::tool;
pub use stops::{ModuleFault, Stop};
