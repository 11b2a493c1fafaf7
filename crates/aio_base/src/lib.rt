//! Where input comes from and output goes to, reading and writing whole, and the gate that workers pass.
#![tactic(auto)]

mod adapters;
mod errors;
mod gates;
mod memory;
mod sure;
mod traits;
mod whole;

pub use adapters::{StdSink, StdSource};
pub use errors::{ReadAllError, ReadFailed, WriteFailed, WriteFault};
pub use gates::{Gate, OpenGate};
pub use memory::{MemSink, MemSource};
pub use sure::{SureSink, SureSource};
pub use traits::{Sink, Source};
pub use whole::{read_all, write_all};
