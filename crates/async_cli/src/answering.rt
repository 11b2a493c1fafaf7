//! How the text of an answer is written, for all commands.

ghost use Rattle.std.specs.Prelude.{◌≡◌};
ghost use Rattle.async_cli.specs.Answers.{Gave, IsWritten};
ghost use Rattle.async_cli.specs.Stops.{status_after, tool_text};

use crate::tool_stops::ToolStop;
use aio_base::{Sink, WriteFault, write_all};
use std::alloc::Global;

/// What became of the text of an answer.
#[derive(Clone, Copy, Debug, PartialEq, Eq)]
pub enum Written {
    Whole,
    /// A write failed after so many first bytes.
    Broken { written: u64 },
    /// There was no memory for the text.
    NoMemory,
}

/// Writes a text.
pub fn write_text<K: Sink>(sink: &mut K, text: &[u8]) -> Written
    ensures { let gave : Gave = record {
      taken = K.taken sink.old;
      taken_after = K.taken sink.new;
      faults = K.faults sink.old;
      faults_after = K.faults sink.new;
    } in
        IsWritten gave text.now result }
{
    match write_all(sink, text) {
        Ok(()) => Written::Whole,
        Err(WriteFault { written }) => Written::Broken { written },
    }
}

/// Writes the line of the cause why there is no end, where this entry is asked for.
pub fn write_cause<K: Sink>(alloc: Global, sink: &mut K, entry: &[u8], cause: ToolStop) -> Written
    ensures { let gave : Gave = record {
      taken = K.taken sink.old;
      taken_after = K.taken sink.new;
      faults = K.faults sink.old;
      faults_after = K.faults sink.new;
    } in
        IsWritten gave (tool_text entry.now cause) result }
{
    let mut text = Vec::new(alloc);
    match cause.push_text(entry, &mut text) {
        Ok(()) => write_text(sink, text.as_slice()),
        Err(_) => Written::NoMemory,
    }
}

/// The status after what became of the text.
pub fn status_after(status: u8, written: Written) -> u8
    ensures { result ≡ status_after status written }
{
    match written {
        Written::Whole => status,
        Written::Broken { .. } => 8,
        Written::NoMemory => 9,
    }
}
