//! Why a run ended without an end, with the status and the text of each answer.

ghost use Rattle.std.specs.Prelude.{◌≡◌, ◌++◌, OnOk, codes, decimal};
ghost use Rattle.async_cli.specs.Stops.{limit_stop, stop_status, stop_text, refusal, at_byte, memory_line, lex_line, limit_name, fault_line, module_line, IsUnfit};
ghost use Rattle.async_cli.specs.Texts.{numbered};

use ir_verify::VerifyKind;
use mlir_lex::LexFault;
use mlir_text::{Limited, TextFault};
use run_report::{push_between, push_numbered};
use std::alloc::AllocError;
use step_core::Limit;

/// Why a text gives no module to run.
#[derive(Clone, Copy, Debug, PartialEq, Eq)]
pub enum ModuleFault {
    /// It is no text of the grammar within the limits.
    Text(TextFault),
    /// The least operation that breaks a rule, and the first rule that it breaks.
    Verify { op: u32, kind: VerifyKind },
}

/// Adds the line of a refusal: a name, and where the fault stands.
fn push_refusal(
    text: &mut Vec<u8>,
    name: &str,
    where_it_is: &str,
    number: u32,
) -> Result<(), AllocError>
    ensures { OnOk result (text.new.items ≡ text.old.items ++ refusal name.now where_it_is.now number) }
{
    text.extend_from_slice(b"refused: ")?;
    text.extend_from_slice(name.as_bytes())?;
    push_numbered(text, where_it_is, u64::from(number), "\n")
}

fn push_at_byte(text: &mut Vec<u8>, name: &str, at: u32) -> Result<(), AllocError>
    ensures { OnOk result (text.new.items ≡ text.old.items ++ at_byte name.now at) }
{
    push_refusal(text, name, " at byte ", at)
}

fn push_memory(text: &mut Vec<u8>) -> Result<(), AllocError>
    ensures { OnOk result (text.new.items ≡ text.old.items ++ memory_line) }
{
    text.extend_from_slice(b"stopped: memory\n")
}

fn push_lex_fault(text: &mut Vec<u8>, fault: LexFault) -> Result<(), AllocError>
    ensures { OnOk result (text.new.items ≡ text.old.items ++ lex_line fault) }
{
    match fault {
        LexFault::BadUtf8 { at } => push_at_byte(text, "BadUtf8", at),
        LexFault::OpenString { at } => push_at_byte(text, "OpenString", at),
        LexFault::BadByte { at } => push_at_byte(text, "BadByte", at),
        LexFault::OutOfMemory => push_memory(text),
    }
}

fn limit_name(limited: Limited) -> &'static str
    ensures { result.now ≡ limit_name limited }
{
    match limited {
        Limited::Operations => "Limit Operations",
        Limited::Functions => "Limit Functions",
        Limited::Depth => "Limit Depth",
        Limited::Values => "Limit Values",
    }
}

fn push_text_fault(text: &mut Vec<u8>, fault: TextFault) -> Result<(), AllocError>
    ensures { OnOk result (text.new.items ≡ text.old.items ++ fault_line fault) }
{
    match fault {
        TextFault::Lex(fault) => push_lex_fault(text, fault),
        TextFault::Syntax { at } => push_at_byte(text, "Syntax", at),
        TextFault::UnknownOp { at } => push_at_byte(text, "UnknownOp", at),
        TextFault::UnknownType { at } => push_at_byte(text, "UnknownType", at),
        TextFault::WideNumber { at } => push_at_byte(text, "WideNumber", at),
        TextFault::Limit { which, at } => push_at_byte(text, limit_name(which), at),
        TextFault::OutOfMemory => push_memory(text),
    }
}

impl ModuleFault {
    fn push_text(self, text: &mut Vec<u8>) -> Result<(), AllocError>
        ensures { OnOk result (text.new.items ≡ text.old.items ++ module_line self) }
    {
        match self {
            ModuleFault::Text(fault) => push_text_fault(text, fault),
            ModuleFault::Verify { op, kind } => {
                push_refusal(text, kind.name(), " at operation ", op)
            }
        }
    }
}

/// Why `run` gave no end of a run, or why that end wasn't written whole.
#[derive(Clone, Copy, Debug, PartialEq, Eq)]
pub enum Stop {
    /// The words are none of this call.
    Words,
    /// A read failed.
    Read,
    /// The text has more bytes than the limit.
    TooLong { limit: u32 },
    /// The text is that of no module, or the module breaks a rule.
    Module(ModuleFault),
    /// No function has the name of the entry.
    NoEntry,
    /// The entry, which has this number, has an async parameter, an async result or a memref result.
    EntryType { op: u32 },
    /// The argument of this index, from 0, is missing, superfluous or doesn't fit its parameter.
    Args { at: u32 },
    /// No task is ready, and so many are left.
    Short { parked: u32 },
    /// So many objects are live, as many as may be, and a task would create one more.
    Objects { live: u32 },
    /// So many tasks are live, as many as may be, and a task would launch one more.
    Tasks { live: u32 },
    /// So many cells are in use, and a task would allocate more than there may be.
    Cells { used: u32 },
    /// A task has so many frames, as many as it may, and would call a function.
    Stack { depth: u32 },
    /// A group has as many elements as its size, and a task would add one more.
    Group { size: u64 },
    /// The journal has as many entries as allowed, and the run isn't finished.
    Spent { entries: u32 },
    /// A write failed after so many bytes of the answer's text.
    Write { written: u64 },
    /// There was no memory.
    OutOfMemory,
}

impl Stop {
    /// That the argument of this index doesn't fit. A text that was read has fewer arguments than 2^32.
    pub fn unfit(at: usize) -> Stop
        ensures { IsUnfit at result }
    {
        match u32::try_from(at) {
            Ok(at) => Stop::Args { at },
            Err(_) => Stop::OutOfMemory,
        }
    }

    /// That a run would have passed this limit.
    pub fn of_limit(limit: Limit) -> Stop
        ensures { result ≡ limit_stop limit }
    {
        match limit {
            Limit::Objects { live } => Stop::Objects { live },
            Limit::Tasks { live } => Stop::Tasks { live },
            Limit::Cells { used } => Stop::Cells { used },
            Limit::Stack { depth } => Stop::Stack { depth },
            Limit::Group { size } => Stop::Group { size },
        }
    }

    /// The exit status of the answer.
    pub fn status(self) -> u8
        ensures { result ≡ stop_status self }
    {
        match self {
            Stop::Words => 2,
            Stop::TooLong { .. }
            | Stop::Module(_)
            | Stop::NoEntry
            | Stop::EntryType { .. }
            | Stop::Args { .. } => 3,
            Stop::Short { .. } => 4,
            Stop::Objects { .. }
            | Stop::Tasks { .. }
            | Stop::Cells { .. }
            | Stop::Stack { .. }
            | Stop::Group { .. } => 5,
            Stop::Spent { .. } => 6,
            Stop::Read => 7,
            Stop::Write { .. } => 8,
            Stop::OutOfMemory => 9,
        }
    }

    /// Adds the line that tells the cause, where this entry is asked for. A failed write has none.
    pub fn push_text(self, entry: &[u8], text: &mut Vec<u8>) -> Result<(), AllocError>
        ensures { OnOk result (text.new.items ≡ text.old.items ++ stop_text entry.now self) }
    {
        match self {
            Stop::Words => text.extend_from_slice(b"refused: words\n"),
            Stop::Read => text.extend_from_slice(b"refused: read fault\n"),
            Stop::TooLong { limit } => {
                push_numbered(text, "refused: longer than ", u64::from(limit), " bytes\n")
            }
            Stop::Module(fault) => fault.push_text(text),
            Stop::NoEntry => push_between(text, "refused: no entry ", entry, "\n"),
            Stop::EntryType { op } => push_numbered(
                text,
                "refused: entry type at operation ",
                u64::from(op),
                "\n",
            ),
            Stop::Args { at } => { push_numbered(text, "refused: argument ", u64::from(at), "\n") }
            Stop::Short { parked } => {
                push_numbered(text, "stopped: parked tasks ", u64::from(parked), "\n")
            }
            Stop::Objects { live } => {
                push_numbered(text, "stopped: objects ", u64::from(live), "\n")
            }
            Stop::Tasks { live } => push_numbered(text, "stopped: tasks ", u64::from(live), "\n"),
            Stop::Cells { used } => push_numbered(text, "stopped: cells ", u64::from(used), "\n"),
            Stop::Stack { depth } => {
                push_numbered(text, "stopped: frames ", u64::from(depth), "\n")
            }
            Stop::Group { size } => push_numbered(text, "stopped: group is full at ", size, "\n"),
            Stop::Spent { entries } => {
                push_numbered(text, "stopped: entries ", u64::from(entries), "\n")
            }
            Stop::Write { .. } => Ok(()),
            Stop::OutOfMemory => push_memory(text),
        }
    }
}
