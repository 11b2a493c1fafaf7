//! What the commands read: all of the source, a module's text, and its entry.

ghost use Rattle.std.specs.Prelude.{◌≡◌, ℕ, ◌≤◌, ◌<◌, ◌^◌, true, false, length, drop, Ok, IfOk, MatchResult, MatchOption};
ghost use Rattle.std.specs.Option.{option_copied};
ghost use Rattle.aio_base.specs.Whole.{Told};
ghost use Rattle.async_cli.specs.Answers.{IsInput, InputStops, IsAccepted, ModuleStops, FindStops};
ghost use Rattle.async_cli.specs.Answers as answers;
ghost use Rattle.async_cli.specs.Words as spec;
ghost use Rattle.async_cli.specs.Inputs.{begins_line, ends_line, is_heading, IsSplit};

use crate::stops::{ModuleFault, Stop};
use aio_base::{ReadAllError, Source, read_all};
use arguments::{ArgsBad, read_bytes};
use ir_forms::{Arg, FuncNo, Level, operation_count, renumber};
use ir_verify::{EntryFault, Verified, VerifyFault, entry_of, verify};
use lists::Items;
use mlir_text::{PROGRAM_LIMITS, TextFault, parse};
use std::alloc::{AllocError, Global};

/// The most bytes of a module's text.
pub const TEXT_LIMIT: u32 = 1_048_576;

/// The most bytes of a module's text and a journal.
pub const INPUT_LIMIT: u32 = 536_870_912;

/// Reads all that the source has left, which is to be at most `limit` bytes.
pub fn read_input<S: Source>(alloc: Global, source: &mut S, limit: u32) -> Result<Vec<u8>, Stop>
    ensures { let told : Told = record {
      left = S.left source.old;
      left_after = S.left source.new;
      faults = S.faults source.old;
      faults_after = S.faults source.new;
    } in
        MatchResult result (λ bytes. IsInput limit told bytes.items) (λ stop. InputStops limit told stop) }
{
    match read_all(alloc, source, limit as usize) {
        Ok(bytes) => Ok(bytes),
        Err(ReadAllError::ReadFault) => Err(Stop::Read),
        Err(ReadAllError::TooLong { limit: _ }) => Err(Stop::TooLong { limit }),
        Err(ReadAllError::OutOfMemory) => Err(Stop::OutOfMemory),
    }
}

/// The text's module with its operations numbered by their places, which breaks no rule.
pub fn read_module(alloc: Global, text: &[u8]) -> Result<Verified, Stop>
    requires { length text.now < 2 ^ 32 }
    ensures { MatchResult result (λ verified. IsAccepted text.now verified.program) (λ stop. ModuleStops text.now stop) }
{
    let program = match parse(alloc, text, Level::Source, &PROGRAM_LIMITS) {
        Ok(program) => program,
        Err(TextFault::OutOfMemory) => return Err(Stop::OutOfMemory),
        Err(fault) => return Err(Stop::Module(ModuleFault::Text(fault))),
    };
    if operation_count(&program).is_none() {
        return Err(Stop::OutOfMemory);
    }
    match verify(alloc, renumber(program)) {
        Ok(verified) => Ok(verified),
        Err(VerifyFault::Fault { op, kind }) => {
            Err(Stop::Module(ModuleFault::Verify { op, kind }))
        }
        Err(VerifyFault::OutOfMemory) => Err(Stop::OutOfMemory),
    }
}

/// The arguments that a text says; one that says none stands for none.
pub fn args_said(alloc: Global, text: &[u8]) -> Result<Items<Arg>, AllocError>
    ensures { IfOk result (λ args. args ≡ spec.args_said text.now) }
{
    match read_bytes(alloc, text) {
        Ok(args) => Ok(args),
        Err(ArgsBad::Byte { .. }) => Ok(Items::new(alloc)),
        Err(ArgsBad::OutOfMemory) => Err(AllocError),
    }
}

/// The number of the entry of this name.
pub fn entry_number(verified: &Verified, name: &[u8]) -> Result<FuncNo, Stop>
    ensures { MatchResult result (λ number. answers.entry_of verified.now.program name.now ≡ Ok number) (λ stop. FindStops verified.now.program name.now stop) }
{
    if u32::try_from(verified.module().funcs.len()).is_err() {
        return Err(Stop::OutOfMemory);
    }
    match entry_of(verified, name) {
        Ok(number) => Ok(number),
        Err(EntryFault::NoEntry) => Err(Stop::NoEntry),
        Err(EntryFault::EntryType { op }) => Err(Stop::EntryType { op }),
    }
}

// ---- the parts of the input of `replay`

fn begins_line(bytes: &[u8], at: usize) -> bool
    requires { at ≤ length bytes.now }
    ensures { result ≡ begins_line bytes.now at }
{
    at == 0 || bytes[at - 1] == b'\n'
}

fn ends_line(bytes: &[u8], at: usize) -> bool
    requires { at ≤ length bytes.now }
    ensures { result ≡ ends_line bytes.now at }
{
    at == bytes.len() || bytes[at] == b'\n'
}

/// Whether the line that begins here is `-- journal`.
fn is_heading(bytes: &[u8], at: usize) -> bool
    requires { at ≤ length bytes.now }
    ensures { result ≡ is_heading bytes.now at }
{
    begins_line(bytes, at)
        && at + 10 <= bytes.len()
        && &bytes[at..at + 10] == b"-- journal".as_slice()
        && ends_line(bytes, at + 10)
}

/// The place of the first line `-- journal`.
fn find_heading(bytes: &[u8]) -> Option<usize>
    ensures { MatchOption result
        ((at : ℕ) → at ≤ length bytes.now → is_heading bytes.now at ≡ false)
        (λ at. (is_heading bytes.now at ≡ true) × (at ≤ length bytes.now) × ((before : ℕ) → before < at → is_heading bytes.now before ≡ false)) }
{
    for at in 0..=bytes.len() {
        if is_heading(bytes, at) {
            return Some(at);
        }
    }
    None
}

/// The bytes from this place on.
fn bytes_from(bytes: &[u8], at: usize) -> &[u8]
    ensures { result.now ≡ drop at bytes.now }
{
    if at < bytes.len() { &bytes[at..] } else { &[] }
}

/// A module's text, and the journal behind the line `-- journal`, if there is such a line.
pub fn split_input(bytes: &[u8]) -> (&[u8], Option<&[u8]>)
    ensures { IsSplit bytes.now result.0.now (option_copied result.1) }
{
    match find_heading(bytes) {
        Some(at) => (&bytes[..at], Some(bytes_from(bytes, at + 11))),
        None => (bytes, None),
    }
}
