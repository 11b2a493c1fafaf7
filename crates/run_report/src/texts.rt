//! Parts of the texts of answers.

ghost use Rattle.std.specs.Prelude.{◌≡◌, ◌++◌, ◌+◌, ◌^◌, ◌<◌, [], length, OnOk, codes, if◌then◌else◌};
ghost use Rattle.run_report.specs.Texts.{number_text, signed_text, result_line, result_lines, listed, more_listed, buffer_line, buffer_lines, between, numbered, failed_line};

use ir_forms::{Buffer, Out, OutTy, Width};
use itoa::Buffer as Digits;
use std::alloc::AllocError;

/// Adds a number read as signed at this many bits.
fn push_signed(text: &mut Vec<u8>, bits: u32, number: u64) -> Result<(), AllocError>
    requires { (0 < bits) × (bits < 65) }
    ensures { OnOk result (text.new.items ≡ text.old.items ++ signed_text bits number) }
{
    let mut digits = Digits::new();
    if u128::from(number) < 1 << (bits - 1) {
        text.extend_from_slice(digits.format(number).as_bytes())
    } else {
        let distance = (1u128 << bits).saturating_sub(u128::from(number));
        text.extend_from_slice(b"-")?;
        text.extend_from_slice(digits.format(distance).as_bytes())
    }
}

fn push_number(text: &mut Vec<u8>, ty: OutTy, number: u64) -> Result<(), AllocError>
    ensures { OnOk result (text.new.items ≡ text.old.items ++ number_text ty number) }
{
    match ty {
        OutTy::Int(Width::W1) if number == 0 => text.extend_from_slice(b"false"),
        OutTy::Int(Width::W1) => text.extend_from_slice(b"true"),
        OutTy::Int(Width::W8) => push_signed(text, 8, number),
        OutTy::Int(Width::W16) => push_signed(text, 16, number),
        OutTy::Int(Width::W32) => push_signed(text, 32, number),
        OutTy::Int(Width::W64) | OutTy::Index => push_signed(text, 64, number),
    }
}

/// Adds a text between two others.
pub fn push_between(
    text: &mut Vec<u8>,
    before: &str,
    middle: &[u8],
    after: &str,
) -> Result<(), AllocError>
    ensures { OnOk result (text.new.items ≡ text.old.items ++ between before.now middle.now after.now) }
{
    text.extend_from_slice(before.as_bytes())?;
    text.extend_from_slice(middle)?;
    text.extend_from_slice(after.as_bytes())
}

/// Adds a number in decimal, between two texts.
pub fn push_numbered(
    text: &mut Vec<u8>,
    before: &str,
    number: u64,
    after: &str,
) -> Result<(), AllocError>
    ensures { OnOk result (text.new.items ≡ text.old.items ++ numbered before.now number after.now) }
{
    let mut digits = Digits::new();
    text.extend_from_slice(before.as_bytes())?;
    text.extend_from_slice(digits.format(number).as_bytes())?;
    text.extend_from_slice(after.as_bytes())
}

/// Adds two numbers in decimal, with a text before each and one behind them.
pub fn push_two_numbered(
    text: &mut Vec<u8>,
    before: &str,
    first: u64,
    between: &str,
    second: u64,
    after: &str,
) -> Result<(), AllocError>
    ensures { OnOk result (text.new.items ≡ text.old.items ++ numbered before.now first (numbered between.now second after.now)) }
{
    push_numbered(text, before, first, "")?;
    push_numbered(text, between, second, after)
}

fn push_result(text: &mut Vec<u8>, index: u64, out: Out) -> Result<(), AllocError>
    ensures { OnOk result (text.new.items ≡ text.old.items ++ result_line index out) }
{
    push_numbered(text, "result ", index, ": ")?;
    push_number(text, out.ty, out.bits)?;
    text.extend_from_slice(b"\n")
}

/// Adds a line for each result.
pub fn push_results(text: &mut Vec<u8>, outs: &[Out]) -> Result<(), AllocError>
    ensures { OnOk result (text.new.items ≡ text.old.items ++ result_lines 0 outs.now) }
{
    for (index, out) in outs.iter().enumerate() {
        push_result(text, index as u64, *out)?;
    }
    Ok(())
}

fn push_listed(text: &mut Vec<u8>, outs: &[Out]) -> Result<(), AllocError>
    ensures { OnOk result (text.new.items ≡ text.old.items ++ listed outs.now) }
{
    let Some((first, more)) = outs.split_first() else {
        return Ok(());
    };
    push_number(text, first.ty, first.bits)?;
    push_more(text, more)
}

/// Adds the others, each behind a comma.
fn push_more(text: &mut Vec<u8>, outs: &[Out]) -> Result<(), AllocError>
    ensures { OnOk result (text.new.items ≡ text.old.items ++ more_listed outs.now) }
{
    for out in outs {
        text.extend_from_slice(b", ")?;
        push_number(text, out.ty, out.bits)?;
    }
    Ok(())
}

fn push_buffer(text: &mut Vec<u8>, buffer: &Buffer) -> Result<(), AllocError>
    ensures { OnOk result (text.new.items ≡ text.old.items ++ buffer_line buffer.now) }
{
    push_numbered(text, "argument ", u64::from(buffer.argument), ": [")?;
    push_listed(text, buffer.cells.as_slice())?;
    text.extend_from_slice(b"]\n")
}

/// Adds a line for each parameter that is a buffer.
pub(crate) fn push_buffers(text: &mut Vec<u8>, buffers: &[Buffer]) -> Result<(), AllocError>
    ensures { OnOk result (text.new.items ≡ text.old.items ++ buffer_lines buffers.now) }
{
    for buffer in buffers {
        push_buffer(text, buffer)?;
    }
    Ok(())
}

/// Adds the line that tells where a run failed, and why.
pub fn push_failed(text: &mut Vec<u8>, op: u32, note: &[u8]) -> Result<(), AllocError>
    ensures { OnOk result (text.new.items ≡ text.old.items ++ failed_line op note.now) }
{
    push_numbered(text, "failed at operation ", u64::from(op), ": ")?;
    text.extend_from_slice(note)?;
    text.extend_from_slice(b"\n")?;
    Ok(())
}
