//! The tokens of values, symbols, strings, literals and predicates.
ghost use Rattle.std.specs.Prelude.{◌≡◌, ◌<◌, ◌++◌, ◌∷◌, [], OnOk};
ghost use Rattle.mlir_print.specs.Docs.{bytes_of, number};
ghost use Rattle.mlir_print.specs.Tokens.{value, value_name, hex_digit, escaped, all_escaped, quoted, is_symbol_byte, all_symbol_bytes, is_plain, symbol, pred_name, attr_doc};

use crate::text::push_text;
use ir_forms::{Attr, Pred, ValueNo};
use itoa::Buffer;
use std::alloc::AllocError;

/// Adds a number in decimal.
///
/// # Errors
///
/// Where there is no memory.
pub fn push_number(text: &mut Vec<u8>, n: u64) -> Result<(), AllocError>
    ensures { OnOk result (text.new.items ≡ text.old.items ++ bytes_of (number n)) }
{
    let mut buffer = Buffer::new();
    text.extend_from_slice(buffer.format(n).as_bytes())
}

#[tactic(auto, unfolding(crate::specs::Tokens::value_name))]
fn push_value_name(text: &mut Vec<u8>, v: ValueNo) -> Result<(), AllocError>
    ensures { OnOk result (text.new.items ≡ text.old.items ++ value_name v) }
{
    if v.0 == u32::MAX {
        push_text(text, "unknown")
    } else {
        push_number(text, u64::from(v.0))
    }
}

/// Adds `%` and a value's number.
pub(crate) fn push_value(text: &mut Vec<u8>, v: ValueNo) -> Result<(), AllocError>
    ensures { OnOk result (text.new.items ≡ text.old.items ++ bytes_of (value v)) }
{
    text.push(b'%')?;
    push_value_name(text, v)
}

/// The last hexadecimal digit of a number.
fn hex_digit(n: u8) -> u8
    ensures { result ≡ hex_digit n }
{
    let digit = n % 16;
    if digit < 10 {
        b'0' + digit
    } else {
        b'A' - 10 + digit
    }
}

fn push_escaped(text: &mut Vec<u8>, byte: u8) -> Result<(), AllocError>
    ensures { OnOk result (text.new.items ≡ text.old.items ++ escaped byte) }
{
    if byte == b'"' || byte == b'\\' {
        text.push(b'\\')?;
        text.push(byte)?;
        Ok(())
    } else if byte < 32 || 126 < byte {
        text.push(b'\\')?;
        text.push(hex_digit(byte / 16))?;
        text.push(hex_digit(byte))?;
        Ok(())
    } else {
        text.push(byte)?;
        Ok(())
    }
}

fn push_all_escaped(text: &mut Vec<u8>, bytes: &[u8]) -> Result<(), AllocError>
    ensures { OnOk result (text.new.items ≡ text.old.items ++ all_escaped bytes.now) }
{
    for byte in bytes {
        push_escaped(text, *byte)?;
    }
    Ok(())
}

/// Adds a string in quotes, with its escapes.
fn push_quoted(text: &mut Vec<u8>, bytes: &[u8]) -> Result<(), AllocError>
    ensures { OnOk result (text.new.items ≡ text.old.items ++ quoted bytes.now) }
{
    text.push(b'"')?;
    push_all_escaped(text, bytes)?;
    text.push(b'"')?;
    Ok(())
}

fn is_symbol_byte(byte: u8) -> bool
    ensures { result ≡ is_symbol_byte byte }
{
    byte.is_ascii_alphanumeric() || byte == b'_' || byte == b'$' || byte == b'.' || byte == b'-'
}

fn all_symbol_bytes(bytes: &[u8]) -> bool
    ensures { result ≡ all_symbol_bytes bytes.now }
{
    for byte in bytes {
        if !is_symbol_byte(*byte) {
            return false;
        }
    }
    true
}

fn is_plain(name: &[u8]) -> bool
    ensures { result ≡ is_plain name.now }
{
    !name.is_empty() && all_symbol_bytes(name)
}

/// Adds `@` and a name, in quotes where it needs them.
///
/// # Errors
///
/// Where there is no memory.
pub fn push_symbol(text: &mut Vec<u8>, name: &[u8]) -> Result<(), AllocError>
    ensures { OnOk result (text.new.items ≡ text.old.items ++ bytes_of (symbol name.now)) }
{
    text.push(b'@')?;
    if is_plain(name) {
        text.extend_from_slice(name)
    } else {
        push_quoted(text, name)
    }
}

fn pred_name(pred: Pred) -> &'static str
    ensures { result.now ≡ pred_name pred }
{
    match pred {
        Pred::Eq => "eq",
        Pred::Ne => "ne",
        Pred::Slt => "slt",
        Pred::Sle => "sle",
        Pred::Sgt => "sgt",
        Pred::Sge => "sge",
        Pred::Ult => "ult",
        Pred::Ule => "ule",
        Pred::Ugt => "ugt",
        Pred::Uge => "uge",
    }
}

/// Adds what an operation carries beside its operands.
///
/// # Errors
///
/// Where there is no memory.
pub fn push_attr(text: &mut Vec<u8>, attr: &Attr) -> Result<(), AllocError>
    ensures { OnOk result (text.new.items ≡ text.old.items ++ bytes_of (attr_doc attr.now)) }
{
    match attr {
        Attr::None => Ok(()),
        Attr::Literal {
            negative: true,
            magnitude,
        } => {
            text.push(b'-')?;
            push_number(text, *magnitude)
        }
        Attr::Literal {
            negative: false,
            magnitude,
        } => push_number(text, *magnitude),
        Attr::Truth(true) => push_text(text, "true"),
        Attr::Truth(false) => push_text(text, "false"),
        Attr::Pred(pred) => push_text(text, pred_name(*pred)),
        Attr::Text(bytes) => push_quoted(text, bytes.as_slice()),
        Attr::Callee(name) => push_symbol(text, name.as_slice()),
    }
}
