//! What is told where an operation fails.

ghost use Rattle.std.specs.Prelude.{◌≡◌};
ghost use Rattle.std.specs.Option.{option_copied};
ghost use Rattle.ir_forms.specs.Ops.{kind_of, attr_of};
ghost use Rattle.run_report.specs.Messages.{text_of, message, own_message, number_of, message_at, message_in, message_in_funcs, note_at};

use ir_forms::{Attr, Func, Module, Op, OpKind, Region};

/// An assertion's own text.
fn text_of<'a>(attr: &'a Attr) -> Option<&'a [u8]>
    ensures { option_copied result ≡ text_of attr.entry.now }
{
    match attr {
        Attr::Text(text) => Some(text.as_slice()),
        _ => None,
    }
}

pub(crate) fn message<'a>(kind: OpKind, attr: &'a Attr) -> Option<&'a [u8]>
    ensures { option_copied result ≡ message kind attr.entry.now }
{
    match kind {
        OpKind::CfAssert => text_of(attr),
        OpKind::AsyncAwait | OpKind::AsyncAwaitAll => {
            Some(b"Awaited async operand is in error state")
        }
        OpKind::ArithDivsi | OpKind::ArithDivui | OpKind::ArithRemsi | OpKind::ArithRemui => Some(
            b"division has no result",
        ),
        OpKind::ArithShli | OpKind::ArithShrsi | OpKind::ArithShrui => Some(b"shift out of range"),
        OpKind::MemrefLoad | OpKind::MemrefStore | OpKind::MemrefDim => {
            Some(b"index out of range")
        }
        OpKind::MemrefAlloc => Some(b"allocation out of range"),
        OpKind::AsyncCreateGroup => Some(b"group size out of range"),
        OpKind::ScfFor => Some(b"loop bounds out of range"),
        OpKind::ScfParallel => Some(b"parallel loop failed"),
        _ => None,
    }
}

/// The operation's own message, if this is its number.
fn own_message<'a>(op: &'a Op, number: u32) -> Option<&'a [u8]>
    ensures { option_copied result ≡ own_message number (number_of op.entry.now) (kind_of op.entry.now) (attr_of op.entry.now) }
{
    if op.at == number {
        message(op.kind, &op.attr)
    } else {
        None
    }
}

/// The message of the operation, if it has this number and one, or of the first in its regions.
#[cycle(messages)]
#[tactic(auto, using(crate::proofs::MessageLemmas::message_at_out))]
fn message_at<'a>(op: &'a Op, number: u32) -> Option<&'a [u8]>
    ensures { option_copied result ≡ message_at number op.entry.now }
{
    if let Some(text) = own_message(op, number) {
        return Some(text);
    }
    for region in op.regions.as_slice() {
        if let Some(text) = message_in(region, number) {
            return Some(text);
        }
    }
    None
}

#[cycle(messages)]
#[tactic(auto, using(crate::proofs::MessageLemmas::message_in_out))]
fn message_in<'a>(region: &'a Region, number: u32) -> Option<&'a [u8]>
    ensures { option_copied result ≡ message_in number region.entry.now }
{
    for op in region.ops.as_slice() {
        if let Some(text) = message_at(op, number) {
            return Some(text);
        }
    }
    None
}

fn message_in_funcs<'a>(funcs: &'a [Func], number: u32) -> Option<&'a [u8]>
    ensures { option_copied result ≡ message_in_funcs number funcs.entry.now }
{
    for func in funcs {
        if let Some(text) = message_in(&func.body, number) {
            return Some(text);
        }
    }
    None
}

/// The message of the operation of this number; empty where it has none.
pub fn note_at<'a>(program: &'a Module, number: u32) -> &'a [u8]
    ensures { result.now ≡ note_at program.entry.now number }
{
    match message_in_funcs(program.funcs.as_slice(), number) {
        Some(text) => text,
        None => b"",
    }
}
