//! The printer of lowered code: the text that stands for it.
#![tactic(auto)]

ghost use Rattle.std.specs.Prelude.{◌≡◌, IfOk, string_bytes};
ghost use Rattle.low_print.specs.Printed.{printed_code};

mod blocks;
mod form;
mod forms;
mod funcs;
mod instrs;
mod regs;

pub use form::{LowForm, Typed, form_of};
use funcs::push_funcs;
use low_forms::LowModule;
use op_table::lists_each_kind;
use std::alloc::{AllocError, Global};

/// The text of lowered code: its functions in order, each block under its name, each instruction on a line of its own.
///
/// Registers are named `%0`, `%1` and so on by their numbers, blocks `^bb0`, `^bb1` and so on by their places. A
/// function is private exactly where its name begins with `aio.`. The rows of a launch and of an await, which coroutines
/// replace, have no text: they print without a name, and no reader takes them back.
///
/// # Errors
///
/// Where there is no memory.
pub fn print_low(alloc: Global, code: &LowModule) -> Result<String, AllocError>
    ensures { IfOk result (λ text. string_bytes text ≡ printed_code code.now) }
{
    lists_each_kind();
    let mut text = Vec::new(alloc);
    push_funcs(&mut text, code)?;
    match String::from_utf8(text) {
        Ok(text) => Ok(text),
        Err(_) => unreachable!(),
    }
}
