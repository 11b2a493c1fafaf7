//! The printer of modules: the text that stands for a module.
#![tactic(auto)]

ghost use Rattle.std.specs.Prelude.{◌≡◌, IfOk, string_bytes};
ghost use Rattle.mlir_print.specs.Printed.{printed};

mod commas;
mod forms;
mod laws;
pub mod parts;
mod printer;
mod text;
mod tokens;
mod types;

use ir_forms::Module;
pub use laws::{reads_as_spelled, takes_words};
use op_table::lists_each_kind;
use printer::Printer;
use std::alloc::{AllocError, Global};

/// The text of a module: its functions in order, each operation on a line of its own, two blanks further in per region.
///
/// Values are named `%0`, `%1` and so on by their numbers, operations have their full names, and terminators are
/// written. `{aio.at = N : i64}` stands behind an operation whose number isn't its place in the text. A name that isn't
/// visible prints as `%unknown`, which no reader takes back.
///
/// # Errors
///
/// Where there is no memory.
pub fn print(alloc: Global, program: &Module) -> Result<String, AllocError>
    ensures { IfOk result (λ text. string_bytes text ≡ printed program.now) }
{
    lists_each_kind();
    let mut printer = Printer::new(alloc);
    printer.push_funcs(alloc, program.funcs.as_slice())?;
    match String::from_utf8(printer.into_text()) {
        Ok(text) => Ok(text),
        Err(_) => unreachable!(),
    }
}
