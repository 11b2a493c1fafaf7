//! Functions.
ghost use Rattle.std.specs.Prelude.{◌≡◌, ◌++◌, OnOk};
ghost use Rattle.mlir_print.specs.Docs.{bytes_of};
ghost use Rattle.low_print.specs.Printed.{privacy, coroutine_dict, func_head, func_doc, func_docs};

use crate::blocks::{push_blocks, push_params};
use low_forms::{LowFunc, LowModule};
use mlir_print::parts::{push_results_if_any, push_symbol, push_text};
use std::alloc::AllocError;

/// What stands between `func.func` and a name.
fn privacy(name: &[u8]) -> &'static str
    ensures { result.now ≡ bytes_of (privacy name.now) }
{
    if name.starts_with(b"aio.") {
        " private "
    } else {
        " "
    }
}

fn coroutine_dict(coroutine: bool) -> &'static str
    ensures { result.now ≡ bytes_of (coroutine_dict coroutine) }
{
    if coroutine {
        " attributes {aio.coroutine}"
    } else {
        ""
    }
}

/// Adds what stands before a function's body.
fn push_head(text: &mut Vec<u8>, func: &LowFunc) -> Result<(), AllocError>
    ensures { OnOk result (text.new.items ≡ text.old.items ++ bytes_of (func_head func.now)) }
{
    let name = func.name.as_slice();
    push_text(text, "func.func")?;
    push_text(text, privacy(name))?;
    push_symbol(text, name)?;
    push_params(text, true, func, func.params.as_slice())?;
    push_results_if_any(text, func.results.as_slice())?;
    push_text(text, coroutine_dict(func.coroutine))?;
    push_text(text, " ")
}

fn push_func(text: &mut Vec<u8>, code: &LowModule, func: &LowFunc) -> Result<(), AllocError>
    ensures { OnOk result (text.new.items ≡ text.old.items ++ bytes_of (func_doc code.now func.now)) }
{
    push_head(text, func)?;
    push_text(text, "{")?;
    push_blocks(text, code, func, func.blocks.as_slice())?;
    push_text(text, "\n}")
}

/// Adds all functions, each with the end of its line.
pub(crate) fn push_funcs(text: &mut Vec<u8>, code: &LowModule) -> Result<(), AllocError>
    ensures { OnOk result (text.new.items ≡ text.old.items ++ bytes_of (func_docs code.now code.now.funcs)) }
{
    for func in code.funcs.as_slice() {
        push_func(text, code, func)?;
        push_text(text, "\n")?;
    }
    Ok(())
}
