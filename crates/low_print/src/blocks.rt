//! Blocks and parameters.
ghost use Rattle.std.specs.Prelude.{◌≡◌, ◌++◌, OnOk, codes};
ghost use Rattle.mlir_print.specs.Docs.{bytes_of, more};
ghost use Rattle.low_print.specs.Printed.{gap, param_doc, params_doc, block_params, block_doc, block_docs};

use crate::instrs::{push_block_name, push_instrs, push_term};
use crate::regs::{push_reg, push_reg_type};
use low_forms::{Block, LowFunc, LowModule, Reg};
use mlir_print::parts::push_text;
use std::alloc::AllocError;

/// What stands between a parameter and its type.
fn param_colon(spaced: bool) -> &'static str
    ensures { result.now ≡ bytes_of (gap spaced) ++ codes ": " }
{
    if spaced { " : " } else { ": " }
}

fn push_param(
    text: &mut Vec<u8>,
    spaced: bool,
    func: &LowFunc,
    param: Reg,
) -> Result<(), AllocError>
    ensures { OnOk result (text.new.items ≡ text.old.items ++ bytes_of (param_doc spaced func.now param)) }
{
    push_reg(text, param)?;
    push_text(text, param_colon(spaced))?;
    push_reg_type(text, func, param)
}

fn push_more_params(
    text: &mut Vec<u8>,
    spaced: bool,
    func: &LowFunc,
    params: &[Reg],
) -> Result<(), AllocError>
    ensures { OnOk result (text.new.items ≡ text.old.items ++ bytes_of (more (param_doc spaced func.now) params.now)) }
{
    for param in params {
        push_text(text, ", ")?;
        push_param(text, spaced, func, *param)?;
    }
    Ok(())
}

/// Adds parameters in parentheses, with a blank before each colon or without one.
pub(crate) fn push_params(
    text: &mut Vec<u8>,
    spaced: bool,
    func: &LowFunc,
    params: &[Reg],
) -> Result<(), AllocError>
    ensures { OnOk result (text.new.items ≡ text.old.items ++ bytes_of (params_doc spaced func.now params.now)) }
{
    push_text(text, "(")?;
    match params.split_first() {
        None => push_text(text, ")"),
        Some((first, rest)) => {
            push_param(text, spaced, func, *first)?;
            push_more_params(text, spaced, func, rest)?;
            push_text(text, ")")
        }
    }
}

fn push_block_params(text: &mut Vec<u8>, func: &LowFunc, params: &[Reg]) -> Result<(), AllocError>
    ensures { OnOk result (text.new.items ≡ text.old.items ++ bytes_of (block_params func.now params.now)) }
{
    if params.is_empty() {
        return Ok(());
    }
    push_params(text, false, func, params)
}

fn push_block(
    text: &mut Vec<u8>,
    code: &LowModule,
    func: &LowFunc,
    number: usize,
    block: &Block,
) -> Result<(), AllocError>
    ensures { OnOk result (text.new.items ≡ text.old.items ++ bytes_of (block_doc code.now func.now number block.now)) }
{
    push_text(text, "\n")?;
    push_block_name(text, number as u64)?;
    push_block_params(text, func, block.params.as_slice())?;
    push_text(text, ":")?;
    push_instrs(text, code, func, block.instrs.as_slice())?;
    push_text(text, "\n  ")?;
    push_term(text, code, func, &block.term)
}

/// Adds blocks, numbered from 0.
pub(crate) fn push_blocks(
    text: &mut Vec<u8>,
    code: &LowModule,
    func: &LowFunc,
    blocks: &[Block],
) -> Result<(), AllocError>
    ensures { OnOk result (text.new.items ≡ text.old.items ++ bytes_of (block_docs code.now func.now 0 blocks.now)) }
{
    for (number, block) in blocks.iter().enumerate() {
        push_block(text, code, func, number, block)?;
    }
    Ok(())
}
