//! What computing instructions come to.
ghost use Rattle.std.specs.Prelude.{◌≡◌, ◌<◌, ◌^◌, slice_get};
ghost use Rattle.int_ops.specs.Arithmetic.{bits_of, sign_extended};
ghost use Rattle.low_forms.specs.Registers.{type_at};
ghost use Rattle.source_meaning.specs.Parts.{width_of};
ghost use Rattle.source_meaning.specs.Rows.{literal_bits, at_width, result_at, compared_at, sign_cast};
ghost use Rattle.task_stack.specs.Numbers.{carried, chosen, computed, operand_width, result_width};
ghost use Rattle.task_stack.specs.Registers as registers;
ghost use Rattle.task_stack.specs.Registers.{values_at, value, dims_in};

use crate::effects::Number;
use crate::registers::Registers;
use async_objects::Val;
use int_ops::{BinOp, Int, Width, apply_at, cmp_at};
use ir_forms::Ty;
use low_forms::{Instr, LowAttr, LowFunc, Reg};

/// What an instruction computes from what its operands hold, if there is a result.
pub(crate) fn computed(how: Number, func: &LowFunc, instr: &Instr, regs: &Registers) -> Option<Val>
    ensures { result ≡ computed how func.now instr.now (values_at regs.now instr.now.operands) }
{
    match how {
        Number::Constant => Some(Val::Number(constant(func, instr))),
        Number::Binary(op) => Some(Val::Number(binary(op, func, instr, regs)?)),
        Number::Compare => Some(Val::Number(comparison(func, instr, regs))),
        Number::Select => Some(selected(instr, regs)),
        Number::ExtendSign => Some(Val::Number(extended(func, instr, regs))),
        Number::FitWidth => Some(Val::Number(fitted(func, instr, regs))),
        Number::Dimension => Some(Val::Number(dimension(instr, regs)?)),
        Number::Zero => Some(Val::Number(0)),
    }
}

/// The width of the first of these registers.
fn width(func: &LowFunc, regs: &[Reg]) -> Width
    ensures { bits_of result ≡ width_of (type_at func.now regs.now 0) }
{
    let Some(reg) = regs.first() else {
        return Width::W64;
    };
    match func.regs.get(reg.0 as usize) {
        Some(Ty::Int(width)) => *width,
        _ => Width::W64,
    }
}

fn constant(func: &LowFunc, instr: &Instr) -> u64
    ensures { result ≡ at_width (result_width func.now instr.now) (literal_bits (carried instr.now.attr)) }
{
    cut(width(func, instr.results.as_slice()), literal(instr.attr))
}

fn binary(op: BinOp, func: &LowFunc, instr: &Instr, regs: &Registers) -> Option<u64>
    ensures { result ≡ result_at (result_width func.now instr.now) op (registers.number (values_at regs.now instr.now.operands) 0) (registers.number (values_at regs.now instr.now.operands) 1) }
{
    let operands = instr.operands.as_slice();
    let width = width(func, instr.results.as_slice());
    apply_at(
        width,
        op,
        cut(width, regs.number(operands, 0)),
        cut(width, regs.number(operands, 1)),
    )
}

fn comparison(func: &LowFunc, instr: &Instr, regs: &Registers) -> u64
    ensures { result ≡ compared_at (operand_width func.now instr.now) (carried instr.now.attr) (registers.number (values_at regs.now instr.now.operands) 0) (registers.number (values_at regs.now instr.now.operands) 1) }
{
    let operands = instr.operands.as_slice();
    let width = width(func, operands);
    let left = cut(width, regs.number(operands, 0));
    let right = cut(width, regs.number(operands, 1));
    match instr.attr {
        LowAttr::Pred(pred) => cmp_at(width, pred, left, right) as u64,
        _ => 0,
    }
}

fn selected(instr: &Instr, regs: &Registers) -> Val
    ensures { result ≡ chosen (registers.number (values_at regs.now instr.now.operands) 0) (value (values_at regs.now instr.now.operands) 1) (value (values_at regs.now instr.now.operands) 2) }
{
    let operands = instr.operands.as_slice();
    if regs.number(operands, 0) == 0 {
        regs.value(operands, 2)
    } else {
        regs.value(operands, 1)
    }
}

/// A cast by sign.
fn extended(func: &LowFunc, instr: &Instr, regs: &Registers) -> u64
    ensures { result ≡ sign_cast (operand_width func.now instr.now) (result_width func.now instr.now) (registers.number (values_at regs.now instr.now.operands) 0) }
{
    let operands = instr.operands.as_slice();
    let from = width(func, operands);
    let to = width(func, instr.results.as_slice());
    cut(to, sign_extended(from, cut(from, regs.number(operands, 0))))
}

/// A cast by zeros, or to a narrower width.
fn fitted(func: &LowFunc, instr: &Instr, regs: &Registers) -> u64
    ensures { result ≡ at_width (result_width func.now instr.now) (registers.number (values_at regs.now instr.now.operands) 0) }
{
    cut(
        width(func, instr.results.as_slice()),
        regs.number(instr.operands.as_slice(), 0),
    )
}

/// The size of one of a buffer's dimensions, if there is one.
fn dimension(instr: &Instr, regs: &Registers) -> Option<u64>
    ensures { result ≡ slice_get (dims_in (value (values_at regs.now instr.now.operands) 0)) (registers.number (values_at regs.now instr.now.operands) 1) }
{
    let operands = instr.operands.as_slice();
    let at = regs.number(operands, 1);
    size_at(regs.value(operands, 0), at)
}

fn size_at(val: Val, at: u64) -> Option<u64>
    ensures { result ≡ slice_get (dims_in val) at }
{
    match val {
        Val::Buffer {
            number: _,
            rank,
            dims,
        } if at < rank as u64 => match dims.get(at as usize) {
            Some(size) => Some(*size as u64),
            None => None,
        },
        _ => None,
    }
}

/// A literal's bits at 64 bits.
fn literal(attr: LowAttr) -> u64
    ensures { result ≡ literal_bits (carried attr) }
{
    match attr {
        LowAttr::Literal {
            negative: true,
            magnitude,
        } => 0u64.wrapping_sub(magnitude),
        LowAttr::Literal {
            negative: false,
            magnitude,
        } => magnitude,
        LowAttr::Truth(bit) => bit as u64,
        _ => 0,
    }
}

/// What is left of a number at a width.
fn cut(width: Width, n: u64) -> u64
    ensures value { result ≡ at_width (bits_of width) n }
    ensures below { result < 2 ^ bits_of width }
{
    match width {
        Width::W1 => Int::<1>::trunc(n),
        Width::W8 => Int::<8>::trunc(n),
        Width::W16 => Int::<16>::trunc(n),
        Width::W32 => Int::<32>::trunc(n),
        Width::W64 => n,
    }
}

/// The number of 64 bits with the same signed reading.
fn sign_extended(width: Width, n: u64) -> u64
    requires { n < 2 ^ bits_of width }
    ensures { result ≡ sign_extended (bits_of width) n }
{
    match width {
        Width::W1 => Int::<1>::sign_extend(n),
        Width::W8 => Int::<8>::sign_extend(n),
        Width::W16 => Int::<16>::sign_extend(n),
        Width::W32 => Int::<32>::sign_extend(n),
        Width::W64 => Int::<64>::sign_extend(n),
    }
}
