//! The texts of types.
ghost use Rattle.std.specs.Prelude.{◌≡◌, ◌++◌, OnOk};
ghost use Rattle.mlir_print.specs.Docs.{bytes_of};
ghost use Rattle.mlir_print.specs.Types.{width_name, number_name, value_word, cell_text, dim_text, dims_text, memref_text, payload_doc, type_doc};
ghost use Rattle.ir_forms.specs.declared.types.CellTy.TheVariants as cell;

use crate::text::push_text;
use crate::tokens::push_number;
use ir_forms::{CellTy, Dim, MemTy, NumTy, Ty, ValTy, Width};
use std::alloc::AllocError;

fn width_name(width: Width) -> &'static str
    ensures { result.now ≡ width_name width }
{
    match width {
        Width::W1 => "i1",
        Width::W8 => "i8",
        Width::W16 => "i16",
        Width::W32 => "i32",
        Width::W64 => "i64",
    }
}

fn number_name(ty: NumTy) -> &'static str
    ensures { result.now ≡ number_name ty }
{
    match ty {
        NumTy::Int(width) => width_name(width),
        NumTy::Index => "index",
    }
}

#[tactic(auto, unfolding(crate::specs::Types::value_word))]
fn push_value_word(text: &mut Vec<u8>) -> Result<(), AllocError>
    ensures { OnOk result (text.new.items ≡ text.old.items ++ value_word) }
{
    push_text(text, "!async.value")
}

fn push_value_cell(text: &mut Vec<u8>, ty: NumTy) -> Result<(), AllocError>
    ensures { OnOk result (text.new.items ≡ text.old.items ++ cell_text (cell.Value ty)) }
{
    push_value_word(text)?;
    push_text(text, "<")?;
    push_text(text, number_name(ty))?;
    push_text(text, ">")
}

fn push_cell(text: &mut Vec<u8>, cell: CellTy) -> Result<(), AllocError>
    ensures { OnOk result (text.new.items ≡ text.old.items ++ cell_text cell) }
{
    match cell {
        CellTy::Int(width) => push_text(text, width_name(width)),
        CellTy::Index => push_text(text, "index"),
        CellTy::Token => push_text(text, "!async.token"),
        CellTy::Group => push_text(text, "!async.group"),
        CellTy::Value(ty) => push_value_cell(text, ty),
    }
}

fn push_dim(text: &mut Vec<u8>, dim: Dim) -> Result<(), AllocError>
    ensures { OnOk result (text.new.items ≡ text.old.items ++ dim_text dim) }
{
    match dim {
        Dim::Fixed(size) => {
            push_number(text, u64::from(size))?;
            push_text(text, "x")
        }
        Dim::Dynamic => push_text(text, "?x"),
    }
}

fn push_dims(text: &mut Vec<u8>, dims: &[Dim]) -> Result<(), AllocError>
    ensures { OnOk result (text.new.items ≡ text.old.items ++ dims_text dims.now) }
{
    for dim in dims {
        push_dim(text, *dim)?;
    }
    Ok(())
}

fn push_memref(text: &mut Vec<u8>, memref: &MemTy) -> Result<(), AllocError>
    ensures { OnOk result (text.new.items ≡ text.old.items ++ memref_text memref.now) }
{
    push_text(text, "memref<")?;
    push_dims(text, memref.dims.as_slice())?;
    push_cell(text, memref.elem)?;
    push_text(text, ">")
}

fn push_payload(text: &mut Vec<u8>, ty: &ValTy) -> Result<(), AllocError>
    ensures { OnOk result (text.new.items ≡ text.old.items ++ bytes_of (payload_doc ty.now)) }
{
    match ty {
        ValTy::Int(width) => push_text(text, width_name(*width)),
        ValTy::Index => push_text(text, "index"),
        ValTy::Memref(memref) => push_memref(text, memref),
    }
}

/// Adds a type. A parameter without a type prints as nothing.
///
/// # Errors
///
/// Where there is no memory.
pub fn push_type(text: &mut Vec<u8>, ty: &Ty) -> Result<(), AllocError>
    ensures { OnOk result (text.new.items ≡ text.old.items ++ bytes_of (type_doc ty.now)) }
{
    match ty {
        Ty::Int(width) => push_text(text, width_name(*width)),
        Ty::Index => push_text(text, "index"),
        Ty::Memref(memref) => push_memref(text, memref),
        Ty::Token => push_text(text, "!async.token"),
        Ty::Value(payload) => {
            push_value_word(text)?;
            push_text(text, "<")?;
            push_payload(text, payload)?;
            push_text(text, ">")
        }
        Ty::Group => push_text(text, "!async.group"),
        Ty::CoroId => push_text(text, "!async.coro.id"),
        Ty::CoroHandle => push_text(text, "!async.coro.handle"),
        Ty::CoroState => push_text(text, "!async.coro.state"),
        Ty::Untyped => Ok(()),
    }
}
