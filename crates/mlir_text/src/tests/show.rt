//! A module in a few letters: each operation by its name, number, operands, groups, written types, results, types and
//! what else it carries, and its regions in braces.

use ir_forms::{
    Attr, CellTy, Dim, Func, MemTy, Module, NumTy, Op, Region, Ty, ValTy, ValueNo, Width,
};
use lists::Items;
use std::alloc::{AllocError, Global};

fn width(out: &mut String, width: Width) -> Result<(), AllocError> {
    out.push_str(match width {
        Width::W1 => "i1",
        Width::W8 => "i8",
        Width::W16 => "i16",
        Width::W32 => "i32",
        Width::W64 => "i64",
    })
}

fn number_type(out: &mut String, ty: NumTy) -> Result<(), AllocError> {
    match ty {
        NumTy::Int(w) => width(out, w),
        NumTy::Index => out.push_str("index"),
    }
}

fn cell(out: &mut String, ty: CellTy) -> Result<(), AllocError> {
    match ty {
        CellTy::Int(w) => width(out, w),
        CellTy::Index => out.push_str("index"),
        CellTy::Token => out.push_str("token"),
        CellTy::Group => out.push_str("group"),
        CellTy::Value(inner) => {
            out.push_str("value ")?;
            number_type(out, inner)
        }
    }
}

fn memref(out: &mut String, ty: &MemTy) -> Result<(), AllocError> {
    out.push_str("[")?;
    for dim in ty.dims.as_slice() {
        match dim {
            Dim::Fixed(size) => write!(out, "{size} ")?,
            Dim::Dynamic => out.push_str("? ")?,
        }
    }
    cell(out, ty.elem)?;
    out.push_str("]")
}

fn type_of(out: &mut String, ty: &Ty) -> Result<(), AllocError> {
    match ty {
        Ty::Int(w) => width(out, *w),
        Ty::Index => out.push_str("index"),
        Ty::Memref(inner) => memref(out, inner),
        Ty::Token => out.push_str("token"),
        Ty::Value(ValTy::Int(w)) => {
            out.push_str("value ")?;
            width(out, *w)
        }
        Ty::Value(ValTy::Index) => out.push_str("value index"),
        Ty::Value(ValTy::Memref(inner)) => {
            out.push_str("value ")?;
            memref(out, inner)
        }
        Ty::Group => out.push_str("group"),
        Ty::CoroId | Ty::CoroHandle | Ty::CoroState => out.push_str("coroutine"),
        Ty::Untyped => out.push_str("untyped"),
    }
}

fn types(out: &mut String, mark: &str, types: &Items<Ty>) -> Result<(), AllocError> {
    if types.is_empty() {
        return Ok(());
    }
    out.push_str(mark)?;
    let mut comma = "";
    for ty in types.as_slice() {
        out.push_str(comma)?;
        type_of(out, ty)?;
        comma = ", ";
    }
    Ok(())
}

fn value(out: &mut String, value: ValueNo) -> Result<(), AllocError> {
    if value == ValueNo::UNKNOWN {
        out.push_str("unknown")
    } else {
        write!(out, "{}", value.0)
    }
}

fn values(out: &mut String, mark: &str, values: &Items<ValueNo>) -> Result<(), AllocError> {
    if values.is_empty() {
        return Ok(());
    }
    out.push_str(mark)?;
    let mut comma = "";
    for number in values.as_slice() {
        out.push_str(comma)?;
        value(out, *number)?;
        comma = ",";
    }
    Ok(())
}

fn params(out: &mut String, params: &Items<(ValueNo, Ty)>) -> Result<(), AllocError> {
    for (number, ty) in params.as_slice() {
        value(out, *number)?;
        out.push_str(":")?;
        type_of(out, ty)?;
        out.push_str(" ")?;
    }
    Ok(())
}

fn bytes(out: &mut String, bytes: &Items<u8>) -> Result<(), AllocError> {
    for byte in bytes.as_slice() {
        if (32..127).contains(byte) {
            out.push(char::from(*byte))?;
        } else {
            write!(out, "<{byte}>")?;
        }
    }
    Ok(())
}

fn attr(out: &mut String, attr: &Attr) -> Result<(), AllocError> {
    match attr {
        Attr::None => Ok(()),
        Attr::Literal {
            negative,
            magnitude,
        } => write!(out, " {}{magnitude}", if *negative { "-" } else { "" }),
        Attr::Truth(truth) => write!(out, " {truth}"),
        Attr::Pred(pred) => write!(out, " {pred:?}"),
        Attr::Text(text) => {
            out.push_str(" \"")?;
            bytes(out, text)?;
            out.push_str("\"")
        }
        Attr::Callee(name) => {
            out.push_str(" @")?;
            bytes(out, name)
        }
    }
}

fn groups(out: &mut String, groups: &Items<u32>) -> Result<(), AllocError> {
    for group in groups.as_slice() {
        write!(out, "/{group}")?;
    }
    Ok(())
}

#[cycle(shown)]
fn op(out: &mut String, op: &Op) -> Result<(), AllocError> {
    write!(out, "{}#{}", op_table::row(op.kind).name, op.at)?;
    values(out, " ", &op.operands)?;
    groups(out, &op.groups)?;
    types(out, " of ", &op.written)?;
    values(out, " = ", &op.results)?;
    types(out, " : ", &op.types)?;
    attr(out, &op.attr)?;
    for inner in op.regions.as_slice() {
        region(out, inner)?;
    }
    Ok(())
}

#[cycle(shown)]
fn region(out: &mut String, region: &Region) -> Result<(), AllocError> {
    out.push_str(" { ")?;
    params(out, &region.params)?;
    for inner in region.ops.as_slice() {
        op(out, inner)?;
        out.push_str("; ")?;
    }
    out.push_str("}")
}

fn func(out: &mut String, func: &Func) -> Result<(), AllocError> {
    out.push_str("@")?;
    bytes(out, &func.name)?;
    write!(out, "#{} ", func.at)?;
    params(out, &func.params)?;
    types(out, "-> ", &func.results)?;
    region(out, &func.body)?;
    out.push_str("\n")
}

pub fn module(alloc: Global, module: &Module) -> Result<String, AllocError> {
    let mut out = String::new(alloc);
    for inner in module.funcs.as_slice() {
        func(&mut out, inner)?;
    }
    Ok(out)
}
