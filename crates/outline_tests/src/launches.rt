//! The launches of a module, a line for each.
use ir_forms::{Attr, Module, Op, ValueNo};
use itoa::Buffer;
use std::alloc::{AllocError, Global};

fn push_launch(text: &mut Vec<u8>, name: &[u8], operands: &[ValueNo]) -> Result<(), AllocError> {
    let mut buffer = Buffer::new();
    text.extend_from_slice(name)?;
    for operand in operands {
        text.push(b' ')?;
        text.extend_from_slice(buffer.format(operand.0).as_bytes())?;
    }
    text.push(b'\n')?;
    Ok(())
}

#[cycle(launches)]
fn push_launches(text: &mut Vec<u8>, ops: &[Op]) -> Result<(), AllocError> {
    for op in ops {
        push_inside(text, op)?;
    }
    Ok(())
}

#[cycle(launches)]
fn push_inside(text: &mut Vec<u8>, op: &Op) -> Result<(), AllocError> {
    if let Attr::Callee(name) = &op.attr {
        push_launch(text, name.as_slice(), op.operands.as_slice())?;
    }
    for region in op.regions.as_slice() {
        push_launches(text, region.ops.as_slice())?;
    }
    Ok(())
}

/// For each launch the name of its function, and the numbers of its arguments.
pub fn launches(alloc: Global, program: &Module) -> Result<Vec<u8>, AllocError> {
    let mut text = Vec::new(alloc);
    for func in program.funcs.as_slice() {
        push_launches(&mut text, func.body.ops.as_slice())?;
    }
    Ok(text)
}
