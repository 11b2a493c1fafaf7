//! What a run begins with: its arguments, and the stack of its root.
ghost use Rattle.std.specs.Prelude.{◌≡◌, ◌<◌, ◌≤◌, ◌+◌, ◌-◌, ◌^◌, ◌++◌, ◌∷◌, List, length, IfOk};
ghost use Rattle.ir_forms.specs.declared.args.ArgValue.{ArgValue};
ghost use Rattle.low_forms.specs.declared.code.Reg.{Reg};
ghost use Rattle.low_forms.specs.Registers.{reg_type};
ghost use Rattle.step_core.specs.State.{argument_vals, argument_buffers, cell_type};

use crate::cells::{ArgBuffer, buffer_val};
use async_objects::Val;
use ir_forms::{ArgValue, CellTy, OutTy, Ty};
use lists::Items;
use low_forms::{LowFunc, Reg};
use std::alloc::{AllocError, Global};

/// What the parameters hold.
pub(crate) fn argument_vals(alloc: Global, args: &[ArgValue]) -> Result<Vec<Val>, AllocError>
    requires { length args.now < 2 ^ 32 }
    ensures { IfOk result (λ vals. vals.items ≡ argument_vals 0 args.now) }
{
    let mut vals = Vec::new(alloc);
    let mut buffer = 0;
    for arg in args {
        match arg {
            ArgValue::Number(n) => vals.push(Val::Number(*n))?,
            ArgValue::Cells { dims, values: _ } => {
                vals.push(buffer_val(buffer, dims.as_slice()))?;
                buffer += 1;
            }
        }
    }
    Ok(vals)
}

/// The buffers of a function's parameters.
pub(crate) fn argument_buffers(
    alloc: Global,
    func: &LowFunc,
    args: &[ArgValue],
) -> Result<Items<ArgBuffer>, AllocError>
    requires { length args.now < 2 ^ 32 }
    ensures { IfOk result (λ buffers. buffers ≡ argument_buffers func.now 0 0 func.now.params args.now) }
{
    let params = func.params.as_slice();
    let mut buffers = Items::new(alloc);
    let mut buffer = 0;
    for place in 0..params.len().min(args.len()) {
        let param = params[place];
        buffer = add_buffer(
            &mut buffers,
            func,
            param,
            place as u32,
            buffer,
            &args[place],
        )?;
    }
    Ok(buffers)
}

/// Adds the buffer of a parameter, if it is one, and gives the number of the next buffer.
fn add_buffer(
    buffers: &mut Items<ArgBuffer>,
    func: &LowFunc,
    param: Reg,
    place: u32,
    buffer: u32,
    arg: &ArgValue,
) -> Result<u32, AllocError>
    requires { buffer < 2 ^ 32 - 1 }
    ensures { IfOk result (λ next. (next ≤ buffer + 1) × ((rs : List Reg) (args : List ArgValue) → buffers.new ++ argument_buffers func.now (place + 1) next rs args ≡ buffers.old ++ argument_buffers func.now place buffer (param ∷ rs) (arg.now ∷ args))) }
{
    match arg {
        ArgValue::Number(_) => Ok(buffer),
        ArgValue::Cells { dims: _, values: _ } => {
            buffers.push(ArgBuffer {
                argument: place,
                buffer,
                cell: cell_type(func, param),
            })?;
            Ok(buffer + 1)
        }
    }
}

/// The type of the cells of a buffer in this register.
fn cell_type(func: &LowFunc, reg: Reg) -> OutTy
    ensures { result ≡ cell_type (reg_type func.now reg) }
{
    match func.regs.get(reg.0 as usize) {
        Some(Ty::Memref(memory)) => match memory.elem {
            CellTy::Int(width) => OutTy::Int(width),
            _ => OutTy::Index,
        },
        _ => OutTy::Index,
    }
}
