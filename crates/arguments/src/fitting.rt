//! Which arguments fit which parameters.
ghost use Rattle.std.specs.Prelude.{◌≡◌, ◌+◌, ◌<◌, ◌≤◌, ◌++◌, ◌∷◌, [], length, map, replicate, true, IfOk, IfErr, Some};
ghost use Rattle.int_ops.specs.Arithmetic.{bits_of};
ghost use Rattle.ir_forms.specs.Shapes.{product, most_cells};
ghost use Rattle.arguments.specs.Fits as spec;
ghost use Rattle.arguments.specs.Fits.{Fits};
ghost use Rattle.arguments.specs.Answers.{IsWrong, IsFit};

use crate::faults::BadArgs;
use crate::shapes::cell_count;
use int_ops::Width;
use ir_forms::{Arg, ArgValue, CellTy, Dim, MemTy, Scalar, Ty, ValueNo};
use lists::Items;
use std::alloc::{AllocError, Global};

/// The bits of a number at a width that isn't that of `i1`, if it is in range.
fn number_bits(width: Width, negative: bool, magnitude: u64) -> Option<u64>
    ensures { result ≡ spec.number_fits (bits_of width) negative magnitude }
{
    let (half, last) = match width {
        Width::W1 => (1u64, 1u64),
        Width::W8 => (128, 255),
        Width::W16 => (32_768, 65_535),
        Width::W32 => (2_147_483_648, 4_294_967_295),
        Width::W64 => (9_223_372_036_854_775_808, 18_446_744_073_709_551_615),
    };
    if negative {
        if magnitude == 0 {
            Some(0)
        } else if magnitude <= half {
            Some(last - magnitude + 1)
        } else {
            None
        }
    } else if magnitude <= last {
        Some(magnitude)
    } else {
        None
    }
}

fn value_bits(width: Width, value: Scalar) -> Option<u64>
    ensures { result ≡ spec.value_fits width value }
{
    match (width, value) {
        (Width::W1, Scalar::Truth(truth)) => Some(truth as u64),
        (Width::W1, _) => None,
        (_, Scalar::Truth(_)) => None,
        (
            _,
            Scalar::Number {
                negative,
                magnitude,
            },
        ) => number_bits(width, negative, magnitude),
    }
}

fn cell_width(elem: CellTy) -> Option<Width>
    ensures { result ≡ spec.cell_width elem }
{
    match elem {
        CellTy::Int(width) => Some(width),
        CellTy::Index => Some(Width::W64),
        _ => None,
    }
}

fn is_size(dim: Dim, size: u32) -> bool
    ensures { result ≡ spec.is_size dim size }
{
    match dim {
        Dim::Fixed(wanted) => wanted == size,
        Dim::Dynamic => true,
    }
}

fn shape_fits(dims: &[Dim], sizes: &[u32]) -> bool
    ensures { result ≡ spec.shape_fits dims.now sizes.now }
{
    let mut dims_left = dims;
    let mut sizes_left = sizes;
    loop {
        let Some((dim, more_dims)) = dims_left.split_first() else {
            return sizes_left.is_empty();
        };
        let Some((size, more_sizes)) = sizes_left.split_first() else {
            return false;
        };
        if !is_size(*dim, *size) {
            return false;
        }
        dims_left = more_dims;
        sizes_left = more_sizes;
    }
}

/// The bits of each value, if each fits.
#[tactic(auto, using(crate::proofs::FitLemmas::bits_more, crate::proofs::FitLemmas::bits_none))]
fn all_bits(
    alloc: Global,
    width: Width,
    values: &[Scalar],
) -> Result<Option<Items<u64>>, AllocError>
    ensures { IfOk result (λ bits. bits ≡ spec.values_fit width values.now) }
{
    let mut bits = Items::new(alloc);
    let mut left = values;
    loop {
        let Some((value, more)) = left.split_first() else {
            return Ok(Some(bits));
        };
        let Some(n) = value_bits(width, *value) else {
            return Ok(None);
        };
        bits.push(n)?;
        left = more;
    }
}

/// So many cells of one value.
fn filled(alloc: Global, cells: u32, n: u64) -> Result<Items<u64>, AllocError>
    ensures { IfOk result (λ all. all ≡ replicate cells n) }
{
    Ok(Items::from_vec(vec![in alloc; n; cells as usize]?))
}

fn cells_value(
    alloc: Global,
    width: Width,
    sizes: &[u32],
    values: &[Scalar],
) -> Result<Option<ArgValue>, AllocError>
    ensures { IfOk result (λ fit. fit ≡ spec.cells_fit (Some width) true sizes.now values.now) }
{
    let Some(cells) = cell_count(sizes) else {
        return Ok(None);
    };
    if values.len() != cells as usize {
        return Ok(None);
    }
    match all_bits(alloc, width, values)? {
        Some(values) => Ok(Some(ArgValue::Cells {
            dims: Items::from_slice(alloc, sizes)?,
            values,
        })),
        None => Ok(None),
    }
}

fn fill_value(
    alloc: Global,
    width: Width,
    sizes: &[u32],
    value: Scalar,
) -> Result<Option<ArgValue>, AllocError>
    ensures { IfOk result (λ fit. fit ≡ spec.fill_fits (Some width) true sizes.now value) }
{
    let Some(cells) = cell_count(sizes) else {
        return Ok(None);
    };
    match value_bits(width, value) {
        Some(n) => Ok(Some(ArgValue::Cells {
            dims: Items::from_slice(alloc, sizes)?,
            values: filled(alloc, cells, n)?,
        })),
        None => Ok(None),
    }
}

fn memory_value(alloc: Global, memory: &MemTy, arg: &Arg) -> Result<Option<ArgValue>, AllocError>
    ensures { IfOk result (λ fit. fit ≡ spec.memory_fits memory.now arg.now) }
{
    let dims = memory.dims.as_slice();
    let Some(width) = cell_width(memory.elem) else {
        return Ok(None);
    };
    match arg {
        Arg::Cells {
            dims: sizes,
            values,
        } => {
            if shape_fits(dims, sizes.as_slice()) {
                cells_value(alloc, width, sizes.as_slice(), values.as_slice())
            } else {
                Ok(None)
            }
        }
        Arg::Fill { dims: sizes, value } => {
            if shape_fits(dims, sizes.as_slice()) {
                fill_value(alloc, width, sizes.as_slice(), *value)
            } else {
                Ok(None)
            }
        }
        _ => Ok(None),
    }
}

fn number_value(width: Width, arg: &Arg) -> Option<ArgValue>
    ensures { result ≡ spec.width_fits width arg.now }
{
    let value = match arg {
        Arg::Number {
            negative,
            magnitude,
        } => Scalar::Number {
            negative: *negative,
            magnitude: *magnitude,
        },
        Arg::Truth(truth) => Scalar::Truth(*truth),
        _ => return None,
    };
    match value_bits(width, value) {
        Some(n) => Some(ArgValue::Number(n)),
        None => None,
    }
}

/// The argument's value for a parameter of this type, if it is of its form, range and shape.
fn fit(alloc: Global, param: &Ty, arg: &Arg) -> Result<Option<ArgValue>, AllocError>
    ensures { IfOk result (λ fit. fit ≡ spec.fit param.now arg.now) }
{
    match param {
        Ty::Int(width) => Ok(number_value(*width, arg)),
        Ty::Index => Ok(number_value(Width::W64, arg)),
        Ty::Memref(memory) => memory_value(alloc, memory, arg),
        _ => Ok(None),
    }
}

fn cells_of(value: &ArgValue) -> usize
    ensures { result ≡ spec.cells_of value.now }
{
    match value {
        ArgValue::Number(_) => 0,
        ArgValue::Cells { values, .. } => values.len(),
    }
}

/// Adds the values of the arguments that fit, up to the first that doesn't.
#[tactic(auto, using(crate::proofs::FitLemmas::before_more, crate::proofs::FitLemmas::before_wrong, crate::proofs::FitLemmas::before_last))]
fn fit_into(
    alloc: Global,
    values: &mut Items<ArgValue>,
    params: &[(ValueNo, Ty)],
    args: &[Arg],
) -> Result<Option<usize>, AllocError>
    requires { values.old ≡ [] }
    ensures { IfOk result (λ at. IsFit (spec.fitted_args (map (λ p. p.1) params.now) args.now) at values.new) }
{
    let mut params_left = params;
    let mut args_left = args;
    let mut at: usize = 0;
    let mut used: usize = 0;
    loop {
        let Some((param, more_params)) = params_left.split_first() else {
            return if args_left.is_empty() {
                Ok(None)
            } else {
                Ok(Some(at))
            };
        };
        let Some((arg, more_args)) = args_left.split_first() else {
            return Ok(Some(at));
        };
        let Some(value) = fit(alloc, &param.1, arg)? else {
            return Ok(Some(at));
        };
        let cells = cells_of(&value);
        if cells > 16_777_216 - used {
            return Ok(Some(at));
        }
        values.push(value)?;
        used += cells;
        at += 1;
        params_left = more_params;
        args_left = more_args;
    }
}

/// The values of arguments for parameters of these types.
///
/// # Errors
///
/// `Argument` with the place of the first argument that is missing, superfluous, of another form than
/// its type, out of the type's range, of another shape, or makes the cells of all arguments more than
/// 2^24. `OutOfMemory` where memory runs out.
pub fn fit_args(
    alloc: Global,
    params: &[(ValueNo, Ty)],
    args: &[Arg],
) -> Result<Items<ArgValue>, BadArgs>
    ensures ok { IfOk result (λ values. spec.fitted_args (map (λ p. p.1) params.now) args.now ≡ Fits values) }
    ensures err { IfErr result (λ fault. IsWrong (spec.fitted_args (map (λ p. p.1) params.now) args.now) fault) }
{
    let mut values = Items::new(alloc);
    match fit_into(alloc, &mut values, params, args)? {
        None => Ok(values),
        Some(at) => Err(BadArgs::Argument { at }),
    }
}
