//! What an operation reads of its own form.
ghost use Rattle.std.specs.Prelude.{◌≡◌, ◌<◌, ◌^◌, [], take, drop, cond, nat_eq, map, slice_get, IfSome, IfOk};
ghost use Rattle.int_ops.specs.Arithmetic.{bits_of, arith_result};
ghost use Rattle.ir_forms.specs.declared.ops.Op.{out-Op};
ghost use Rattle.ir_forms.specs.Ops.{operands_of, attr_of};
ghost use Rattle.source_meaning.specs.Values.{or_else};
ghost use Rattle.source_meaning.specs.Parts.{grouped, ops_in, width_of, region_of, params_in};
ghost use Rattle.source_meaning.specs.Rows.{literal_bits, at_width, result_at, compared_at, sign_cast, are_bounds, is_bound, is_step, is_below, stepped};

use int_ops::{BinOp, Int, Pred, Width, apply_at, cmp_at};
use ir_forms::{Attr, Op, Region, Ty, ValueNo};

pub(crate) fn width(types: &[Ty]) -> Width
    ensures { bits_of result ≡ width_of (slice_get types.now 0) }
{
    match types.first() {
        Some(Ty::Int(width)) => *width,
        _ => Width::W64,
    }
}

/// A literal's bits at 64 bits.
pub(crate) fn literal(attr: &Attr) -> u64
    ensures { result ≡ literal_bits attr.now }
{
    match attr {
        Attr::Literal {
            negative: true,
            magnitude,
        } => 0u64.wrapping_sub(*magnitude),
        Attr::Literal {
            negative: false,
            magnitude,
        } => *magnitude,
        Attr::Truth(truth) => *truth as u64,
        _ => 0,
    }
}

/// What is left of a number at a width.
pub(crate) fn cut(width: Width, n: u64) -> u64
    ensures value { result ≡ at_width (bits_of width) n }
    ensures below { result < 2 ^ bits_of width }
{
    match width {
        Width::W1 => Int::<1>::trunc(n),
        Width::W8 => Int::<8>::trunc(n),
        Width::W16 => Int::<16>::trunc(n),
        Width::W32 => Int::<32>::trunc(n),
        Width::W64 => Int::<64>::trunc(n),
    }
}

/// The region that a condition takes.
pub(crate) fn branch_of(n: u64) -> usize
    ensures { result ≡ cond (nat_eq n 0) 1 0 }
{
    if n == 0 { 1 } else { 0 }
}

pub(crate) fn region_ops(op: &Op, i: usize) -> &[Op]
    ensures { result.now ≡ ops_in (region_of (out-Op op.now) i) }
{
    match op.regions.get(i) {
        Some(region) => region.ops.as_slice(),
        None => &[],
    }
}

pub(crate) fn region_params(op: &Op, i: usize) -> &[(ValueNo, Ty)]
    ensures { map (λ x. x.0) result.now ≡ params_in (region_of (out-Op op.now) i) }
{
    match op.regions.get(i) {
        Some(region) => region.params.as_slice(),
        None => &[],
    }
}

fn front(names: &[ValueNo], n: usize) -> &[ValueNo]
    ensures { result.now ≡ take n names.now }
{
    if n <= names.len() { &names[..n] } else { names }
}

pub(crate) fn back(names: &[ValueNo], n: usize) -> &[ValueNo]
    ensures { result.now ≡ drop n names.now }
{
    if n <= names.len() { &names[n..] } else { &[] }
}

fn group_in<'b>(groups: &[u32], names: &'b [ValueNo], k: usize) -> &'b [ValueNo]
    ensures { result.now ≡ or_else [] (slice_get (grouped groups.now names.now) k) }
{
    let mut groups = groups;
    let mut names = names;
    let mut k = k;
    loop {
        let Some((n, more)) = groups.split_first() else {
            return &[];
        };
        if k == 0 {
            return front(names, *n as usize);
        }
        names = back(names, *n as usize);
        groups = more;
        k -= 1;
    }
}

/// One of the operation's groups of operands.
pub(crate) fn group(op: &Op, k: usize) -> &[ValueNo]
    ensures { result.now ≡ or_else [] (slice_get (grouped (out-Op op.now).groups (operands_of op.now)) k) }
{
    group_in(op.groups.as_slice(), op.operands.as_slice(), k)
}

/// The result of an operation on numbers that are read at a width.
pub(crate) fn result_at(width: Width, op: BinOp, a: u64, b: u64) -> Option<u64>
    ensures { result ≡ result_at (bits_of width) op a b }
{
    apply_at(width, op, cut(width, a), cut(width, b))
}

/// The answer of a comparison at a width.
pub(crate) fn compared_at(width: Width, attr: &Attr, a: u64, b: u64) -> u64
    ensures { result ≡ compared_at (bits_of width) attr.now a b }
{
    match attr {
        Attr::Pred(pred) => cmp_at(width, *pred, cut(width, a), cut(width, b)) as u64,
        _ => 0,
    }
}

/// A number that is read at one width, by sign at another.
pub(crate) fn sign_cast(from: Width, to: Width, n: u64) -> u64
    ensures { result ≡ sign_cast (bits_of from) (bits_of to) n }
{
    let n = cut(from, n);
    let wide = match from {
        Width::W1 => Int::<1>::sign_extend(n),
        Width::W8 => Int::<8>::sign_extend(n),
        Width::W16 => Int::<16>::sign_extend(n),
        Width::W32 => Int::<32>::sign_extend(n),
        Width::W64 => Int::<64>::sign_extend(n),
    };
    cut(to, wide)
}

fn is_bound(n: u64) -> bool
    ensures { result ≡ is_bound n }
{
    cmp_at(Width::W64, Pred::Sge, n, 13_835_058_055_282_163_712)
        && cmp_at(Width::W64, Pred::Sle, n, 4_611_686_018_427_387_904)
}

fn is_step(n: u64) -> bool
    ensures { result ≡ is_step n }
{
    cmp_at(Width::W64, Pred::Sge, n, 1)
        && cmp_at(Width::W64, Pred::Sle, n, 4_611_686_018_427_387_904)
}

/// The bounds and the step of a loop are in range.
pub(crate) fn are_bounds(lower: u64, upper: u64, step: u64) -> bool
    ensures { result ≡ are_bounds lower upper step }
{
    is_bound(lower) && is_bound(upper) && is_step(step)
}

/// A loop goes on with this variable.
pub(crate) fn is_below(i: u64, upper: u64) -> bool
    ensures { result ≡ is_below i upper }
{
    cmp_at(Width::W64, Pred::Slt, i, upper)
}

/// The variable of the next turn.
pub(crate) fn stepped(i: u64, step: u64) -> u64
    ensures { result ≡ stepped i step }
{
    i.wrapping_add(step)
}
