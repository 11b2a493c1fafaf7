ghost use Rattle.std.specs.Prelude.{◌^◌, ◌<◌, ◌≤◌};
ghost use Rattle.int_ops.specs.Arithmetic.{bits_of};

use super::*;
use std::process::Abort;

const OPS: [BinOp; 17] = [
    BinOp::Add,
    BinOp::Sub,
    BinOp::Mul,
    BinOp::DivS,
    BinOp::DivU,
    BinOp::RemS,
    BinOp::RemU,
    BinOp::And,
    BinOp::Or,
    BinOp::Xor,
    BinOp::Shl,
    BinOp::ShrS,
    BinOp::ShrU,
    BinOp::MaxS,
    BinOp::MinS,
    BinOp::MaxU,
    BinOp::MinU,
];

const PREDS: [Pred; 10] = [
    Pred::Eq,
    Pred::Ne,
    Pred::Slt,
    Pred::Sle,
    Pred::Sgt,
    Pred::Sge,
    Pred::Ult,
    Pred::Ule,
    Pred::Ugt,
    Pred::Uge,
];

#[test]
fn has_the_worked_results_at_8_bits(rt: HostRuntime) {
    let rows: [(BinOp, u8, u8, Option<u64>); 5] = [
        (BinOp::DivS, 128, 255, None),
        (BinOp::RemS, 128, 255, Some(0)),
        (BinOp::DivS, 249, 2, Some(253)),
        (BinOp::ShrS, 128, 7, Some(255)),
        (BinOp::Shl, 1, 8, None),
    ];
    for (op, a, b, want) in rows {
        let (a, b) = (u64::from(a), u64::from(b));
        assert_eq!(rt; Int::<8>::apply(op, a, b), want, "{op:?} of {a} and {b}");
        assert_eq!(rt;
            apply_at(Width::W8, op, a, b),
            want,
            "{op:?} of {a} and {b}"
        );
    }
    assert_eq!(rt; Int::<8>::sign_extend(128), 0xffff_ffff_ffff_ff80);
    assert_eq!(rt; Int::<8>::trunc(0xffff_ffff_ffff_ff80), 128);
    assert_eq!(rt; Width::W8.bits(), 8);
}

#[test]
fn has_the_results_at_1_bit(rt: HostRuntime) {
    let rows: [(BinOp, bool, bool, Option<u64>); 16] = [
        (BinOp::Add, true, true, Some(0)),
        (BinOp::Sub, false, true, Some(1)),
        (BinOp::Mul, true, true, Some(1)),
        (BinOp::DivS, true, true, None),
        (BinOp::DivS, false, true, Some(0)),
        (BinOp::DivU, true, true, Some(1)),
        (BinOp::DivU, true, false, None),
        (BinOp::RemS, true, true, Some(0)),
        (BinOp::Xor, true, true, Some(0)),
        (BinOp::Shl, true, false, Some(1)),
        (BinOp::Shl, true, true, None),
        (BinOp::ShrS, true, false, Some(1)),
        (BinOp::MaxS, false, true, Some(0)),
        (BinOp::MinS, false, true, Some(1)),
        (BinOp::MaxU, false, true, Some(1)),
        (BinOp::MinU, false, true, Some(0)),
    ];
    for (op, a, b, want) in rows {
        assert_eq!(rt;
            apply_at(Width::W1, op, u64::from(a), u64::from(b)),
            want,
            "{op:?}"
        );
    }
    assert!(rt; cmp_at(Width::W1, Pred::Slt, 1, 0));
    assert!(rt; cmp_at(Width::W1, Pred::Ult, 0, 1));
    assert_eq!(rt; Int::<1>::sign_extend(1), u64::MAX);
    assert_eq!(rt; Int::<1>::trunc(6), 0);
}

#[test]
fn has_the_results_at_64_bits(rt: HostRuntime) {
    let least = 0x8000_0000_0000_0000;
    let minus_one = 0xffff_ffff_ffff_ffff;
    let minus_seven = 0xffff_ffff_ffff_fff9;
    let rows: [(BinOp, u64, u64, Option<u64>); 20] = [
        (BinOp::Add, minus_one, 1, Some(0)),
        (BinOp::Sub, 0, 1, Some(minus_one)),
        (BinOp::Mul, least, 2, Some(0)),
        (BinOp::Mul, minus_seven, minus_one, Some(7)),
        (BinOp::DivS, least, minus_one, None),
        (BinOp::DivS, least, 1, Some(least)),
        (BinOp::DivS, minus_seven, 2, Some(0xffff_ffff_ffff_fffd)),
        (BinOp::DivS, 7, 0, None),
        (BinOp::DivU, minus_one, 2, Some(0x7fff_ffff_ffff_ffff)),
        (BinOp::RemS, least, minus_one, Some(0)),
        (BinOp::RemS, minus_seven, 2, Some(minus_one)),
        (BinOp::RemS, 7, 0xffff_ffff_ffff_fffe, Some(1)),
        (BinOp::RemU, 7, 0, None),
        (BinOp::Shl, 1, 63, Some(least)),
        (BinOp::Shl, 1, 64, None),
        (BinOp::ShrS, least, 63, Some(minus_one)),
        (BinOp::ShrU, least, 63, Some(1)),
        (BinOp::MaxS, minus_one, 1, Some(1)),
        (BinOp::MinS, minus_one, 1, Some(minus_one)),
        (BinOp::MaxU, minus_one, 1, Some(minus_one)),
    ];
    for (op, a, b, want) in rows {
        assert_eq!(rt;
            apply_at(Width::W64, op, a, b),
            want,
            "{op:?} of {a} and {b}"
        );
    }
    assert!(rt; cmp_at(Width::W64, Pred::Slt, least, 0));
    assert!(rt; cmp_at(Width::W64, Pred::Ugt, least, 0));
    assert_eq!(rt; Int::<64>::sign_extend(least), least);
}

/// A number below `2^bits` as a signed one.
fn signed(bits: u32, a: u8) -> i128
    requires { bits ≤ 8 }
{
    let whole = i128::from(a);
    if bits > 0 && a >> (bits - 1) == 1 {
        whole - (1 << bits)
    } else {
        whole
    }
}

/// The result by arithmetic in `i128`.
fn expected(bits: u32, op: BinOp, a: u8, b: u8) -> Option<u64>
    requires { bits ≤ 8 }
{
    let (x, y) = (i128::from(a), i128::from(b));
    let (p, q) = (signed(bits, a), signed(bits, b));
    let shift = if u32::from(b) < bits {
        Some(u32::from(b))
    } else {
        None
    };
    let exact = match op {
        BinOp::Add => x.checked_add(y)?,
        BinOp::Sub => x.checked_sub(y)?,
        BinOp::Mul => x.checked_mul(y)?,
        BinOp::DivS => {
            let quotient = p.checked_div(q)?;
            if quotient == 1 << (bits.max(1) - 1) {
                return None;
            }
            quotient
        }
        BinOp::DivU => x.checked_div(y)?,
        BinOp::RemS => p.checked_rem(q)?,
        BinOp::RemU => x.checked_rem(y)?,
        BinOp::And => x & y,
        BinOp::Or => x | y,
        BinOp::Xor => x ^ y,
        BinOp::Shl => x << shift?,
        BinOp::ShrS => p >> shift?,
        BinOp::ShrU => x >> shift?,
        BinOp::MaxS => p.max(q),
        BinOp::MinS => p.min(q),
        BinOp::MaxU => x.max(y),
        BinOp::MinU => x.min(y),
    };
    u64::try_from(exact.rem_euclid(1 << bits)).ok()
}

/// The comparison by `i128`.
fn expected_cmp(bits: u32, pred: Pred, a: u8, b: u8) -> bool
    requires { bits ≤ 8 }
{
    let (x, y) = (i128::from(a), i128::from(b));
    let (p, q) = (signed(bits, a), signed(bits, b));
    match pred {
        Pred::Eq => p == q,
        Pred::Ne => p != q,
        Pred::Slt => p < q,
        Pred::Sle => p <= q,
        Pred::Sgt => p > q,
        Pred::Sge => p >= q,
        Pred::Ult => x < y,
        Pred::Ule => x <= y,
        Pred::Ugt => x > y,
        Pred::Uge => x >= y,
    }
}

/// Compares all calls at two numbers with the arithmetic in `i128`.
fn agree(rt: &impl Abort, width: Width, a: u8, b: u8)
    requires left { a < 2 ^ bits_of width }
    requires right { b < 2 ^ bits_of width }
    requires small { bits_of width ≤ 8 }
{
    let bits = width.bits();
    for op in OPS {
        let result = apply_at(width, op, u64::from(a), u64::from(b));
        assert_eq!(rt; result, expected(bits, op, a, b), "{op:?} of {a} and {b}");
    }
    for pred in PREDS {
        let holds = cmp_at(width, pred, u64::from(a), u64::from(b));
        assert_eq!(rt;
            holds,
            expected_cmp(bits, pred, a, b),
            "{pred:?} of {a} and {b}"
        );
    }
}

#[test]
fn agrees_with_wider_arithmetic(rt: HostRuntime) {
    for a in 0..2 {
        for b in 0..2 {
            agree(&rt, Width::W1, a, b);
        }
    }
    let others = [
        0, 1, 2, 3, 4, 5, 6, 7, 8, 9, 63, 64, 100, 126, 127, 128, 129, 130, 191, 200, 250, 253,
        254, 255,
    ];
    for a in 0..=255 {
        for b in others {
            agree(&rt, Width::W8, a, b);
        }
    }
}
