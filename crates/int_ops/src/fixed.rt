//! Arithmetic at a width that is known when the program is compiled.
ghost use Rattle.std.specs.Prelude.{◌≡◌, ◌-◌, ◌%◌, ◌^◌, ◌<◌, not, IsTrue, IfSome};
ghost use Rattle.std.specs.Int.{w64, CanDivide};
ghost use Rattle.int_ops.specs.Arithmetic.{IsWidth, lacks_result, signed_reading, residue, sign_extended, arith_result, compares};

use crate::{BinOp, Pred};

/// Numbers of `W` bits, where `W` is 1, 8, 16, 32 or 64: each is a `u64` below `2^W`.
#[derive(Clone, Copy, PartialEq, Eq)]
pub struct Int<const W: u32>;

impl<const W: u32> Int<W> {
    /// The greatest number, all of whose bits are set.
    fn mask() -> u64
        requires { IsWidth W }
        ensures { result ≡ 2 ^ W - 1 }
    {
        u64::MAX >> (64 - W)
    }

    /// The lowest `W` bits.
    pub fn trunc(a: u64) -> u64
        requires { IsWidth W }
        ensures value { result ≡ a % 2 ^ W }
        ensures below { result < 2 ^ W }
    {
        a & Self::mask()
    }

    /// The number of 64 bits with the same signed reading.
    #[tactic(auto, using(crate::proofs::Readings::extends_low, crate::proofs::Readings::extends_high, crate::proofs::Readings::extends_mod, crate::proofs::Readings::extends_reading))]
    pub fn sign_extend(a: u64) -> u64
        requires width { IsWidth W }
        requires below { a < 2 ^ W }
        ensures value { result ≡ sign_extended W a }
        ensures reading { signed_reading 64 result ≡ signed_reading W a }
        ensures low { result % 2 ^ W ≡ a }
    {
        if a >> (W - 1) == 0 {
            a
        } else {
            a | !Self::mask()
        }
    }

    /// The signed reading.
    fn signed(a: u64) -> i64
        requires width { IsWidth W }
        requires below { a < 2 ^ W }
        ensures { result ≡ signed_reading W a }
    {
        Self::sign_extend(a).cast_signed()
    }

    /// What is left of a whole number at `W` bits.
    fn wrapped(z: i64) -> u64
        requires { IsWidth W }
        ensures value { result ≡ residue W z }
        ensures below { result < 2 ^ W }
    {
        Self::trunc(z.cast_unsigned())
    }

    /// The result of an operation. There is none at a zero divisor, at `DivS` of the least number by
    /// -1, and at a shift by `W` or more.
    #[tactic(auto, using(crate::proofs::Results::kept))]
    pub fn apply(op: BinOp, a: u64, b: u64) -> Option<u64>
        requires width { IsWidth W }
        requires left { a < 2 ^ W }
        requires right { b < 2 ^ W }
        ensures value { result ≡ arith_result W op a b }
        ensures below { IfSome result (λ c. c < 2 ^ W) }
    {
        match op {
            BinOp::Add => Some(Self::trunc(a.wrapping_add(b))),
            BinOp::Sub => Some(Self::trunc(a.wrapping_sub(b))),
            BinOp::Mul => Some(Self::trunc(a.wrapping_mul(b))),
            BinOp::DivS => Self::signed_quotient(a, b),
            BinOp::DivU => a.checked_div(b),
            BinOp::RemS => Self::signed_remainder(a, b),
            BinOp::RemU => a.checked_rem(b),
            BinOp::And => Some(a & b),
            BinOp::Or => Some(a | b),
            BinOp::Xor => Some(a ^ b),
            BinOp::Shl => Self::shifted_left(a, b),
            BinOp::ShrS => Self::signed_shifted_right(a, b),
            BinOp::ShrU => Self::shifted_right(a, b),
            BinOp::MaxS => Some(Self::wrapped(Self::signed(a).max(Self::signed(b)))),
            BinOp::MinS => Some(Self::wrapped(Self::signed(a).min(Self::signed(b)))),
            BinOp::MaxU => Some(a.max(b)),
            BinOp::MinU => Some(a.min(b)),
        }
    }

    /// The result of `DivS`.
    #[tactic(auto, unfolding(crate::specs::Arithmetic::arith_result))]
    fn signed_quotient(a: u64, b: u64) -> Option<u64>
        requires width { IsWidth W }
        requires left { a < 2 ^ W }
        requires right { b < 2 ^ W }
        ensures value { result ≡ arith_result W BinOp.DivS a b }
        ensures below { IfSome result (λ c. c < 2 ^ W) }
    {
        if Self::can_divide(a, b) {
            Some(Self::wrapped(Self::signed(a).wrapping_div(Self::signed(b))))
        } else {
            None
        }
    }

    /// Whether there is a signed quotient.
    #[tactic(auto, using(crate::proofs::Results::least_test, crate::proofs::Results::minus_one_test, crate::proofs::Results::divisible))]
    fn can_divide(a: u64, b: u64) -> bool
        requires width { IsWidth W }
        requires left { a < 2 ^ W }
        requires right { b < 2 ^ W }
        ensures value { result ≡ not (lacks_result W BinOp.DivS a b) }
        ensures fits { IsTrue result → CanDivide w64 (signed_reading W a) (signed_reading W b) }
    {
        b != 0 && !(a == 1 << (W - 1) && b == Self::mask())
    }

    /// The result of `RemS`.
    #[tactic(auto, unfolding(crate::specs::Arithmetic::arith_result), using(crate::proofs::Results::nonzero_reading))]
    fn signed_remainder(a: u64, b: u64) -> Option<u64>
        requires width { IsWidth W }
        requires left { a < 2 ^ W }
        requires right { b < 2 ^ W }
        ensures value { result ≡ arith_result W BinOp.RemS a b }
        ensures below { IfSome result (λ c. c < 2 ^ W) }
    {
        if b == 0 {
            None
        } else {
            Some(Self::wrapped(Self::signed(a).wrapping_rem(Self::signed(b))))
        }
    }

    /// The result of `Shl`.
    #[tactic(auto, unfolding(crate::specs::Arithmetic::arith_result), using(crate::proofs::Results::shl_kept))]
    fn shifted_left(a: u64, b: u64) -> Option<u64>
        requires { IsWidth W }
        ensures value { result ≡ arith_result W BinOp.Shl a b }
        ensures below { IfSome result (λ c. c < 2 ^ W) }
    {
        if b < W as u64 {
            Some(Self::trunc(a << b))
        } else {
            None
        }
    }

    /// The result of `ShrU`.
    #[tactic(auto, unfolding(crate::specs::Arithmetic::arith_result), using(crate::proofs::Results::shr_kept))]
    fn shifted_right(a: u64, b: u64) -> Option<u64>
        requires width { IsWidth W }
        requires left { a < 2 ^ W }
        ensures value { result ≡ arith_result W BinOp.ShrU a b }
        ensures below { IfSome result (λ c. c < 2 ^ W) }
    {
        if b < W as u64 { Some(a >> b) } else { None }
    }

    /// The result of `ShrS`.
    #[tactic(auto, unfolding(crate::specs::Arithmetic::arith_result))]
    fn signed_shifted_right(a: u64, b: u64) -> Option<u64>
        requires width { IsWidth W }
        requires left { a < 2 ^ W }
        ensures value { result ≡ arith_result W BinOp.ShrS a b }
        ensures below { IfSome result (λ c. c < 2 ^ W) }
    {
        if b < W as u64 {
            Some(Self::wrapped(Self::signed(a) >> b))
        } else {
            None
        }
    }

    /// Whether the predicate holds.
    #[tactic(auto, unfolding(crate::specs::Arithmetic::compares))]
    pub fn cmp(pred: Pred, a: u64, b: u64) -> bool
        requires width { IsWidth W }
        requires left { a < 2 ^ W }
        requires right { b < 2 ^ W }
        ensures { result ≡ compares W pred a b }
    {
        match pred {
            Pred::Eq => a == b,
            Pred::Ne => a != b,
            Pred::Slt => Self::signed(a) < Self::signed(b),
            Pred::Sle => Self::signed(a) <= Self::signed(b),
            Pred::Sgt => Self::signed(a) > Self::signed(b),
            Pred::Sge => Self::signed(a) >= Self::signed(b),
            Pred::Ult => a < b,
            Pred::Ule => a <= b,
            Pred::Ugt => a > b,
            Pred::Uge => a >= b,
        }
    }
}
