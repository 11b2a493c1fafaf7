//! Integer arithmetic at the widths of `i1`, `i8`, `i16`, `i32`, `i64` and `index`.
//!
//! A number of `W` bits is a `u64` below `2^W`. It is read as it stands or as a signed number, as
//! each operation and each predicate says.
#![tactic(auto)]

ghost use Rattle.std.specs.Prelude.{◌≡◌, ◌^◌, ◌<◌, IfSome};
ghost use Rattle.int_ops.specs.Arithmetic.{bits_of, arith_result, compares};

mod fixed;
pub mod laws;

pub use fixed::Int;

/// How many bits a number has; an `index` has 64.
#[derive(Clone, Copy, PartialEq, Eq)]
pub enum Width {
    W1,
    W8,
    W16,
    W32,
    W64,
}

impl Width {
    /// The number of bits.
    pub fn bits(self) -> u32
        ensures { result ≡ bits_of self }
    {
        match self {
            Width::W1 => 1,
            Width::W8 => 8,
            Width::W16 => 16,
            Width::W32 => 32,
            Width::W64 => 64,
        }
    }
}

/// The operations on two numbers of one width. `S` reads both as signed numbers, `U` as they stand.
#[derive(Clone, Copy, PartialEq, Eq, Debug)]
pub enum BinOp {
    Add,
    Sub,
    Mul,
    /// The quotient, rounded toward zero.
    DivS,
    DivU,
    /// The remainder, with the dividend's sign.
    RemS,
    RemU,
    And,
    Or,
    Xor,
    Shl,
    /// The shift to the right that copies the sign bit.
    ShrS,
    ShrU,
    MaxS,
    MinS,
    MaxU,
    MinU,
}

/// The comparisons of two numbers of one width. `S` reads both as signed numbers, `U` as they stand.
#[derive(Clone, Copy, PartialEq, Eq, Debug)]
pub enum Pred {
    Eq,
    Ne,
    Slt,
    Sle,
    Sgt,
    Sge,
    Ult,
    Ule,
    Ugt,
    Uge,
}

/// The arms of a `match` on a width, each the operation at that width.
macro_rules! apply_arms {
    ($width:expr, $op:expr, $a:expr, $b:expr; $($variant:ident = $bits:literal),*) => {
        match $width {
            $(Width::$variant => Int::<$bits>::apply($op, $a, $b),)*
        }
    };
}

/// The arms of a `match` on a width, each the comparison at that width.
macro_rules! cmp_arms {
    ($width:expr, $pred:expr, $a:expr, $b:expr; $($variant:ident = $bits:literal),*) => {
        match $width {
            $(Width::$variant => Int::<$bits>::cmp($pred, $a, $b),)*
        }
    };
}

/// The result of an operation at a width that is known only when the program runs. There is none at
/// a zero divisor, at `DivS` of the least number by -1, and at a shift by the width or more.
pub fn apply_at(width: Width, op: BinOp, a: u64, b: u64) -> Option<u64>
    requires left { a < 2 ^ bits_of width }
    requires right { b < 2 ^ bits_of width }
    ensures value { result ≡ arith_result (bits_of width) op a b }
    ensures below { IfSome result (λ c. c < 2 ^ bits_of width) }
{
    apply_arms!(width, op, a, b; W1 = 1, W8 = 8, W16 = 16, W32 = 32, W64 = 64)
}

/// Whether the predicate holds at a width that is known only when the program runs.
pub fn cmp_at(width: Width, pred: Pred, a: u64, b: u64) -> bool
    requires left { a < 2 ^ bits_of width }
    requires right { b < 2 ^ bits_of width }
    ensures { result ≡ compares (bits_of width) pred a b }
{
    cmp_arms!(width, pred, a, b; W1 = 1, W8 = 8, W16 = 16, W32 = 32, W64 = 64)
}

#[cfg(test)]
mod tests;
