//! What guards an operation, by its kind.
ghost use Rattle.std.specs.Prelude.{◌≡◌};
ghost use Rattle.check_insert.specs.Shape as shape;
ghost use Rattle.check_insert.specs.Shape.{message};

use ir_forms::OpKind;

/// How an operation can fail, and so what is asserted before it.
#[derive(Clone, Copy)]
pub enum Guard {
    /// It can't.
    Nothing,
    /// Its divisor may be zero.
    Divisor,
    /// Its divisor may be zero, or its signed quotient too great.
    Quotient,
    /// It may shift by the width or more.
    Shift,
    /// An index may be no index of its dimension.
    Load,
    Store,
    /// The buffer may have no dimension of this number.
    Dimension,
    /// A size or a product of sizes may be out of range.
    Alloc,
    /// The group's size may be out of range.
    Group,
    /// A bound or the step may be out of range.
    Bounds,
    /// The same, or there may be too many turns.
    Parallel,
}

/// What guards an operation of this kind.
pub(crate) fn guard_of(kind: OpKind) -> Guard
    ensures { result ≡ shape.guard_of kind }
{
    match kind {
        OpKind::ArithDivsi => Guard::Quotient,
        OpKind::ArithDivui | OpKind::ArithRemsi | OpKind::ArithRemui => Guard::Divisor,
        OpKind::ArithShli | OpKind::ArithShrsi | OpKind::ArithShrui => Guard::Shift,
        OpKind::AsyncCreateGroup => Guard::Group,
        OpKind::MemrefAlloc => Guard::Alloc,
        OpKind::MemrefDim => Guard::Dimension,
        OpKind::MemrefLoad => Guard::Load,
        OpKind::MemrefStore => Guard::Store,
        OpKind::ScfFor => Guard::Bounds,
        OpKind::ScfParallel => Guard::Parallel,
        _ => Guard::Nothing,
    }
}

impl Guard {
    /// What its assertions say where they fail.
    pub(crate) fn message(self) -> &'static str
        ensures { result.now ≡ message self }
    {
        match self {
            Guard::Nothing => "",
            Guard::Divisor | Guard::Quotient => "division has no result",
            Guard::Shift => "shift out of range",
            Guard::Load | Guard::Store | Guard::Dimension => "index out of range",
            Guard::Alloc => "allocation out of range",
            Guard::Group => "group size out of range",
            Guard::Bounds => "loop bounds out of range",
            Guard::Parallel => "parallel loop failed",
        }
    }
}
