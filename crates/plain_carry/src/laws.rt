//! The laws.
ghost use Rattle.plain_carry.specs.Laws.{BoundAlike, CellsAlike, ComputedAlike, InnerAlike, OperandsAlike};

/// Registers that are alike hold values that are alike.
pub fn operands_alike()
    ensures { OperandsAlike }
{}

/// They stay alike where the same registers take values that are alike.
pub fn bound_alike()
    ensures { BoundAlike }
{}

/// From values that are alike the same number is computed, or in both codes none: constants, binary
/// arithmetic, comparisons, `select`, casts, `memref.dim`, and the zeros of coroutine rows.
pub fn computed_alike()
    ensures { ComputedAlike }
{}

/// An instruction that a task takes alone, other than a call of a coroutine or a save, moves both
/// stacks behind it with results that are alike, or is no such step in either code.
pub fn inner_alike()
    ensures { InnerAlike }
{}

/// `memref.alloc`, `dealloc`, `load` and `store` do the same to the same buffers and show the same, or are stuck in
/// both codes.
pub fn cells_alike()
    ensures { CellsAlike }
{}
