//! The laws.
ghost use Rattle.half_laws.specs.Laws.{BlocksHalfLowered, LoweredWellFormed};

/// The blocks of a module whose functions use only what is visible are half-lowered: launches and awaits are
/// rows of their own, no row of coroutines stands in them, and blocks that stay use only what such blocks define.
pub fn blocks_half_lowered()
    ensures { BlocksHalfLowered }
{}

/// Where moreover the rows of the blocks fit, the code with coroutines is well formed.
pub fn lowered_well_formed()
    ensures { LoweredWellFormed }
{}
