//! The laws.
ghost use Rattle.block_laws.specs.Laws.{NumbersWithin, EdgesSplit, NoneSaved, AllAssigned, WellFormedIfFits};

/// Registers, blocks and functions that the code names are there.
pub fn numbers_within()
    ensures { NumbersWithin }
{}

/// No edge is critical, and none leads to the first block.
pub fn edges_split()
    ensures { EdgesSplit }
{}

/// Code of structured operations has no saves, suspends and counts.
pub fn none_saved()
    ensures { NoneSaved }
{}

/// Each use of a register is assigned on every path that leads to it.
pub fn all_assigned()
    ensures { AllAssigned }
{}

/// Code of a module whose functions use only what is visible is well formed where its rows fit.
pub fn well_formed_if_fits()
    ensures { WellFormedIfFits }
{}
