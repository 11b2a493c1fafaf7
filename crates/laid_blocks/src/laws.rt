//! The laws.
ghost use Rattle.laid_blocks.specs.Laws.{BlocksArePlaced, ModuleIsPlaced};

/// The operations of a function stand in its blocks as `IsPlaced` says: which instruction, terminator and parameters are at
/// each place, which types registers have, and where each failure leads to.
pub fn blocks_are_placed()
    ensures { BlocksArePlaced }
{}

/// So it is for each function of a module, and a function keeps its place.
pub fn module_is_placed()
    ensures { ModuleIsPlaced }
{}
