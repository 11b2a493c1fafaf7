//! The halving of ranges of blocks, and how blocks cover the iterations of a loop: each function's contract is a law.
#![tactic(auto)]

ghost use Rattle.halving.specs.Laws.{BlocksBegin, BlocksFollow, IterationHasBlock, IterationHasOneBlock, LastBlockEnds, LoopLaunches, SizeFits, SumsFit, TreeCovers, TreeHalves, TreeLaunches};

/// A range of one block is the block; of more it is a launch of the upper half before the lower half.
pub fn tree_halves()
    ensures { TreeHalves }
{}

/// The tree of a range has each of its blocks once, in their order.
pub fn tree_covers()
    ensures { TreeCovers }
{}

/// It has one launch less than blocks.
pub fn tree_launches()
    ensures { TreeLaunches }
{}

/// The loop that hands on upper halves launches the tree of a range.
pub fn loop_launches()
    ensures { LoopLaunches }
{}

/// A loop with iterations has blocks of one or more, and no more in a block than in all.
pub fn size_fits()
    ensures { SizeFits }
{}

/// Each block has an iteration.
pub fn blocks_begin()
    ensures { BlocksBegin }
{}

/// A block ends where the next one begins.
pub fn blocks_follow()
    ensures { BlocksFollow }
{}

/// The last block ends where the iterations end.
pub fn last_block_ends()
    ensures { LastBlockEnds }
{}

/// An iteration stands in the block of its quotient by the size of blocks.
pub fn iteration_has_block()
    ensures { IterationHasBlock }
{}

/// It stands in no other block.
pub fn iteration_has_one_block()
    ensures { IterationHasOneBlock }
{}

/// No sum that is made for blocks passes 64 bits.
pub fn sums_fit()
    ensures { SumsFit }
{}
