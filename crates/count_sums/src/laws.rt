//! The laws.
ghost use Rattle.count_sums.specs.Laws.{CountsMove, PointsMove, WritesKeep};

/// A write to a register that has no number leaves what registers own.
pub fn writes_keep()
    ensures { WritesKeep }
{}

/// What registers own where the number of one of them is larger.
pub fn points_move()
    ensures { PointsMove }
{}

/// What registers own where numbers are larger by how often registers stand in a list.
pub fn counts_move()
    ensures { CountsMove }
{}
