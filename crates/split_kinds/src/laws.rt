//! The laws.
ghost use Rattle.split_kinds.specs.Laws.{NoLoopIsLeft, SplitHasLevel};

/// Of a module that breaks no rule no parallel loop is left, nor an end of its region.
pub fn no_loop_is_left()
    ensures { NoLoopIsLeft }
{}

/// A module at the level of split loops, or below it, stands there without its loops.
pub fn split_has_level()
    ensures { SplitHasLevel }
{}
