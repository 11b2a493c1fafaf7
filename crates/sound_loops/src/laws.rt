//! The laws.
ghost use Rattle.sound_loops.specs.Laws.{BlockFuncIsSound, SerialLoopIsFine};

/// The function of a block breaks no rule, where the function of its iterations is there.
pub fn block_func_is_sound()
    ensures { BlockFuncIsSound }
{}

/// The serial loops that stand in a parallel loop's place break no rule.
pub fn serial_loop_is_fine()
    ensures { SerialLoopIsFine }
{}
