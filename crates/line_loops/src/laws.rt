//! The laws.
ghost use Rattle.line_loops.specs.Laws.{LoweredHasNoLoop, NoneIsFound, TasksBringNone};

use check_insert::checked_is_sound;
use split_kinds::no_loop_is_left;

/// The functions of tasks bring no parallel loop, nor an end of its region.
pub fn tasks_bring_none()
    ensures { TasksBringNone }
{}

/// Where there is none, none is found.
pub fn none_is_found()
    ensures { NoneIsFound }
{}

/// The code that all passes make of a module that breaks no rule is that of a module without parallel loops.
pub fn lowered_has_no_loop()
    ensures { LoweredHasNoLoop }
{
    checked_is_sound();
    no_loop_is_left();
}
