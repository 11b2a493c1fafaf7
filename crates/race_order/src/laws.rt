//! Laws of races, over their definitions alone.
ghost use Rattle.race_order.specs.Race.{FirstRaceIsExact, LastTellsAll};
ghost use Rattle.race_order.specs.Worked.{WorkedRaces};

/// The computed first race is the one with the least later entry, and there with the least earlier one; it is none exactly
/// where the trace is ordered.
pub fn first_race_is_exact()
    ensures { FirstRaceIsExact }
{}

/// An entry that races with some entry of a task races with the later ones of that task that it is in conflict with; so it
/// is enough to keep the last entries of each task.
pub fn last_entries_tell_all()
    ensures { LastTellsAll }
{}

/// The first races of some small traces.
pub fn worked_races()
    ensures { WorkedRaces }
{}
