//! Laws of journals.
ghost use Rattle.run_journal.specs.Laws.{OneJournal, OneBadLine, NoJournalWithBadLine, ImpossibleByCases, ReplayedOrNamed, EntriesWithinArePossible, ReplaysWithinArePossible};

/// A text is the lines of one list of entries at most.
pub fn one_journal()
    ensures { OneJournal }
{}

/// Bytes have one first line at most that isn't an entry.
pub fn one_bad_line()
    ensures { OneBadLine }
{}

/// The lines of entries have no line that isn't an entry.
pub fn no_journal_with_bad_line()
    ensures { NoJournalWithBadLine }
{}

/// An entry isn't possible exactly where its task isn't there, is parked, has another number of local steps,
/// or can't take the step after them.
pub fn impossible_by_cases()
    ensures { ImpossibleByCases }
{}

/// A journal is replayed to its end exactly where no entry of it is named as not possible.
pub fn replayed_or_named()
    ensures { ReplayedOrNamed }
{}

/// An entry that is possible within limits is possible without them, and leads to the same state.
pub fn entries_within_are_possible()
    ensures { EntriesWithinArePossible }
{}

/// So is a journal.
pub fn replays_within_are_possible()
    ensures { ReplaysWithinArePossible }
{}
