//! What holds of the definitions that the calls are measured by, as the contracts of functions that do nothing.

ghost use Rattle.async_cli.specs.Laws.{OwesOneAnswer};

/// What is owed is a function of the words, the bytes and the journal.
pub fn owes_one_answer()
    ensures { OwesOneAnswer }
{
    run_journal::one_journal();
    run_journal::one_bad_line();
    run_journal::no_journal_with_bad_line();
    run_journal::replayed_or_named();
}
