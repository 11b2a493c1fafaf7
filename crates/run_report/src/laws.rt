//! What holds of the messages of every module.
ghost use Rattle.run_report.specs.Laws.{FindsNotes};

/// What is found in the list of a module's messages is the message of its first operation that has this number and one.
pub fn finds_notes()
    ensures { FindsNotes }
{}
