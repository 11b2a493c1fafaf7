//! Plain code stays plain under the numbers of its text.
#![tactic(auto)]

ghost use Rattle.numbered_plain.specs.Laws.{NumbersKeepPlain, NumberedCodeOwns};

/// Numbering the registers of a function keeps what the ownership of its counts asks of it: each register that was defined
/// once is still defined once.
pub fn numbers_keep_plain()
    ensures { NumbersKeepPlain }
{}

/// So plain code that is well formed under the numbers of its text owns, with its counts, what is live.
pub fn numbered_code_owns()
    ensures { NumberedCodeOwns }
{}
