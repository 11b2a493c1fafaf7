//! What holds of lowered texts: each function's contract is a law, for the proofs of other crates to cite.
ghost use Rattle.low_grammar.specs.Texts.{ReadsEachText, ReadsTextsAlone, HasOneCode};

/// Each text of the grammar is read, as the code that it stands for.
pub fn reads_each_text()
    ensures { ReadsEachText }
{}

/// What is read is a text of the grammar, and stands for that code.
pub fn reads_texts_alone()
    ensures { ReadsTextsAlone }
{}

/// A text stands for one code.
pub fn has_one_code()
    ensures { HasOneCode }
{}
