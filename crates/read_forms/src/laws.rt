//! What holds of modules that are read: each function's contract is a law, for the proofs of other crates to cite.
ghost use Rattle.read_forms.specs.Depths.{ReadsDepth, SeesNoDeeper};
ghost use Rattle.read_forms.specs.Reads.{ParsesPrintable, ReadsPrintable};

use module_grammar::accepts_exactly;

/// The module of a text, where it has no unknown value, is the meaning of its printed text.
pub fn reads_printable()
    ensures { ReadsPrintable }
{}

/// The same of a module that a reader answers within its limits.
pub fn parses_printable()
    ensures { ParsesPrintable }
{
    accepts_exactly();
    reads_printable();
}

/// The module of a text is no deeper than the reader saw.
pub fn reads_depth()
    ensures { ReadsDepth }
{}

/// The reader sees no deeper than the text's module is.
pub fn sees_no_deeper()
    ensures { SeesNoDeeper }
{}
