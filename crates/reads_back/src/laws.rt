//! What holds of printing and reading: each function's contract is a law, for the proofs of other crates to cite.
ghost use Rattle.reads_back.specs.ReadsBack.{PrintsBack, ReadsBack};

use mlir_lex::one_reading;
use mlir_print::{reads_as_spelled, takes_words};
use print_laws::{has_few_tokens, is_plain_text};
use read_forms::{reads_depth, reads_printable, sees_no_deeper};
use round_trip::gives_back;
use text_laws::reads_texts;

/// The printed text of a printable module stands for it.
pub fn prints_back()
    ensures { PrintsBack }
{
    one_reading();
    reads_as_spelled();
    takes_words();
    is_plain_text();
    has_few_tokens();
    sees_no_deeper();
    gives_back();
}

/// What is read without an unknown operand, and printed, is read as the same.
pub fn reads_back()
    ensures { ReadsBack }
{
    prints_back();
    reads_printable();
    reads_depth();
    reads_texts();
}
