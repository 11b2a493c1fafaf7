//! What holds of printed texts: each function's contract is a law, for the proofs of other crates to cite.
ghost use Rattle.mlir_print.specs.Spelled.{ReadsAsSpelled, TakesWords};

use mlir_lex::{one_reading, read_back};
use op_table::lists_each_kind;

/// The printed text of a module has exactly the tokens that it was made of.
pub fn reads_as_spelled()
    ensures { ReadsAsSpelled }
{
    read_back();
    one_reading();
    lists_each_kind();
}

/// Each token of a printed text takes the bytes that it was made of.
pub fn takes_words()
    ensures { TakesWords }
{}
