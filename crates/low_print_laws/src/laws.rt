//! The laws, as the contracts of functions that do nothing.
ghost use Rattle.low_print_laws.specs.Spelled.{ReadsAsSpelled, TakesWords};

use mlir_lex::{one_reading, read_back};
use op_table::lists_each_kind;

/// The printed text of code has exactly the tokens that it was made of.
pub fn reads_as_spelled()
    ensures { ReadsAsSpelled }
{
    read_back();
    one_reading();
    lists_each_kind();
}

/// Each token of a printed text of code takes the bytes that it was made of.
pub fn takes_words()
    ensures { TakesWords }
{}
