//! Each function's contract is a law, for the proofs of other crates to cite.
ghost use Rattle.print_laws.specs.Bytes.{HasFewTokens, IsPlainText};

use op_table::lists_each_kind;

/// A printed text is UTF-8.
pub fn is_plain_text()
    ensures { IsPlainText }
{
    lists_each_kind();
}

/// A text has at most a token for each byte, and the one that ends it.
pub fn has_few_tokens()
    ensures { HasFewTokens }
{}
