//! What holds of the bytes of printed texts, and of the tokens of a text against its bytes.
#![tactic(auto)]

mod laws;

pub use laws::{has_few_tokens, is_plain_text};
