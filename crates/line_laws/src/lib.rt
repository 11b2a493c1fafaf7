//! What the code of a module keeps of it, and that it is one.
#![tactic(auto)]

mod laws;

pub use laws::{functions_stand, no_parallel_is_made, one_code, same_texts, texts_with_code};
