//! A printed text is a text of the grammar, and stands for the module that was printed.
#![tactic(auto)]

mod laws;

pub use laws::gives_back;
