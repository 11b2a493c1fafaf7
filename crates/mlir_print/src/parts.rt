//! The parts that printed texts are made of, for the printers of other texts.
pub use crate::forms::{push_result_types, push_results_if_any};
pub use crate::text::push_text;
pub use crate::tokens::{push_attr, push_number, push_symbol};
pub use crate::types::push_type;
