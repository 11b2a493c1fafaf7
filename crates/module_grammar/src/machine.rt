//! The machine that reads tokens by the table of rules.
pub(crate) mod choose;
pub(crate) mod reader;
pub(crate) mod rows;
pub(crate) mod stack;
