//! What tokens write: which class they are of, the numbers, strings and names that they stand for.
pub(crate) mod bytes;
pub(crate) mod classes;
pub(crate) mod names;
pub(crate) mod numbers;
pub(crate) mod strings;
