//! Lists and counting.
pub(crate) mod copies;
pub(crate) mod counting;
pub(crate) mod room;
