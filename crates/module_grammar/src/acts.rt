//! What the acts of the grammar make of what is read so far.
pub(crate) mod dispatch;
pub(crate) mod forms;
pub(crate) mod operations;
pub(crate) mod params;
pub(crate) mod parts;
pub(crate) mod regions;
pub(crate) mod tokens;
