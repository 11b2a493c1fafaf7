//! Why a text is refused: limits, and the first token that doesn't fit.
pub(crate) mod limits;
pub(crate) mod places;
pub(crate) mod refusal;
