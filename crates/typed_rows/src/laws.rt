//! The laws.
ghost use Rattle.typed_rows.specs.Laws.{TypedIsClosed, TypedRowsFit, TypedWellFormed};

/// Operations whose types fit use only what is visible.
pub fn typed_is_closed()
    ensures { TypedIsClosed }
{}

/// Each instruction and terminator of their blocks fits its row.
pub fn typed_rows_fit()
    ensures { TypedRowsFit }
{}

/// The blocks of a module whose types fit are well formed.
pub fn typed_well_formed()
    ensures { TypedWellFormed }
{}
