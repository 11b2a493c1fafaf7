//! What numbering the registers does: each function's contract is a law.
ghost use Rattle.register_laws.specs.Laws.{RenumberedWellFormed, TypesStay};

/// A register that is defined keeps its type under its new number.
pub fn types_stay()
    ensures { TypesStay }
{}

/// Where each function is well formed and uses only what it defines, each is well formed with its
/// registers numbered in the order of the text.
pub fn renumbered_well_formed()
    ensures { RenumberedWellFormed }
{}
