//! The laws that a reader of texts stands on, as the contracts of functions that do nothing. `grammar_laws` has the others.
ghost use Rattle.module_grammar.specs.Faults.{AcceptsExactly, NamesFirstFault};

/// The module is that of a text within the limits, exactly where it is the answer.
pub fn accepts_exactly()
    ensures { AcceptsExactly }
{}

/// Each fault that is answered is the first of the text.
pub fn names_first_fault()
    ensures { NamesFirstFault }
{}
