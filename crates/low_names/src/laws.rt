//! The laws, as the contracts of functions that do nothing.
ghost use Rattle.low_names.specs.Order.{GivesNumbersBack};
ghost use Rattle.low_names.specs.Worked.{WorkedCodeComesBack};

/// Code whose registers are numbered in the order of its text is what its names stand for.
pub fn gives_numbers_back()
    ensures { GivesNumbersBack }
{}

/// The printed tokens of worked code are read as its names, which stand for it.
pub fn worked_code_comes_back()
    ensures { WorkedCodeComesBack }
{}
