//! The laws.
ghost use Rattle.line_laws.specs.Laws.{FunctionsStand, OneCode, SameTexts, TextsWithCode};
ghost use Rattle.line_laws.specs.Parallels.{NoneMade};

use check_insert::checked_is_sound;

/// Each function of a sound module stands in its code at its own number.
pub fn functions_stand()
    ensures { FunctionsStand }
{
    checked_is_sound();
}

/// A module has one code.
pub fn one_code()
    ensures { OneCode }
{}

/// With its texts a module has the same code.
pub fn texts_with_code()
    ensures { TextsWithCode }
{}

/// The texts of a module are the same.
pub fn same_texts()
    ensures { SameTexts }
{}

/// Checks and the functions of tasks make no parallel loop where there was none.
pub fn no_parallel_is_made()
    ensures { NoneMade }
{}
