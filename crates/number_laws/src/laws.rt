ghost use Rattle.number_laws.specs.Laws.{NumberedOnce, NumberingIsARenaming, ValuesInOrder};

/// Where each operand is a value that its function defines, numbering the values renames them, and
/// no two values of a function get one name.
pub fn numbering_is_a_renaming()
    ensures { NumberingIsARenaming }
{}

/// Where no value is defined twice, the values of a numbered function are 0, 1, 2 and so on, in the
/// order of the text.
pub fn values_in_order()
    ensures { ValuesInOrder }
{}

/// Numbering twice is numbering once.
pub fn numbered_once()
    ensures { NumberedOnce }
{}
