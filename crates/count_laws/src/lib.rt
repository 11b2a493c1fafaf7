//! What holds of placed counts.
#![tactic(auto)]

ghost use Rattle.count_laws.specs.Laws.{EndsFollow, RowsFollow, StartsFollow};

/// Round an instruction, the number of references that a frame owns of a counted register goes from 1 or 0, as the register
/// is live or not before the instruction, to 1 or 0 as it is live or not behind it, and each step on the way has what it
/// needs.
pub fn rows_follow()
    ensures { RowsFollow }
{}

/// Before a terminator that number becomes what the terminator takes, and what is left is 1 or 0, as the register is live
/// over an edge or not.
pub fn ends_follow()
    ensures { EndsFollow }
{}

/// Where a block begins, behind the drops there, the number is 1 or 0, as the register is live there or not.
pub fn starts_follow()
    ensures { StartsFollow }
{}
