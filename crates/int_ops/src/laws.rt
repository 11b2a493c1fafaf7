//! Laws of the arithmetic. Each function does nothing: its contract is the law.
ghost use Rattle.int_ops.specs.Laws.{WidthsAreFive, ResidueIsTheOne, ReadingLiesInRange, ReadingGivesBack, ResidueGivesBack, ExtensionKeepsReading, TruncationUndoesExtension, ResultsStayBelow, NoneExactlyWithoutResult, DivisionMakesDividend, LeastByMinusOneLeavesNothing, ExtremesAreOperands, PredicatesComplement};

/// Each `Width` is one of the five numbers of bits.
pub fn widths_are_five()
    ensures { WidthsAreFive }
{}

/// The residue of a whole number modulo `2^W` is the one number below `2^W` that differs from it by
/// a multiple of `2^W`.
pub fn residue_is_the_one()
    ensures { ResidueIsTheOne }
{}

/// A signed reading lies from `-2^(W - 1)` to `2^(W - 1) - 1`.
pub fn reading_lies_in_range()
    ensures { ReadingLiesInRange }
{}

/// A number is the residue of its signed reading.
pub fn reading_gives_back()
    ensures { ReadingGivesBack }
{}

/// A whole number in the range of the signed readings is the signed reading of its residue.
pub fn residue_gives_back()
    ensures { ResidueGivesBack }
{}

/// The extension to 64 bits has the signed reading of the number.
pub fn extension_keeps_reading()
    ensures { ExtensionKeepsReading }
{}

/// The lowest `W` bits of the extension are the number.
pub fn truncation_undoes_extension()
    ensures { TruncationUndoesExtension }
{}

/// A result of `W` bits is below `2^W`.
pub fn results_stay_below()
    ensures { ResultsStayBelow }
{}

/// There is no result at a zero divisor, at the signed quotient of the least number by -1, at a
/// shift by `W` or more, and nowhere else.
pub fn none_exactly_without_result()
    ensures { NoneExactlyWithoutResult }
{}

/// The signed quotient times the divisor and the signed remainder make the dividend.
pub fn division_makes_dividend()
    ensures { DivisionMakesDividend }
{}

/// The signed remainder of the least number by -1 is 0.
pub fn least_by_minus_one_leaves_nothing()
    ensures { LeastByMinusOneLeavesNothing }
{}

/// The greater and the lesser of two numbers are one of them, however they are read.
pub fn extremes_are_operands()
    ensures { ExtremesAreOperands }
{}

/// `Ne`, `Sge`, `Sle`, `Uge` and `Ule` hold where `Eq`, `Slt`, `Sgt`, `Ult` and `Ugt` do not.
pub fn predicates_complement()
    ensures { PredicatesComplement }
{}
