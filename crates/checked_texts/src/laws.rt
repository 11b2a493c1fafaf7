//! The laws.
ghost use Rattle.checked_texts.specs.Laws.{CheckedIsPrintable};

use check_insert::checked_is_sound;
use number_laws::values_in_order;

/// A printable module with its checks is printable.
pub fn checked_is_printable()
    ensures { CheckedIsPrintable }
{
    checked_is_sound();
    values_in_order();
}
