//! The laws.
ghost use Rattle.checked_values.specs.Laws.{CheckedInOrder};

use number_laws::values_in_order;

/// A module with its checks defines no value twice if the module doesn't, and its values are numbered in the order of the text.
pub fn checked_in_order()
    ensures { CheckedInOrder }
{
    values_in_order();
}
