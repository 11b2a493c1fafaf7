//! What numbering the operations of a module does, as laws over the definitions.
ghost use Rattle.ir_forms.specs.Numbers.{NumbersInOrder, RenumberedOnce, NumbersAlone};

/// The operations of a numbered module have the numbers from 1 on, in the order of the text.
pub fn numbers_in_order()
    ensures { NumbersInOrder }
{}

/// Numbering twice is numbering once.
pub fn renumbered_once()
    ensures { RenumberedOnce }
{}

/// Numbering changes nothing but the numbers.
pub fn numbers_alone()
    ensures { NumbersAlone }
{}
