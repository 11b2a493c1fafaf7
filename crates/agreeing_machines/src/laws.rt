//! The laws.
ghost use Rattle.agreeing_machines.specs.Laws.{AgreeingCarry, RenamedCarry};

use carry_laws::Alike;

/// The machines of programs whose tasks agree one by one carry each other.
pub fn agreeing_carry<A: Alike>()
    ensures { AgreeingCarry A.like A.kept }
{}

/// So do those of a program and the same with its values under other names.
pub fn renamed_carry()
    ensures { RenamedCarry }
{}
