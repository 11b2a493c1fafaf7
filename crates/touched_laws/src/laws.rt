//! The laws.
ghost use Rattle.touched_laws.specs.Touched.{ChangesSeeTouched, StepSeesTouched};

/// A step is the same whatever an object is that it doesn't touch, and leaves that object as it is.
pub fn step_sees_touched()
    ensures { StepSeesTouched }
{}

/// How a step changes counts of references is the same too.
pub fn changes_see_touched()
    ensures { ChangesSeeTouched }
{}
