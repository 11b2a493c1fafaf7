//! Laws of stacks, over their definitions alone.
ghost use Rattle.task_stack.specs.Worked.{WorkedStacks};
ghost use Rattle.task_stack.specs.Laws.{EffectsFitTheTable};

/// The definitions compute what each worked function comes to.
pub fn worked_stacks()
    ensures { WorkedStacks }
{}

/// What the instructions do fits what the table says of how they are stepped.
pub fn effects_fit_the_table()
    ensures { EffectsFitTheTable }
{}
