//! The laws of the meaning, over its definitions alone.
ghost use Rattle.meaning_laws.specs.RenamedSteps.{StepIsRenamed};
ghost use Rattle.meaning_laws.specs.Turns.{TurnsAreReached};
ghost use Rattle.meaning_laws.specs.Worked.{WorkedModules};
ghost use Rattle.source_meaning.specs.Renaming.{NextIsRenamed};
ghost use Rattle.source_meaning.specs.Runs.{SequentialIsARun, MoreFuelIsTheSame};
ghost use Rattle.source_meaning.specs.TaskOrder.{TasksFollowAnswers};

/// What a task is depends on how it began and on the answers to its steps alone.
pub fn tasks_follow_answers()
    ensures { TasksFollowAnswers }
{}

/// A task whose values have other names takes the same steps.
pub fn next_is_renamed()
    ensures { NextIsRenamed }
{}

/// So does it, and what it asks for, launched tasks and loops, has the other names too.
pub fn step_is_renamed()
    ensures { StepIsRenamed }
{}

/// A sequential run that ends by its root is one of the runs in any order of tasks.
pub fn sequential_is_a_run()
    ensures { SequentialIsARun }
{}

/// Each state that a sequential run comes to is one of a run in some order, as what is shared and shown and the task that
/// takes its turn say.
pub fn turns_are_reached()
    ensures { TurnsAreReached }
{}

/// More fuel changes nothing where the fuel wasn't spent.
pub fn more_fuel_is_the_same()
    ensures { MoreFuelIsTheSame }
{}

/// The definitions compute what each worked module comes to.
pub fn worked_modules()
    ensures { WorkedModules }
{}
