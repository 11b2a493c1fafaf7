//! The laws.
ghost use Rattle.outline_laws.specs.Laws.{FunctionsFound, TasksFound, TasksInOrder};

/// The functions of a module come first, under their names, and then those of its tasks by their numbers.
pub fn tasks_in_order()
    ensures { TasksInOrder }
{}

/// The name of a function finds it among them as before.
pub fn functions_found()
    ensures { FunctionsFound }
{}

/// The name of a task finds the function of the task, where a module has at most 2^64 tasks.
pub fn tasks_found()
    ensures { TasksFound }
{}
