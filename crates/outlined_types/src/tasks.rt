//! The laws of tasks' functions.
ghost use Rattle.outlined_types.specs.Tasks.{LaunchRowsFit, TasksTyped};

/// A launch of a task, with values of the types of its parameters, which gives a token and a value for each of its
/// results, fits its row.
pub fn launch_rows_fit()
    ensures { LaunchRowsFit }
{}

/// The function of a task is typed where the operations of its region are, with the region's parameters beside those
/// of the function: it awaits its dependencies and its values first.
pub fn tasks_typed()
    ensures { TasksTyped }
{}
