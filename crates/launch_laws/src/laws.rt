//! The laws.
ghost use Rattle.launch_laws.specs.Launches.{LaunchEnablesBoth, LaunchReadiesBoth};

/// After a step that launches a task, the task that took it and the new one are both there, and neither is parked.
pub fn launch_readies_both()
    ensures { LaunchReadiesBoth }
{}

/// So where no task is stuck then, both can go on: their next step is taken, or a full group stops it.
pub fn launch_enables_both()
    ensures { LaunchEnablesBoth }
{
    launch_readies_both();
}
