//! The laws.
ghost use Rattle.composed_machines.specs.Laws.{ComposedKeeps, ComposedRefines};

/// Where each pass carries its input, the lowered code carries the module.
pub fn composed_keeps()
    ensures { ComposedKeeps }
{}

/// Then its finished runs are, under names, finished runs of the module in some order of tasks.
pub fn composed_refines()
    ensures { ComposedRefines }
{}
