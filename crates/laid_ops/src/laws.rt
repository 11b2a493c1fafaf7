//! The laws.
ghost use Rattle.laid_ops.specs.Laws.{ModuleIsLaid, SuitedIsLaid};

/// Where operations stand in a function of blocks as `IsPlaced` says, what they use is visible, what they define is new and
/// types are as written, they are laid out there as `IsLaid` says.
pub fn suited_is_laid()
    ensures { SuitedIsLaid }
{}

/// Where the operations of each function of a module are suited, and its parameters are different, the module is laid out in
/// its code of blocks as `AreLaid` says.
pub fn module_is_laid()
    ensures { ModuleIsLaid }
{}
