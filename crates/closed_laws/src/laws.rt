//! The laws.
ghost use Rattle.closed_laws.specs.Laws.{TypedCodeWellFormed};

/// Where the types of a module's operations fit, each function has at most 2^32 blocks, and values hold what tasks
/// give, the code with coroutines is well formed.
pub fn typed_code_well_formed()
    ensures { TypedCodeWellFormed }
{}
