//! The laws.
ghost use Rattle.outlined_code.specs.Laws.{AcceptedCodeWellFormed, OutlinedTyped};

/// Where a module is sound and is the meaning of its printed text, the types of all operations fit once its tasks, at
/// most 2^64, are functions.
pub fn outlined_typed()
    ensures { OutlinedTyped }
{}

/// Where besides each function has at most 2^32 blocks then, its code with coroutines is well formed.
pub fn accepted_code_well_formed()
    ensures { AcceptedCodeWellFormed }
{}
