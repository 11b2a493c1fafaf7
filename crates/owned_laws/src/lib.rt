//! Code with counts owns what its counts say.
#![tactic(auto)]

ghost use Rattle.owned_laws.specs.Laws.{PlainFunctionsOwn};

/// With its counts, a function that is no coroutine owns one reference of each object whose register is live, and none of
/// another: these numbers are an ownership table of it.
pub fn plain_functions_own()
    ensures { PlainFunctionsOwn }
{}
