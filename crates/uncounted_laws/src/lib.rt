//! Well formed code without counts is as the pass of counts asks.
#![tactic(auto)]

ghost use Rattle.uncounted_laws.specs.Laws.{PlainCodeUncounted, PlainCodeOwns};

/// A well formed function that is no coroutine, whose registers are defined once each, whose blocks are all reached, and in
/// which nothing saves, counts, sets an object or awaits at the end of a block, is as the ownership of its counts asks.
pub fn plain_code_uncounted()
    ensures { PlainCodeUncounted }
{}

/// So with its counts it owns one reference of each object whose register is live, and none of another.
pub fn plain_code_owns()
    ensures { PlainCodeOwns }
{}
