//! What holds of the whole table: each function's contract is a law, for the proofs of other crates to cite.
ghost use Rattle.op_table.specs.Laws.{FindsEachName, FindsExactly, FindsInBodies, HasDistinctNames, ListsBodyKinds, ListsEachKind, StandsOn};

/// Each kind is found by its own name.
pub fn finds_each_name()
    ensures { FindsEachName }
{}

/// No two kinds have one name.
pub fn has_distinct_names()
    ensures { HasDistinctNames }
{}

/// A kind that is found has the name, and where none is found no kind has it.
pub fn finds_exactly()
    ensures { FindsExactly }
{}

/// A test that passes at all kinds of the list passes at each kind, so a rule for all kinds can be computed.
pub fn lists_each_kind()
    ensures { ListsEachKind }
{}

/// A kind that stands at a level stands at each later one.
pub fn stands_on()
    ensures { StandsOn }
{}

/// By name, a kind is found among those of function bodies exactly where it is found and stands there.
pub fn finds_in_bodies()
    ensures { FindsInBodies }
{}

/// A test that passes at all kinds of function bodies of a level passes at each kind that stands there.
pub fn lists_body_kinds()
    ensures { ListsBodyKinds }
{}
