//! The laws.
ghost use Rattle.plain_rows.specs.Laws.{AssertionsFit, AwaitsFit, CallsFit, PlainRowsFit};

/// An operation that breaks no rule where it stands, and has what its form writes, fits the row that it becomes,
/// with the types that its operands have there. Launches, calls and awaits are no such operations.
pub fn plain_rows_fit()
    ensures { PlainRowsFit }
{}

/// What such an await awaits is a token, a value or a group, and gives what the await gives.
pub fn awaits_fit()
    ensures { AwaitsFit }
{}

/// Such an assertion has a truth.
pub fn assertions_fit()
    ensures { AssertionsFit }
{}

/// Such a call names a function, takes values of its parameters' types and gives its results' types.
pub fn calls_fit()
    ensures { CallsFit }
{}
