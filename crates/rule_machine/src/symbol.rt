//! What lines of rules are made of.

/// A word of a class, a rule, or an action.
#[derive(Clone, Copy)]
pub enum Symbol<C, R, A> {
    Word(C),
    Rule(R),
    Do(A),
}
