//! What is nearest round an operation.
/// What is nearest round an operation: a function, the region of an `async.execute`, or the body of
/// a parallel loop.
#[derive(Clone, Copy, PartialEq, Eq)]
pub enum Nest {
    InFunction,
    InTask,
    InLoop,
}
