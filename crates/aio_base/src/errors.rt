//! What reading and writing answer where they fail.

use thiserror::Error;

/// A read failed: the source's count of faults rose, and no byte was read.
#[derive(Clone, Copy, Debug, PartialEq, Eq, Error)]
#[error("a read failed")]
pub struct ReadFailed;

/// A write failed: the sink's count of faults rose, and no byte was taken.
#[derive(Clone, Copy, Debug, PartialEq, Eq, Error)]
#[error("a write failed")]
pub struct WriteFailed;

/// Why [`read_all`](crate::read_all) did not read to the end.
#[derive(Clone, Copy, Debug, PartialEq, Eq, Error)]
pub enum ReadAllError {
    /// A read failed.
    #[error("a read failed")]
    ReadFault,
    /// There are more bytes than the limit.
    #[error("more than {limit} bytes")]
    TooLong { limit: usize },
    #[error("out of memory")]
    OutOfMemory,
}

/// A write failed after the first `written` bytes were taken.
#[derive(Clone, Copy, Debug, PartialEq, Eq, Error)]
#[error("a write failed after {written} bytes")]
pub struct WriteFault {
    pub written: u64,
}
