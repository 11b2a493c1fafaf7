ghost use Rattle.std.specs.Prelude.{◌≡◌};
ghost use Rattle.run_journal.specs.declared.faults.JournalFault.TheVariants.{OutOfMemory};
ghost use Rattle.run_journal.specs.declared.faults.ReplayFault.TheVariants.{OutOfMemory as NoMemory};

use std::alloc::{AllocError, AllocFailed};
use std::fmt;
use step_core::Entry;
use thiserror::Error;

/// Why bytes aren't a journal.
#[derive(Clone, Copy, Debug, PartialEq, Eq, Error)]
pub enum JournalFault {
    /// The first line, counted from 1, that isn't an entry.
    #[error("line {line} of the journal isn't an entry")]
    BadLine { line: u32 },
    #[error("out of memory")]
    OutOfMemory,
}

impl From<AllocError> for JournalFault {
    ghost from_gives = { λ _ fault. fault ≡ OutOfMemory };

    fn from(_error: AllocError) -> JournalFault {
        JournalFault::OutOfMemory
    }
}

impl<T: Drop> From<AllocFailed<T>> for JournalFault {
    ghost from_gives = { λ _ fault. fault ≡ OutOfMemory };

    fn from(_error: AllocFailed<T>) -> JournalFault {
        JournalFault::OutOfMemory
    }
}

/// What a run has of a task that a journal names: whether it is parked, and how many local steps it can
/// take in a row, at most 4,096. Those of a parked task are counted from behind its await, by its stack alone.
#[derive(Clone, Copy, Debug, PartialEq, Eq)]
pub struct TaskLook {
    pub parked: bool,
    pub local: u32,
}

/// Why a journal isn't replayed.
#[derive(Clone, Copy, PartialEq, Eq, Error)]
pub enum ReplayFault {
    /// The number, from 0, of the first entry that isn't possible, the entry, and what the run has of the
    /// task that it names, if that task is there.
    #[error("entry {entry} of the journal isn't possible")]
    NotARun {
        entry: u32,
        named: Entry,
        kept: Option<TaskLook>,
    },
    #[error("out of memory")]
    OutOfMemory,
}

impl fmt::Debug for ReplayFault {
    fn fmt<W: fmt::Write>(&self, f: &mut fmt::Formatter<W>) -> fmt::Result {
        write!(f, "{self}")
    }
}

impl From<AllocError> for ReplayFault {
    ghost from_gives = { λ _ fault. fault ≡ NoMemory };

    fn from(_error: AllocError) -> ReplayFault {
        ReplayFault::OutOfMemory
    }
}
