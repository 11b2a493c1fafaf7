//! A run of code, on one thread.
ghost use Rattle.serial_run.specs.Outcomes.{IsStart};

use ir_forms::FuncNo;
use low_forms::LowModule;
use serial_run::{Outcome, drive};
use std::alloc::{AllocError, Global};
use step_core::{Core, Counts, Limits};

/// What a run may have at most.
const LIMITS: Limits = Limits {
    objects: 1_000_000,
    tasks: 1_000_000,
    cells: 1_000_000,
    frames: 1_024,
};

/// The most entries that its journal has.
const MOST: u32 = 1 << 24;

/// How a run ended, and how much was made in it.
#[derive(Clone, Copy)]
pub struct Ran {
    pub ended: &'static str,
    pub counts: Counts,
}

/// Runs the first function, with no arguments.
pub fn run(alloc: Global, code: &LowModule) -> Result<Ran, AllocError> {
    if code.funcs.is_empty() {
        return Err(AllocError);
    }
    match Core::start(alloc, code, FuncNo(0), &[], LIMITS) {
        Ok(mut core) => Ok(driven(alloc, &mut core)),
        Err(_) => Err(AllocError),
    }
}

fn driven(alloc: Global, core: &mut Core<'_>) -> Ran
    requires { IsStart core.old.core }
{
    let mut journal = Vec::new(alloc);
    let outcome = drive(alloc, core, &mut journal, MOST);
    Ran {
        ended: ended(outcome),
        counts: core.counts(),
    }
}

fn ended(outcome: Result<Outcome, AllocError>) -> &'static str {
    match outcome {
        Ok(Outcome::Finished) => "finished",
        Ok(Outcome::Short { parked: _ }) => "short",
        Ok(Outcome::Stopped(_)) => "stopped",
        Ok(Outcome::Spent) => "spent",
        Err(_) => "out of memory",
    }
}
