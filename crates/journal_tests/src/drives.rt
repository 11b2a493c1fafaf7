//! Runs on one thread.
ghost use Rattle.serial_run.specs.Outcomes.{IsStart};

use crate::code::{
    AWAITS_NOBODY, AWAITS_SEVEN, CALLS_ITSELF, DROPS_TOO_MANY, LAUNCHES, LOADS_A_NUMBER, NEVER_ENDS,
};
use crate::make::{Code, module};
use crate::replays::FREE;
use ir_forms::FuncNo;
use low_forms::LowModule;
use run_journal::journal_text;
use serial_run::{Outcome, drive};
use std::alloc::{AllocError, Global};
use std::test::Fail;
use step_core::{Core, Limit, Limits};

/// How a run of this code ends, and its journal's text.
fn ends(
    alloc: Global,
    code: &Code,
    most: u32,
    limits: Limits,
) -> Result<(Outcome, String), AllocError> {
    let module = module(alloc, code)?;
    started(alloc, &module, most, limits)
}

fn started(
    alloc: Global,
    module: &LowModule,
    most: u32,
    limits: Limits,
) -> Result<(Outcome, String), AllocError> {
    if module.funcs.is_empty() {
        return Err(AllocError);
    }
    match Core::start(alloc, module, FuncNo(0), &[], limits) {
        Ok(mut core) => driven(alloc, &mut core, most),
        Err(_) => Err(AllocError),
    }
}

fn driven(alloc: Global, core: &mut Core<'_>, most: u32) -> Result<(Outcome, String), AllocError>
    requires { IsStart core.old.core }
{
    let mut journal = Vec::new(alloc);
    let outcome = drive(alloc, core, &mut journal, most.min(1_000_000))?;
    let text = journal_text(alloc, journal.as_slice())?;
    Ok((outcome, text))
}

/// Code, the most entries, limits, and how the run ends, with its journal.
type Row = (Code, u32, Limits, Outcome, &'static str);

const ONE_OBJECT: Limits = Limits {
    objects: 1,
    tasks: 9,
    cells: 9,
    frames: 1024,
};

const ONE_TASK: Limits = Limits {
    objects: 9,
    tasks: 1,
    cells: 9,
    frames: 1024,
};

const RUNS: [Row; 11] = [
    (
        AWAITS_SEVEN,
        11,
        FREE,
        Outcome::Finished,
        "0 1\n0 0\n0 3\n0 4\n1 2\n1 0\n1 0\n1 3\n0 0\n0 1\n0 1\n",
    ),
    (
        AWAITS_SEVEN,
        10,
        FREE,
        Outcome::Spent,
        "0 1\n0 0\n0 3\n0 4\n1 2\n1 0\n1 0\n1 3\n0 0\n0 1\n",
    ),
    (AWAITS_SEVEN, 0, FREE, Outcome::Spent, ""),
    (
        NEVER_ENDS,
        3,
        FREE,
        Outcome::Spent,
        "0 4096\n0 4096\n0 4096\n",
    ),
    (
        AWAITS_SEVEN,
        11,
        ONE_OBJECT,
        Outcome::Stopped(Limit::Objects { live: 1 }),
        "0 1\n",
    ),
    (
        AWAITS_SEVEN,
        11,
        ONE_TASK,
        Outcome::Stopped(Limit::Tasks { live: 1 }),
        "0 1\n0 0\n",
    ),
    (
        CALLS_ITSELF,
        11,
        FREE,
        Outcome::Stopped(Limit::Stack { depth: 1024 }),
        "",
    ),
    (
        AWAITS_NOBODY,
        11,
        FREE,
        Outcome::Short { parked: 1 },
        "0 0\n0 0\n",
    ),
    (AWAITS_NOBODY, 2, FREE, Outcome::Spent, "0 0\n0 0\n"),
    (LOADS_A_NUMBER, 11, FREE, Outcome::Short { parked: 1 }, ""),
    (
        DROPS_TOO_MANY,
        11,
        FREE,
        Outcome::Short { parked: 1 },
        "0 0\n",
    ),
];

#[test]
fn runs_end_as_they_do(rt: HostRuntime) -> Result<(), Fail> {
    for (code, most, limits, outcome, journal) in RUNS {
        let (ended, text) = ends(rt.alloc(), &code, most, limits)?;
        assert_eq!(rt; text.as_str(), journal);
        assert!(rt; ended == outcome);
    }
    Ok(())
}

#[test]
fn a_thousand_tasks_take_turns(rt: HostRuntime) -> Result<(), Fail> {
    let (outcome, text) = ends(rt.alloc(), &LAUNCHES, 1_000_000, FREE)?;
    let begins = text.as_str().starts_with("0 7\n0 0\n0 3\n0 10\n");
    let last = text.as_str().ends_with("1000 2\n1000 0\n1000 0\n1000 3\n");
    assert!(rt; outcome == Outcome::Finished && begins && last);
    Ok(())
}
