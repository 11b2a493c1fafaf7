//! Journals that are replayed.
use crate::code::{
    ALLOCATES_SEVEN, AWAITS_NOBODY, AWAITS_SEVEN, CALLS_ITSELF, DROPS_TOO_MANY, LOADS_A_NUMBER,
    MAKES_TOKENS, NEVER_ENDS, OVERFILLS,
};
use crate::make::{Code, module};
use ir_forms::FuncNo;
use low_forms::LowModule;
use run_journal::{Entry, ReplayFault, TaskLook, read_journal, replay};
use std::alloc::{AllocError, Global};
use std::test::Fail;
use step_core::{Core, End, Limits};

/// No limit but those of numbers, on objects and tasks.
pub(crate) const FREE: Limits = Limits {
    objects: u32::MAX,
    tasks: u32::MAX,
    cells: 16_777_216,
    frames: 1024,
};

/// What a replay comes to: whether the run is finished, how many steps it took and the number that it returns, if it does;
/// or the first entry that isn't possible, and what the run has of its task.
#[derive(Clone, Copy, Debug, PartialEq, Eq)]
enum Comes {
    To(bool, u64, Option<u64>),
    NoRun(u32, Option<TaskLook>),
}

fn replayed(
    alloc: Global,
    code: &Code,
    lines: &[u8],
    limits: Limits,
) -> Result<Option<Comes>, AllocError> {
    let module = module(alloc, code)?;
    match read_journal(alloc, lines) {
        Ok(journal) => in_module(alloc, &module, journal.as_slice(), limits),
        Err(_) => Ok(None),
    }
}

fn in_module(
    alloc: Global,
    module: &LowModule,
    journal: &[Entry],
    limits: Limits,
) -> Result<Option<Comes>, AllocError> {
    if journal.len() > 1000 || module.funcs.is_empty() {
        return Ok(None);
    }
    match replay(alloc, module, FuncNo(0), &[], journal, limits) {
        Ok(core) => Ok(Some(Comes::To(core.finished(), core.counts().steps, first(&core)))),
        Err(ReplayFault::NotARun { entry, kept, .. }) => Ok(Some(Comes::NoRun(entry, kept))),
        Err(ReplayFault::OutOfMemory) => Err(AllocError),
    }
}

fn first(core: &Core<'_>) -> Option<u64> {
    match core.end() {
        Ok(Some(End::Done { results, .. })) => results.get(0).map(|out| out.bits),
        _ => None,
    }
}

/// The task isn't parked, or is, and so many local steps are ahead of it.
const NO_STEP: Option<TaskLook> = Some(TaskLook {
    parked: false,
    local: 0,
});

const ONE_STEP: Option<TaskLook> = Some(TaskLook {
    parked: false,
    local: 1,
});

const THREE_STEPS: Option<TaskLook> = Some(TaskLook {
    parked: false,
    local: 3,
});

const ALL_FRAMES: Option<TaskLook> = Some(TaskLook {
    parked: false,
    local: 1023,
});

const ALL_BUT_ONE: Option<TaskLook> = Some(TaskLook {
    parked: false,
    local: 4095,
});

const ALL_STEPS: Option<TaskLook> = Some(TaskLook {
    parked: false,
    local: 4096,
});

const PARKED: Option<TaskLook> = Some(TaskLook {
    parked: true,
    local: 0,
});

const PARKED_BEFORE_ONE: Option<TaskLook> = Some(TaskLook {
    parked: true,
    local: 1,
});

/// Code, a journal, and what it comes to.
type Row = (Code, &'static str, Comes);

const JOURNALS: [Row; 24] = [
    (
        AWAITS_SEVEN,
        "0 1\n0 0\n0 3\n0 4\n1 2\n1 0\n1 0\n1 3\n0 0\n0 1\n0 1\n",
        Comes::To(true, 26, Some(7)),
    ),
    (AWAITS_SEVEN, "", Comes::To(false, 0, None)),
    (AWAITS_SEVEN, "0 1\n0 0\n0 3\n", Comes::To(false, 7, None)),
    (
        AWAITS_SEVEN,
        "0 1\n0 0\n0 3\n1 2\n1 0\n1 0\n1 3\n0 4\n0 0\n0 1\n0 1\n",
        Comes::To(true, 26, Some(7)),
    ),
    (AWAITS_SEVEN, "1 0\n", Comes::NoRun(0, None)),
    (AWAITS_SEVEN, "0 0\n", Comes::NoRun(0, ONE_STEP)),
    (
        AWAITS_SEVEN,
        "0 1\n0 0\n0 4\n",
        Comes::NoRun(2, THREE_STEPS),
    ),
    (
        AWAITS_SEVEN,
        "0 1\n0 0\n0 3\n0 4\n0 0\n",
        Comes::NoRun(4, PARKED),
    ),
    (
        AWAITS_SEVEN,
        "0 1\n0 0\n0 3\n0 4\n1 2\n1 0\n1 0\n1 3\n1 0\n",
        Comes::NoRun(8, None),
    ),
    (CALLS_ITSELF, "0 1023\n", Comes::NoRun(0, ALL_FRAMES)),
    (LOADS_A_NUMBER, "0 1\n", Comes::NoRun(0, ONE_STEP)),
    (DROPS_TOO_MANY, "0 0\n0 1\n", Comes::NoRun(1, ONE_STEP)),
    (
        AWAITS_NOBODY,
        "0 0\n0 0\n0 1\n",
        Comes::NoRun(2, PARKED_BEFORE_ONE),
    ),
    (NEVER_ENDS, "0 4097\n", Comes::NoRun(0, ALL_STEPS)),
    (NEVER_ENDS, "0 4095\n", Comes::NoRun(0, ALL_STEPS)),
    (NEVER_ENDS, "0 4096\n0 4096\n", Comes::To(false, 8192, None)),
    (
        MAKES_TOKENS,
        "0 4095\n0 4096\n0 0\n0 4096\n",
        Comes::To(false, 12289, None),
    ),
    (MAKES_TOKENS, "0 4094\n", Comes::NoRun(0, ALL_BUT_ONE)),
    (MAKES_TOKENS, "0 4096\n", Comes::NoRun(0, ALL_BUT_ONE)),
    (MAKES_TOKENS, "0 4095\n0 4095\n", Comes::NoRun(1, ALL_STEPS)),
    (
        MAKES_TOKENS,
        "0 4095\n0 4096\n0 1\n",
        Comes::NoRun(2, NO_STEP),
    ),
    (OVERFILLS, "0 1\n0 0\n0 0\n0 0\n", Comes::NoRun(3, NO_STEP)),
    (ALLOCATES_SEVEN, "0 1\n0 0\n", Comes::To(true, 3, None)),
    (ALLOCATES_SEVEN, "4294967295 0\n", Comes::NoRun(0, None)),
];

#[test]
fn journals_come_to_what_they_do(rt: HostRuntime) -> Result<(), Fail> {
    for (code, journal, comes) in JOURNALS {
        let came = replayed(rt.alloc(), &code, journal.as_bytes(), FREE)?;
        assert_eq!(rt; came, Some(comes), "after {journal}");
    }
    Ok(())
}

const LIMITED: [(Code, Limits, Comes); 4] = [
    (
        AWAITS_SEVEN,
        Limits { objects: 1, ..FREE },
        Comes::NoRun(1, NO_STEP),
    ),
    (
        AWAITS_SEVEN,
        Limits { tasks: 1, ..FREE },
        Comes::NoRun(2, THREE_STEPS),
    ),
    (
        ALLOCATES_SEVEN,
        Limits { cells: 6, ..FREE },
        Comes::NoRun(0, ONE_STEP),
    ),
    (
        ALLOCATES_SEVEN,
        Limits { cells: 7, ..FREE },
        Comes::NoRun(2, None),
    ),
];

#[test]
fn what_passes_a_limit_is_no_run(rt: HostRuntime) -> Result<(), Fail> {
    for (code, limits, comes) in LIMITED {
        let journal = b"0 1\n0 0\n0 3\n0 4\n1 2\n1 0\n1 0\n1 3\n0 0\n0 1\n0 1\n";
        let came = replayed(rt.alloc(), &code, journal, limits)?;
        assert_eq!(rt; came, Some(comes));
    }
    Ok(())
}
