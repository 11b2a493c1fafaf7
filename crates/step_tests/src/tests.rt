use crate::data::{
    adds, adds_to_two, adds_twice, allocates, awaits_task, casts, compares, computes, deeper,
    fills, fills_memory, launches_two, nine_tokens, nothing, stores_and_loads, task, value_new,
    value_used,
};
use crate::make::{
    A, BIT, GROUP, HANDLE, Line, NO, OTHER_GROUP, STATE, TOKEN, VALUE, counts, ends, module, on,
    row,
};
use ir_forms::{FuncNo, TaskNo};
use low_forms::OpKind;
use std::alloc::{AllocError, Global};
use std::test::Fail;
use step_core::{Core, Limit, Limits, RootEnd, Step};

const LIMITS: Limits = Limits {
    objects: 8,
    tasks: 2,
    cells: 16,
    frames: 1024,
};

const WIDE: Limits = Limits {
    cells: 16_777_216,
    ..LIMITS
};

/// So many steps of a task, each of which answers so.
type Taken = (u32, u32, Step);

/// What is seen of a run: how many tasks, objects and steps were made, and the root's end.
type Seen = (u32, u32, u64, Ending);

#[derive(Clone, Copy, PartialEq, Eq)]
enum Ending {
    None,
    Returned(u64),
    Failed(u32),
}

fn seen_end(core: &Core) -> Ending {
    match core.root_end() {
        None => Ending::None,
        Some(RootEnd::FailedAt { op }) => Ending::Failed(*op),
        Some(RootEnd::Returned { results }) => match results.get(0) {
            Some(out) => Ending::Returned(out.bits),
            None => Ending::None,
        },
    }
}

/// Whether the step answers so, and the task was enabled exactly where it isn't refused.
fn answers(core: &mut Core, task: u32, answer: Step) -> Result<bool, AllocError> {
    if !core.has_numbers() {
        return Ok(false);
    }
    let enabled = core.enabled(TaskNo(task));
    let taken = core.step(TaskNo(task))?;
    Ok(taken == answer && enabled == (taken != Step::NotReady))
}

fn all_answer(core: &mut Core, steps: &[Taken]) -> Result<bool, AllocError> {
    for (task, times, answer) in steps {
        for _turn in 0..*times {
            if !answers(core, *task, *answer)? {
                return Ok(false);
            }
        }
    }
    Ok(true)
}

/// Whether the steps of a run of this code answer so, and it comes to this.
fn holds(
    alloc: Global,
    main: &[Line],
    second: &[Line],
    steps: &[Taken],
    seen: Seen,
) -> Result<bool, AllocError> {
    holds_within(alloc, main, second, LIMITS, steps, seen)
}

/// The same of a run with other limits.
fn holds_within(
    alloc: Global,
    main: &[Line],
    second: &[Line],
    limits: Limits,
    steps: &[Taken],
    seen: Seen,
) -> Result<bool, AllocError> {
    let code = module(alloc, main, second.len() > 2, second)?;
    if code.funcs.is_empty() {
        return Ok(false);
    }
    let mut core = Core::start(alloc, &code, FuncNo(0), &[], limits)?;
    if !all_answer(&mut core, steps)? {
        return Ok(false);
    }
    let counts = core.counts();
    Ok((counts.tasks, counts.objects, counts.steps, seen_end(&core)) == seen)
}

#[test]
fn cells_and_limits(rt: HostRuntime) -> Result<(), Fail> {
    let alloc = rt.alloc();
    let none = nothing();
    let fine = Step::Stepped;
    let over = |used| Step::Stop(Limit::Cells { used });
    assert!(rt;
        holds(
            alloc,
            &stores_and_loads(),
            &none,
            &[(1, 1, Step::NotReady), (0, 8, fine), (0, 1, Step::NotReady)],
            (0, 0, 8, Ending::Returned(77))
        )?
    );
    assert!(rt;
        holds(
            alloc,
            &allocates(16, 0),
            &none,
            &[(0, 4, fine), (0, 2, Step::NotReady)],
            (0, 0, 4, Ending::None)
        )?
    );
    assert!(rt;
        holds(
            alloc,
            &allocates(17, 0),
            &none,
            &[(0, 1, fine), (0, 2, over(0))],
            (0, 0, 1, Ending::None)
        )?
    );
    assert!(rt;
        holds(
            alloc,
            &allocates(16, 1),
            &none,
            &[(0, 3, fine), (0, 1, over(16))],
            (0, 0, 3, Ending::None)
        )?
    );
    assert!(rt;
        holds(
            alloc,
            &allocates(16_777_216, 0),
            &none,
            &[(0, 1, fine), (0, 1, over(0))],
            (0, 0, 1, Ending::None)
        )?
    );
    assert!(rt;
        holds(
            alloc,
            &allocates(16_777_217, 0),
            &none,
            &[(0, 1, fine), (0, 1, Step::NotReady)],
            (0, 0, 1, Ending::None)
        )?
    );
    let objects = Step::Stop(Limit::Objects { live: 8 });
    assert!(rt;
        holds(
            alloc,
            &nine_tokens(),
            &none,
            &[(0, 8, fine), (0, 1, objects)],
            (0, 8, 8, Ending::None)
        )?
    );
    let deep = Step::Stop(Limit::Stack { depth: 1024 });
    assert!(rt;
        holds(
            alloc,
            &deeper(),
            &deeper(),
            &[(0, 1023, fine), (0, 1, deep)],
            (0, 0, 1023, Ending::None)
        )?
    );
    Ok(())
}

#[test]
fn as_many_cells_as_may_be(rt: HostRuntime) -> Result<(), Fail> {
    let full = Step::Stop(Limit::Cells { used: 16_777_216 });
    assert!(rt;
        holds_within(
            rt.alloc(),
            &fills_memory(),
            &nothing(),
            WIDE,
            &[(0, 6, Step::Stepped), (0, 1, full)],
            (0, 0, 6, Ending::None)
        )?
    );
    Ok(())
}

/// Operations, two numbers, and the result, if there is one.
const NUMBERS: [(OpKind, u64, u64, Option<u64>); 26] = [
    (OpKind::ArithAddi, u64::MAX, 2, Some(1)),
    (OpKind::ArithSubi, 1, 2, Some(u64::MAX)),
    (OpKind::ArithMuli, u64::MAX, u64::MAX, Some(1)),
    (OpKind::ArithDivui, u64::MAX, 2, Some(u64::MAX >> 1)),
    (OpKind::ArithDivui, 1, 0, None),
    (OpKind::ArithDivsi, u64::MAX, 1, Some(u64::MAX)),
    (OpKind::ArithDivsi, 1 << 63, u64::MAX, None),
    (OpKind::ArithRemui, u64::MAX, 16, Some(15)),
    (OpKind::ArithRemui, 1, 0, None),
    (OpKind::ArithRemsi, u64::MAX, 16, Some(u64::MAX)),
    (OpKind::ArithRemsi, 1, 0, None),
    (OpKind::ArithAndi, 12, 10, Some(8)),
    (OpKind::ArithOri, 12, 10, Some(14)),
    (OpKind::ArithXori, 12, 10, Some(6)),
    (OpKind::ArithShli, 1, 63, Some(1 << 63)),
    (OpKind::ArithShli, 1, 64, None),
    (OpKind::ArithShrui, 1 << 63, 63, Some(1)),
    (OpKind::ArithShrui, 1, 64, None),
    (OpKind::ArithShrsi, 1 << 63, 63, Some(u64::MAX)),
    (OpKind::ArithShrsi, 1, 64, None),
    (OpKind::ArithMaxui, u64::MAX, 1, Some(u64::MAX)),
    (OpKind::ArithMaxsi, u64::MAX, 1, Some(1)),
    (OpKind::ArithMinui, u64::MAX, 1, Some(1)),
    (OpKind::ArithMinsi, u64::MAX, 1, Some(u64::MAX)),
    (OpKind::ArithIndexCast, 7, 0, Some(7)),
    (OpKind::ArithIndexCastui, 7, 0, Some(7)),
];

#[test]
fn numbers(rt: HostRuntime) -> Result<(), Fail> {
    let alloc = rt.alloc();
    let none = nothing();
    let fine = Step::Stepped;
    for (kind, left, right, result) in NUMBERS {
        let code = computes(kind, left, right);
        let passed = match result {
            Some(bits) => holds(
                alloc,
                &code,
                &none,
                &[(0, 4, fine)],
                (0, 0, 4, Ending::Returned(bits)),
            )?,
            None => holds(
                alloc,
                &code,
                &none,
                &[(0, 2, fine), (0, 1, Step::NotReady)],
                (0, 0, 2, Ending::None),
            )?,
        };
        assert!(rt; passed, "of {left} and {right}");
    }
    for (left, right, result) in [(3, 4, 3), (4, 4, 4), (9, 5, 5)] {
        assert!(rt;
            holds(
                alloc,
                &compares(left, right),
                &none,
                &[(0, 9, fine)],
                (0, 0, 9, Ending::Returned(result))
            )?
        );
    }
    for (from, back, result) in [
        (2, OpKind::ArithExtui, 0),
        (3, OpKind::ArithExtui, 1),
        (3, OpKind::ArithExtsi, u64::MAX),
    ] {
        assert!(rt;
            holds(
                alloc,
                &casts(from, back),
                &none,
                &[(0, 4, fine)],
                (0, 0, 4, Ending::Returned(result))
            )?
        );
    }
    Ok(())
}

#[test]
fn objects_and_groups(rt: HostRuntime) -> Result<(), Fail> {
    let alloc = rt.alloc();
    let none = nothing();
    let fine = Step::Stepped;
    let full = Step::Stop(Limit::Group { size: 1 });
    assert!(rt;
        holds(
            alloc,
            &adds_twice(2, OpKind::AsyncRuntimeSetAvailable),
            &none,
            &[(0, 9, fine)],
            (0, 2, 9, Ending::Returned(0))
        )?
    );
    assert!(rt;
        holds(
            alloc,
            &adds_twice(2, OpKind::AsyncRuntimeSetError),
            &none,
            &[(0, 9, fine)],
            (0, 2, 9, Ending::Returned(1))
        )?
    );
    assert!(rt;
        holds(
            alloc,
            &adds_twice(1, OpKind::AsyncRuntimeSetError),
            &none,
            &[(0, 4, fine), (0, 1, full)],
            (0, 2, 4, Ending::None)
        )?
    );
    assert!(rt;
        holds(
            alloc,
            &adds_twice(3, OpKind::AsyncRuntimeSetError),
            &none,
            &[(0, 7, fine), (0, 1, Step::NotReady)],
            (0, 2, 7, Ending::None)
        )?
    );
    assert!(rt;
        holds(
            alloc,
            &adds_to_two(OpKind::AsyncRuntimeSetAvailable, adds(GROUP, OTHER_GROUP)),
            &none,
            &[(0, 9, fine), (0, 1, Step::NotReady)],
            (0, 3, 9, Ending::None)
        )?
    );
    let look = row(OpKind::AsyncRuntimeIsError, [OTHER_GROUP, NO, NO], BIT);
    for (set, error) in [
        (OpKind::AsyncRuntimeSetAvailable, 0),
        (OpKind::AsyncRuntimeSetError, 1),
    ] {
        assert!(rt;
            holds(
                alloc,
                &adds_to_two(set, look),
                &none,
                &[(0, 11, fine)],
                (0, 3, 11, Ending::Returned(error))
            )?
        );
    }
    let empty = Step::Stop(Limit::Group { size: 0 });
    assert!(rt;
        holds(
            alloc,
            &fills(2),
            &none,
            &[(0, 6, fine)],
            (0, 2, 6, Ending::Returned(1))
        )?
    );
    assert!(rt;
        holds(
            alloc,
            &fills(0),
            &none,
            &[(0, 3, fine), (0, 1, empty)],
            (0, 2, 3, Ending::None)
        )?
    );
    Ok(())
}

#[test]
fn values(rt: HostRuntime) -> Result<(), Fail> {
    let alloc = rt.alloc();
    let none = nothing();
    let load = row(OpKind::AsyncRuntimeLoad, [VALUE, NO, NO], A);
    let store = row(OpKind::AsyncRuntimeStore, [A, VALUE, NO], NO);
    let look = row(OpKind::AsyncRuntimeIsError, [VALUE, NO, NO], A);
    let set = on(OpKind::AsyncRuntimeSetAvailable, VALUE);
    let add = row(OpKind::AsyncRuntimeAddToGroup, [VALUE, VALUE, NO], A);
    let drop_all = counts(OpKind::AsyncRuntimeDropRef, VALUE, 2);
    let drop_last = counts(OpKind::AsyncRuntimeDropRef, VALUE, 1);
    for line in [store, set, add, drop_all] {
        assert!(rt;
            holds(
                alloc,
                &value_used(line),
                &none,
                &[(0, 7, Step::Stepped), (0, 1, Step::NotReady)],
                (0, 1, 7, Ending::None)
            )?
        );
    }
    for line in [load, drop_last] {
        assert!(rt;
            holds(
                alloc,
                &value_used(line),
                &none,
                &[(0, 9, Step::Stepped)],
                (0, 1, 9, Ending::Returned(7))
            )?
        );
    }
    for line in [
        load,
        look,
        drop_all,
        on(OpKind::AsyncRuntimeAwait, TOKEN),
        on(OpKind::AsyncRuntimeResume, HANDLE),
        row(OpKind::AsyncRuntimeAwaitAndResume, [VALUE, HANDLE, NO], NO),
        on(OpKind::AsyncRuntimeSetError, GROUP),
        row(OpKind::AsyncRuntimeAddToGroup, [VALUE, TOKEN, NO], A),
        row(OpKind::MemrefLoad, [VALUE, A, NO], A),
        row(OpKind::MemrefStore, [A, VALUE, A], NO),
        row(OpKind::MemrefDim, [VALUE, A, NO], A),
        on(OpKind::AsyncCoroSuspend, STATE),
        ends(on(OpKind::AioFinish, NO), [NO, NO, NO]),
    ] {
        assert!(rt;
            holds(
                alloc,
                &value_new(line),
                &none,
                &[(0, 1, Step::Stepped), (0, 1, Step::NotReady)],
                (0, 1, 1, Ending::None)
            )?
        );
    }
    Ok(())
}

#[test]
fn tasks(rt: HostRuntime) -> Result<(), Fail> {
    let alloc = rt.alloc();
    let fine = Step::Stepped;
    let good = task(OpKind::AsyncRuntimeSetAvailable);
    let bad = task(OpKind::AsyncRuntimeSetError);
    let first = [
        (1, 1, Step::NotReady),
        (0, 10, fine),
        (1, 13, fine),
        (1, 1, Step::NotReady),
        (0, 7, fine),
    ];
    assert!(rt;
        holds(
            alloc,
            &awaits_task(),
            &good,
            &first,
            (1, 3, 30, Ending::Returned(7))
        )?
    );
    let parked = [
        (0, 12, fine),
        (0, 1, Step::NotReady),
        (1, 13, fine),
        (0, 5, fine),
    ];
    assert!(rt;
        holds(
            alloc,
            &awaits_task(),
            &good,
            &parked,
            (1, 3, 30, Ending::Returned(7))
        )?
    );
    assert!(rt;
        holds(
            alloc,
            &awaits_task(),
            &bad,
            &parked,
            (1, 3, 30, Ending::Failed(5))
        )?
    );
    let many = [
        (0, 16, fine),
        (0, 1, Step::Stop(Limit::Tasks { live: 2 })),
        (1, 13, fine),
        (0, 5, fine),
    ];
    assert!(rt;
        holds(
            alloc,
            &launches_two(),
            &good,
            &many,
            (2, 5, 34, Ending::Returned(0))
        )?
    );
    Ok(())
}
