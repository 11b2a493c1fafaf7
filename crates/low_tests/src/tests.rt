use crate::data::{
    Edit, awaiting, broken_awaiting, broken_giving, broken_high, broken_main, broken_task,
    constant, fitting_main, giving, high, main_lines, task_lines,
};
use crate::make::{Line, NO, alone, end, inner, module};
use low_forms::{OpKind, well_formed};
use std::alloc::{AllocError, Global};
use std::test::Fail;

fn edited(alloc: Global, lines: &[Line], edits: &[Edit]) -> Result<Vec<Line>, AllocError> {
    let mut edited = Vec::from_slice(alloc, lines)?;
    for (place, line) in edits {
        if *place < edited.len() {
            edited[*place] = *line;
        }
    }
    Ok(edited)
}

fn is_fine(
    alloc: Global,
    main: &[Line],
    params: &[u32],
    task: &[Line],
) -> Result<bool, AllocError> {
    let code = module(alloc, main, params, task)?;
    well_formed(alloc, &code)
}

fn holds(alloc: Global, main: &[Edit], task: &[Edit]) -> Result<bool, AllocError> {
    let main = edited(alloc, &main_lines(), main)?;
    let task = edited(alloc, &task_lines(), task)?;
    is_fine(alloc, &main, &[], &task)
}

/// Whether no one of these more edits is accepted.
fn none_holds(
    alloc: Global,
    edits: &[Edit],
    broken: &[Edit],
    in_main: bool,
) -> Result<bool, AllocError> {
    for edit in broken {
        let mut all = Vec::from_slice(alloc, edits)?;
        all.push(*edit)?;
        let is = if in_main {
            holds(alloc, &all, &[])?
        } else {
            holds(alloc, &[], &all)?
        };
        if is {
            return Ok(false);
        }
    }
    Ok(true)
}

#[test]
fn each_sentence_is_asked(rt: HostRuntime) -> Result<(), Fail> {
    let alloc = rt.alloc();
    assert!(rt; holds(alloc, &[], &[])?);
    assert!(rt; holds(alloc, &fitting_main(), &[])?);
    assert!(rt; holds(alloc, &[], &awaiting())?);
    assert!(rt; holds(alloc, &[], &giving())?);
    assert!(rt; holds(alloc, &high(), &[])?);
    assert!(rt; none_holds(alloc, &[], &broken_main(), true)?);
    assert!(rt; none_holds(alloc, &[], &broken_task(), false)?);
    assert!(rt; none_holds(alloc, &awaiting(), &broken_awaiting(), false)?);
    assert!(rt; none_holds(alloc, &giving(), &broken_giving(), false)?);
    assert!(rt; none_holds(alloc, &high(), &broken_high(), true)?);
    assert!(rt; !is_fine(alloc, &main_lines(), &[7], &task_lines())?);
    assert!(rt; !is_fine(alloc, &[], &[], &task_lines())?);
    Ok(())
}

/// Additions in a row, and then blocks in a row, each of which uses what the first one assigned.
fn long(alloc: Global, additions: u32, blocks: u32) -> Result<Vec<Line>, AllocError> {
    let mut lines = Vec::new(alloc);
    lines.push(constant(3, 1))?;
    for turn in 0..additions {
        let sum = [turn.wrapping_add(4), NO];
        lines.push(inner(OpKind::ArithAddi, [turn.wrapping_add(3), 3], sum))?;
    }
    for block in 0..blocks {
        let next = block.wrapping_add(1);
        lines.push(end(OpKind::CfBr, [NO, NO], [next, NO, NO]))?;
        let used = block.wrapping_add(4);
        lines.push(inner(OpKind::ArithMuli, [3, used], [used, NO]))?;
    }
    lines.push(end(OpKind::FuncReturn, [3, NO], [NO, NO, NO]))?;
    Ok(lines)
}

fn long_is_fine(alloc: Global, additions: u32, blocks: u32) -> Result<bool, AllocError> {
    let lines = long(alloc, additions, blocks)?;
    let code = alone(alloc, &lines, additions.wrapping_add(1))?;
    well_formed(alloc, &code)
}

#[test]
fn long_functions_are_quick(rt: HostRuntime) -> Result<(), Fail> {
    let alloc = rt.alloc();
    assert!(rt; long_is_fine(alloc, 65_536, 0)?);
    assert!(rt; long_is_fine(alloc, 10_000, 10_000)?);
    Ok(())
}
