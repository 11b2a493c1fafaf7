//! The pass on texts.
use crate::deeper::DEEPER;
use crate::texts::{Splitting, TEXTS};
use check_insert::insert_checks;
use ir_forms::{Level, operation_count, renumber};
use ir_verify::verify;
use mlir_print::print;
use mlir_text::{PROGRAM_LIMITS, parse};
use parallel_for::{Options, split_parallel};
use std::alloc::Global;
use std::process::Abort;
use std::test::Fail;

const MEBIBYTE: usize = 1 << 20;

fn assert_splitting(rt: &impl Abort, alloc: Global, splitting: Splitting) -> Result<(), Fail> {
    let (text, workers, least, wanted) = splitting;
    assert!(rt; text.len() <= MEBIBYTE);
    let program = parse(alloc, text.as_bytes(), Level::Source, &PROGRAM_LIMITS).expect(
        rt, "it reads",
    );
    assert!(rt; operation_count(&program).is_some());
    let verified = verify(alloc, renumber(program)).expect(rt, "it breaks no rule");
    assert!(rt; verified.level() <= Level::Checked);
    let checked = insert_checks(alloc, verified)?;
    let made = split_parallel(alloc, checked, Options { workers, least })?;
    let printed = print(alloc, made.functions())?;
    assert_eq!(rt; printed.as_str(), wanted, "{text}");
    Ok(())
}

#[test]
fn splits_parallel_loops(rt: HostRuntime) -> Result<(), Fail> {
    for splitting in TEXTS {
        assert_splitting(&rt, rt.alloc(), splitting)?;
    }
    for splitting in DEEPER {
        assert_splitting(&rt, rt.alloc(), splitting)?;
    }
    Ok(())
}
