//! From a text to the printed text of its code.
use crate::texts::TEXTS;
use ir_forms::{Level, operation_count, renumber};
use ir_verify::verify;
use mlir_text::{PROGRAM_LIMITS, parse};
use pass_line::{Options, compile};
use std::test::Fail;

const MEBIBYTE: usize = 1 << 20;

const OPTIONS: Options = Options {
    workers: 8,
    least: 1_000,
};

#[test]
fn code_prints_as_expected(rt: HostRuntime) -> Result<(), Fail> {
    let alloc = rt.alloc();
    for (text, expected) in TEXTS {
        assert!(rt; text.len() <= MEBIBYTE);
        let program = parse(alloc, text.as_bytes(), Level::Source, &PROGRAM_LIMITS).expect(
            &rt, "it reads",
        );
        assert!(rt; operation_count(&program).is_some());
        let verified = verify(alloc, renumber(program)).expect(&rt, "it breaks no rule");
        assert!(rt; verified.level() <= Level::Checked);
        let made = compile(alloc, verified, OPTIONS)?;
        assert_eq!(rt; made.texts.runtime.as_str(), expected);
    }
    Ok(())
}
