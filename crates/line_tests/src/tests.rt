//! All passes, on texts.
use crate::texts::TEXTS;
use crate::worked::WORKED;
use ir_forms::{Level, operation_count, renumber};
use ir_verify::verify;
use low_forms::well_formed;
use mlir_text::{PROGRAM_LIMITS, parse};
use pass_line::{Options, compile, lower, push_texts};
use std::test::Fail;

const MEBIBYTE: usize = 1 << 20;

const OPTIONS: Options = Options {
    workers: 8,
    least: 1_000,
};

#[test]
fn texts_have_well_formed_code(rt: HostRuntime) -> Result<(), Fail> {
    let alloc = rt.alloc();
    for (text, funcs) in TEXTS {
        assert!(rt; text.len() <= MEBIBYTE);
        let program = parse(alloc, text.as_bytes(), Level::Source, &PROGRAM_LIMITS).expect(
            &rt, "it reads",
        );
        assert!(rt; operation_count(&program).is_some());
        let verified = verify(alloc, renumber(program)).expect(&rt, "it breaks no rule");
        assert!(rt; verified.level() <= Level::Checked);
        let code = lower(alloc, verified, OPTIONS)?;
        assert!(rt; well_formed(alloc, &code)?, "{text}");
        assert_eq!(rt; code.funcs.len(), funcs, "{text}");
    }
    Ok(())
}

#[test]
fn passes_make_these_texts(rt: HostRuntime) -> Result<(), Fail> {
    let alloc = rt.alloc();
    for row in &WORKED {
        assert!(rt; row.text.len() <= MEBIBYTE);
        let program = parse(alloc, row.text.as_bytes(), Level::Source, &PROGRAM_LIMITS).expect(
            &rt, "it reads",
        );
        assert!(rt; operation_count(&program).is_some());
        let verified = verify(alloc, renumber(program)).expect(&rt, "it breaks no rule");
        assert!(rt; verified.level() <= Level::Checked);
        let options = Options {
            workers: row.workers,
            least: row.least,
        };
        let made = compile(alloc, verified, options)?;
        let expected = format!(in alloc;
            "// async-parallel-for\n{}// async-to-async-runtime\n{}// async-runtime-ref-counting\n{}// async-runtime-ref-counting-opt\n{}",
            row.split, row.runtime, row.counted, row.counted
        )?;
        let mut text = Vec::new(alloc);
        push_texts(&mut text, &made.texts)?;
        assert_eq!(rt; made.texts.split.as_str(), row.split);
        assert_eq!(rt; made.texts.runtime.as_str(), row.runtime);
        assert_eq!(rt; made.texts.counted.as_str(), row.counted);
        assert!(rt; text.as_slice() == expected.as_bytes());
    }
    Ok(())
}
