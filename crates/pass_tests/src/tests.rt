//! Each pass on texts.
use crate::checked::TEXTS;
use crate::failing::FAILING;
use crate::told::told;
use check_insert::insert_checks;
use ir_forms::Level;
use ir_verify::verify;
use mlir_print::print;
use mlir_text::{PROGRAM_LIMITS, parse};
use std::test::Fail;

const MEBIBYTE: usize = 1 << 20;

#[test]
fn inserts_checks(rt: HostRuntime) -> Result<(), Fail> {
    let alloc = rt.alloc();
    for (text, wanted) in TEXTS {
        assert!(rt; text.len() <= MEBIBYTE);
        let module = parse(alloc, text.as_bytes(), Level::Source, &PROGRAM_LIMITS).expect(
            &rt, "it reads",
        );
        let source = verify(alloc, module).expect(&rt, "it breaks no rule");
        assert!(rt; source.level() <= Level::Checked);
        let done = insert_checks(alloc, source)?;
        assert!(rt; done.level() == Level::Checked);
        let printed = print(alloc, done.module())?;
        assert_eq!(rt; printed.as_str(), wanted, "{text}");
    }
    Ok(())
}

#[test]
fn fails_alike(rt: HostRuntime) -> Result<(), Fail> {
    let alloc = rt.alloc();
    for (text, args, wanted) in FAILING {
        assert!(rt; text.len() <= MEBIBYTE);
        let module = parse(alloc, text.as_bytes(), Level::Source, &PROGRAM_LIMITS).expect(
            &rt, "it reads",
        );
        let source = verify(alloc, module).expect(&rt, "it breaks no rule");
        let before = told(alloc, &source, args)?;
        assert_eq!(rt; before.as_str(), wanted, "{text}");
        assert!(rt; source.level() <= Level::Checked);
        let done = insert_checks(alloc, source)?;
        let after = told(alloc, &done, args)?;
        assert_eq!(rt; after.as_str(), wanted, "{text}");
    }
    Ok(())
}
