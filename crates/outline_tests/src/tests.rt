//! The pass on texts.
use crate::launches::launches;
use crate::texts::TEXTS;
use exec_outline::outline;
use ir_forms::Level;
use ir_verify::verify;
use mlir_print::print;
use mlir_text::{PROGRAM_LIMITS, parse};
use std::test::Fail;

const MEBIBYTE: usize = 1 << 20;

#[test]
fn makes_functions_of_tasks(rt: HostRuntime) -> Result<(), Fail> {
    let alloc = rt.alloc();
    for (text, wanted, launched) in TEXTS {
        assert!(rt; text.len() <= MEBIBYTE);
        let module = parse(alloc, text.as_bytes(), Level::Source, &PROGRAM_LIMITS).expect(
            &rt, "it reads",
        );
        let split = verify(alloc, module).expect(&rt, "it breaks no rule");
        assert!(rt; split.level() <= Level::Split);
        let made = outline(alloc, split)?;
        let printed = print(alloc, made.functions())?;
        assert_eq!(rt; printed.as_str(), wanted, "{text}");
        let lines = launches(alloc, made.functions())?;
        assert_eq!(rt; lines.as_slice(), launched.as_bytes());
        let functions = made.into_functions();
        assert!(rt; !functions.funcs.is_empty());
    }
    Ok(())
}
