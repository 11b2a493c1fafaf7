//! The blocks of texts.
use crate::show::show_func;
use crate::texts::TEXTS;
use ir_forms::{Attr, Level, Op, OpKind};
use lists::Items;
use low_forms::well_formed;
use mlir_text::{PROGRAM_LIMITS, parse};
use scf_blocks::blocks_of_module;
use std::alloc::{AllocError, Global};
use std::test::Fail;

const MEBIBYTE: usize = 1 << 20;

/// Makes each launch one of the function `@t`, as outlining does.
fn outline(alloc: Global, ops: &mut [Op]) -> Result<(), AllocError> {
    for i in 0..ops.len() {
        if matches!(ops[i].kind, OpKind::AsyncExecute) {
            ops[i].regions = Items::new(alloc);
            ops[i].attr = Attr::Callee(Items::from_slice(alloc, b"t")?);
        }
    }
    Ok(())
}

#[test]
fn texts_become_blocks(rt: HostRuntime) -> Result<(), Fail> {
    let alloc = rt.alloc();
    for (text, wanted) in TEXTS {
        assert!(rt; text.len() <= MEBIBYTE);
        let mut program = parse(alloc, text.as_bytes(), Level::Split, &PROGRAM_LIMITS).expect(
            &rt, "it reads",
        );
        for func in program.funcs.as_mut_slice() {
            outline(alloc, func.body.ops.as_mut_slice())?;
        }
        let low = blocks_of_module(alloc, &program)?;
        let mut shown = String::new(alloc);
        for func in low.funcs.as_slice() {
            show_func(&mut shown, func)?;
        }
        if well_formed(alloc, &low)? {
            shown.push_str("well formed\n")?;
        }
        assert_eq!(rt; shown.as_str(), wanted, "{text}");
    }
    Ok(())
}
