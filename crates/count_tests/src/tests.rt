use crate::rows::ROWS;
use crate::show::shown;
use ir_forms::{Level, operation_count, renumber};
use ir_verify::verify;
use low_forms::well_formed;
use mlir_text::{PROGRAM_LIMITS, parse};
use pass_line::{Options, lower};
use std::test::Fail;

const MEBIBYTE: usize = 1 << 20;

const OPTIONS: Options = Options {
    workers: 8,
    least: 1_000,
};

#[test]
fn counts_stand_where_the_rules_say(rt: HostRuntime) -> Result<(), Fail> {
    let alloc = rt.alloc();
    for row in &ROWS {
        assert!(rt; row.text.len() <= MEBIBYTE);
        let program = parse(alloc, row.text.as_bytes(), Level::Source, &PROGRAM_LIMITS).expect(
            &rt, "it reads",
        );
        assert!(rt; operation_count(&program).is_some());
        let verified = verify(alloc, renumber(program)).expect(&rt, "it breaks no rule");
        assert!(rt; verified.level() <= Level::Checked);
        let code = lower(alloc, verified, OPTIONS)?;
        assert!(rt; well_formed(alloc, &code)?, "{}", row.text);
        let func = code.funcs.get(row.func).expect(&rt, "it is there");
        let text = shown(alloc, func, row.first, row.blocks)?;
        assert_eq!(rt; text.as_str(), row.code);
    }
    Ok(())
}
