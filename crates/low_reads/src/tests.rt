//! Printed texts are read as the code that prints them; faults stand at the first token that doesn't fit.
use crate::texts::{FAULTS, OTHERS, TEXTS};
use low_parse::{LowFault, parse_low};
use low_print::print_low;
use std::alloc::Global;
use std::process::Abort;
use std::test::Fail;

const MEBIBYTE: usize = 1 << 20;

/// The text of the code that the text is read as.
fn printed(rt: &impl Abort, alloc: Global, text: &str) -> Result<String, Fail> {
    assert!(rt; text.len() <= MEBIBYTE);
    let code = parse_low(alloc, text.as_bytes()).expect(rt, "it reads");
    Ok(print_low(alloc, &code)?)
}

#[test]
fn reads_what_is_printed(rt: HostRuntime) -> Result<(), Fail> {
    for text in TEXTS {
        assert_eq!(rt; printed(&rt, rt.alloc(), text)?.as_str(), text);
    }
    Ok(())
}

/// Names, blanks, comments and what is dropped may differ.
#[test]
fn reads_other_texts(rt: HostRuntime) -> Result<(), Fail> {
    for (text, wanted) in OTHERS {
        assert_eq!(rt; printed(&rt, rt.alloc(), text)?.as_str(), wanted);
    }
    Ok(())
}

#[test]
fn refuses_at_the_first_token(rt: HostRuntime) -> Result<(), Fail> {
    for (text, at) in FAULTS {
        assert!(rt; text.len() <= MEBIBYTE);
        match parse_low(rt.alloc(), text.as_bytes()) {
            Ok(_) => assert!(rt; false, "{text}"),
            Err(fault) => assert!(rt; fault == LowFault::Syntax { at }, "{fault}: {text}"),
        }
    }
    Ok(())
}
