//! Reads a module from standard input, and prints its printed text, or why it is none.
#![tactic(auto)]

#[cfg(test)]
mod tests;

use ir_forms::Level;
use mlir_print::print;
use mlir_text::{PROGRAM_LIMITS, parse};
use std::io;
use std::io::{Read, Write};

fn main(rt: HostRuntime) -> io::Result<()> {
    let mut text = Vec::new(rt.alloc());
    rt.stdin().read_to_end(&mut text)?;
    if text.len() > u32::MAX as usize {
        return println!(rt; "too long");
    }
    match parse(rt.alloc(), &text, Level::Source, &PROGRAM_LIMITS) {
        Ok(module) => {
            let printed = print(rt.alloc(), &module)?;
            rt.stdout().write_all(printed.as_bytes())
        }
        Err(fault) => println!(rt; "{fault}"),
    }
}
