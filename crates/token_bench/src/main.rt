//! Reads a text from standard input, and prints how many tokens it has, or why it has none.
#![tactic(auto)]

use mlir_lex::tokens;
use std::io;
use std::io::Read;

fn main(rt: HostRuntime) -> io::Result<()> {
    let mut text = Vec::new(rt.alloc());
    rt.stdin().read_to_end(&mut text)?;
    if text.len() > u32::MAX as usize {
        return println!(rt; "too long");
    }
    match tokens(rt.alloc(), &text) {
        Ok(found) => {
            let count = found.len();
            println!(rt; "{count} tokens")
        }
        Err(fault) => println!(rt; "{fault}"),
    }
}
