//! Reads a module from standard input, makes its code, and prints how much code there is, or why there is none.
#![tactic(auto)]

mod made;

use made::code_of;
use std::io;
use std::io::Read;

fn main(rt: HostRuntime) -> io::Result<()> {
    let mut text = Vec::new(rt.alloc());
    rt.stdin().read_to_end(&mut text)?;
    if text.len() > u32::MAX as usize {
        return println!(rt; "too long");
    }
    match code_of(rt.alloc(), &text) {
        Ok(size) => println!(rt;
            "{} functions, {} blocks, {} instructions",
            size.funcs, size.blocks, size.instrs
        ),
        Err(fault) => println!(rt; "{fault}"),
    }
}
