//! Reads a module from standard input, makes its code, runs its first function on one thread, and prints how the run ended
//! and how much was made, or why there is no code.
#![tactic(auto)]

mod ending;
mod made;

use ending::run;
use made::code_of;
use std::io;
use std::io::Read;

fn main(rt: HostRuntime) -> io::Result<()> {
    let mut text = Vec::new(rt.alloc());
    rt.stdin().read_to_end(&mut text)?;
    if text.len() > u32::MAX as usize {
        return println!(rt; "too long");
    }
    match code_of(rt.alloc(), &text) {
        Ok(code) => match run(rt.alloc(), &code) {
            Ok(ran) => println!(rt;
                "{}, {} steps, {} tasks, {} objects",
                ran.ended, ran.counts.steps, ran.counts.tasks, ran.counts.objects
            ),
            Err(_) => println!(rt; "out of memory"),
        },
        Err(fault) => println!(rt; "{fault}"),
    }
}
