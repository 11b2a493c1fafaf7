//! Dofraneg's program: serves a command on the module that standard input has.
#![tactic(auto)]

use aio_base::{OpenGate, StdSink};
use async_cli::{HostInput, read_words, run, tool};
use std::process::ExitCode;

/// The exit status where there was no memory for the words.
const NO_MEMORY: u8 = 9;

fn main(rt: HostRuntime) -> ExitCode {
    let Ok(words) = read_words(&rt) else {
        return ExitCode::from(NO_MEMORY);
    };
    let mut source = HostInput::new(rt.stdin());
    let mut sink = StdSink::new(rt.stdout());
    let asks_for_run = words.first().is_some_and(|word| word.as_str() == "run");
    let status = if asks_for_run {
        run(
            &rt,
            rt.alloc(),
            words.as_slice(),
            &mut source,
            &mut sink,
            &OpenGate,
        )
        .status
    } else {
        tool(rt.alloc(), words.as_slice(), &mut source, &mut sink)
    };
    ExitCode::from(status)
}
