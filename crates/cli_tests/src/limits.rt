//! Texts at the limits, and long ones.
use crate::harness::{answer, words_of};
use aio_base::{MemSink, MemSource, OpenGate};
use async_cli::run;
use run_journal::push_journal;
use std::alloc::{AllocError, Global};
use std::process::Abort;
use std::sync::Wait;
use std::test::Fail;
use std::thread::Threads;

fn assert_answer<R: Abort + Threads + Wait + Sync>(
    rt: &R,
    alloc: Global,
    command: &str,
    text: &[u8],
    owed: &str,
) -> Result<(), Fail> {
    let words = words_of(alloc, command)?;
    let told = answer(rt, alloc, words.as_slice(), text)?;
    assert_eq!(rt; told.as_str(), owed, "{command} of {} bytes", text.len());
    Ok(())
}

// So many times the line, and then the last one.
fn repeated(alloc: Global, line: &[u8], count: usize, last: &[u8]) -> Result<Vec<u8>, AllocError> {
    let mut text = Vec::new(alloc);
    for _line in 0..count {
        text.extend_from_slice(line)?;
    }
    text.extend_from_slice(last)?;
    Ok(text)
}

#[test]
fn reads_up_to_the_limit_of_bytes(rt: HostRuntime) -> Result<(), Fail> {
    let no_entry = "3\nrefused: no entry main\n";
    let too_long = "3\nrefused: longer than 1048576 bytes\n";
    let journal_line = "3\nrefused: journal line 1\n";
    let heading: &[u8] = b"\n-- journal\n";
    let rows: [(&str, &[u8], usize, &[u8], &str); 6] = [
        ("run", b" ", 1_048_576, b"", no_entry),
        ("run", b" ", 1_048_577, b"", too_long),
        ("replay", b" ", 1_048_577, b"", too_long),
        ("replay", b" ", 1_048_575, heading, no_entry),
        ("replay", b" ", 1_048_576, heading, too_long),
        (
            "check",
            b" ",
            1_048_576,
            b"",
            "0\nok: 0 functions, 0 operations\n",
        ),
    ];
    for (command, line, count, last, owed) in rows {
        let text = repeated(rt.alloc(), line, count, last)?;
        assert_answer(&rt, rt.alloc(), command, text.as_slice(), owed)?;
    }
    let mut text = b"func.func @main() { return }\n-- journal\n".to_vec(rt.alloc())?;
    let lines = repeated(rt.alloc(), b"nonsense\n", 100_000, b"")?;
    text.extend_from_slice(lines.as_slice())?;
    assert_answer(&rt, rt.alloc(), "replay", text.as_slice(), journal_line)
}

// So many functions that return.
fn many_functions(alloc: Global, count: u32) -> Result<Vec<u8>, AllocError> {
    let mut buffer = itoa::Buffer::new();
    let mut text = Vec::new(alloc);
    for number in 0..count {
        text.extend_from_slice(b"func.func @f")?;
        text.extend_from_slice(buffer.format(number).as_bytes())?;
        text.extend_from_slice(b"() { return }\n")?;
    }
    Ok(text)
}

// Functions that call each other in a chain, the last of which awaits a token; a task calls the first.
fn chain(alloc: Global, count: u32) -> Result<Vec<u8>, AllocError> {
    let mut buffer = itoa::Buffer::new();
    let mut text = Vec::new(alloc);
    for number in 1..count {
        text.extend_from_slice(b"func.func @f")?;
        text.extend_from_slice(buffer.format(number).as_bytes())?;
        text.extend_from_slice(b"(%t: !async.token) { call @f")?;
        text.extend_from_slice(buffer.format(number + 1).as_bytes())?;
        text.extend_from_slice(b"(%t) : (!async.token) -> () return }\n")?;
    }
    text.extend_from_slice(b"func.func @f")?;
    text.extend_from_slice(buffer.format(count).as_bytes())?;
    text.extend_from_slice(b"(%t: !async.token) { async.await %t : !async.token return }\n")?;
    text.extend_from_slice(b"func.func @main() { %t = async.execute { } ")?;
    text.extend_from_slice(
        b"%u = async.execute { call @f1(%t) : (!async.token) -> () async.yield } return }",
    )?;
    Ok(text)
}

// A function of so many assertions and a return.
fn assertions(alloc: Global, count: usize) -> Result<Vec<u8>, AllocError> {
    let mut text = b"func.func @m(%a:i1){".to_vec(alloc)?;
    let lines = repeated(alloc, b"cf.assert %a,\"\"", count, b"return}")?;
    text.extend_from_slice(lines.as_slice())?;
    Ok(text)
}

#[test]
fn checks_up_to_the_limits(rt: HostRuntime) -> Result<(), Fail> {
    let alloc = rt.alloc();
    let rows = [
        (
            many_functions(alloc, 1_024)?,
            "0\nok: 1024 functions, 2048 operations\n",
        ),
        (
            many_functions(alloc, 1_025)?,
            "3\nrefused: Limit Functions at byte 29610\n",
        ),
        (
            chain(alloc, 1_023)?,
            "3\nrefused: BlockingAwait at operation 3068\n",
        ),
        (
            assertions(alloc, 65_534)?,
            "0\nok: 1 functions, 65536 operations\n",
        ),
        (
            assertions(alloc, 65_535)?,
            "3\nrefused: Limit Operations at byte 983045\n",
        ),
    ];
    for (text, owed) in rows {
        assert_answer(&rt, alloc, "check", text.as_slice(), owed)?;
    }
    Ok(())
}

// A module whose tasks are launched one after another, and each awaited at the end.
fn launches(alloc: Global, count: u32) -> Result<Vec<u8>, AllocError> {
    let mut buffer = itoa::Buffer::new();
    let mut text = b"func.func @main() {\n".to_vec(alloc)?;
    for number in 0..count {
        text.extend_from_slice(b"%t")?;
        text.extend_from_slice(buffer.format(number).as_bytes())?;
        text.extend_from_slice(b" = async.execute { async.yield }\n")?;
    }
    for number in 0..count {
        text.extend_from_slice(b"async.await %t")?;
        text.extend_from_slice(buffer.format(number).as_bytes())?;
        text.extend_from_slice(b" : !async.token\n")?;
    }
    text.extend_from_slice(b"return }\n")?;
    Ok(text)
}

#[test]
fn replays_what_was_run(rt: HostRuntime) -> Result<(), Fail> {
    let alloc = rt.alloc();
    let mut text = launches(alloc, 1_000)?;
    let words = words_of(alloc, "run")?;
    let mut source = MemSource::new(text.as_slice().to_vec(alloc)?, Vec::new(alloc));
    let mut sink = MemSink::new(alloc, 4096, 4096, Vec::new(alloc))?;
    let end = run(
        &rt,
        alloc,
        words.as_slice(),
        &mut source,
        &mut sink,
        &OpenGate,
    );
    let told: &[u8] = b"tasks 1000, objects 1000\n";
    assert_eq!(rt; sink.taken(), told);
    text.extend_from_slice(b"-- journal\n")?;
    push_journal(&mut text, end.journal.as_slice())?;
    let owed = "0\ntasks 1000, objects 1000\n";
    assert_answer(&rt, alloc, "replay", text.as_slice(), owed)
}
