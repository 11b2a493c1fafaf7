//! Cases as text: the words of a command, what it reads, and what it owes.
use aio_base::{MemSink, MemSource, OpenGate, Sink, Source};
use async_cli::{run, tool};
use std::alloc::{AllocError, Global};
use std::process::Abort;
use std::sync::Wait;
use std::test::Fail;
use std::thread::Threads;

/// The words that blanks part.
pub fn words_of(alloc: Global, text: &str) -> Result<Vec<String>, AllocError> {
    let mut words = Vec::new(alloc);
    for word in text.split_whitespace() {
        words.push(String::from_str(alloc, word)?)?;
    }
    Ok(words)
}

/// The exit status of what the program does with these words.
pub fn serve<R: Threads + Wait + Sync, S: Source, K: Sink>(
    rt: &R,
    alloc: Global,
    words: &[String],
    source: &mut S,
    sink: &mut K,
) -> u8 {
    if words.first().is_some_and(|word| word.as_str() == "run") {
        run(rt, alloc, words, source, sink, &OpenGate).status
    } else {
        tool(alloc, words, source, sink)
    }
}

/// The status and, on the lines behind it, the text.
pub fn shown(alloc: Global, status: u8, text: &[u8]) -> Result<String, AllocError> {
    let text = str::from_utf8(text).unwrap_or("bytes that are no text");
    format!(in alloc; "{status}\n{text}")
}

/// The status and the text of the answer to these words and bytes.
pub fn answer<R: Threads + Wait + Sync>(
    rt: &R,
    alloc: Global,
    words: &[String],
    bytes: &[u8],
) -> Result<String, AllocError> {
    let mut source = MemSource::new(bytes.to_vec(alloc)?, Vec::new(alloc));
    let mut sink = MemSink::new(alloc, 4096, 4096, Vec::new(alloc))?;
    let status = serve(rt, alloc, words, &mut source, &mut sink);
    shown(alloc, status, sink.taken())
}

fn assert_case<R: Abort + Threads + Wait + Sync>(
    rt: &R,
    alloc: Global,
    case: &str,
) -> Result<(), Fail> {
    let (given, owed) = case.split_once("\n= ").ok_or("a case owes no status")?;
    let (words, text) = given.split_once("\n").unwrap_or((given, ""));
    let words = words_of(alloc, words)?;
    let told = answer(rt, alloc, words.as_slice(), text.as_bytes())?;
    assert_eq!(rt; told.as_str().trim_end(), owed.trim_end(), "{given}");
    Ok(())
}

/// Each case: a line `$ WORDS`, what is read, a line `= STATUS`, and the text of the answer.
pub fn assert_cases<R: Abort + Threads + Wait + Sync>(
    rt: &R,
    alloc: Global,
    cases: &str,
) -> Result<(), Fail> {
    let mut count = 0u32;
    for case in cases.split("\n$ ").skip(1) {
        assert_case(rt, alloc, case)?;
        count = count.saturating_add(1);
    }
    assert!(rt; count > 0);
    Ok(())
}

fn assert_check<R: Abort + Threads + Wait + Sync>(
    rt: &R,
    alloc: Global,
    text: &str,
    owed: &str,
) -> Result<(), Fail> {
    let words = words_of(alloc, "check")?;
    let status = if owed.starts_with("ok") { 0 } else { 3 };
    let told = answer(rt, alloc, words.as_slice(), text.as_bytes())?;
    assert_eq!(rt;
        told.as_str(),
        format!(in alloc; "{status}\n{owed}\n")?.as_str(),
        "{text}"
    );
    Ok(())
}

/// Each text on a line of its own, and behind four blanks on the next what `check` answers. The text that is read begins
/// and ends so.
pub fn assert_checks<R: Abort + Threads + Wait + Sync>(
    rt: &R,
    alloc: Global,
    begins: &str,
    ends: &str,
    rows: &str,
) -> Result<(), Fail> {
    let mut count = 0u32;
    for (text, line) in rows.lines().zip(rows.lines().skip(1)) {
        if let Some(owed) = line.strip_prefix("    ") {
            let whole = format!(in alloc; "{begins}{text}{ends}")?;
            assert_check(rt, alloc, whole.as_str(), owed)?;
            count = count.saturating_add(1);
        }
    }
    assert!(rt; count > 0);
    Ok(())
}
