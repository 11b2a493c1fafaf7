//! Reads and writes that fail, and that move one byte at a call.

ghost use Rattle.std.specs.Prelude.{Some};

use crate::harness::{serve, shown, words_of};
use aio_base::{MemSink, MemSource, OpenGate, ReadFailed, Sink, Source, SureSource, WriteFailed};
use async_cli::{Stop, run};
use std::test::Fail;

const TEXT: &[u8] =
    b"func.func @main() -> i64 { %a = arith.constant 42 : i64 return %a : i64 }\n-- journal\n0 1\n";

const MODULE: &[u8] = b"func.func @main() -> i64 { %a = arith.constant 42 : i64 return %a : i64 }";

#[test]
fn names_failed_reads_and_writes(rt: HostRuntime) -> Result<(), Fail> {
    let alloc = rt.alloc();
    let rows: [(&str, &[u8], &str); 4] = [
        ("run", MODULE, "8\nresul"),
        ("source", MODULE, "8\nresul"),
        ("check", MODULE, "8\nok: 1"),
        ("replay", TEXT, "8\nresul"),
    ];
    for (command, text, owed) in rows {
        let words = words_of(alloc, command)?;
        let mut source = MemSource::new(text.to_vec(alloc)?, [1u64].to_vec(alloc)?);
        let mut sink = MemSink::new(alloc, 4096, 4096, Vec::new(alloc))?;
        let status = serve(&rt, alloc, words.as_slice(), &mut source, &mut sink);
        let told = shown(alloc, status, sink.taken())?;
        assert_eq!(rt; told.as_str(), "7\nrefused: read fault\n", "{command}");
        let mut source = MemSource::new(text.to_vec(alloc)?, Vec::new(alloc));
        let mut sink = MemSink::new(alloc, 5, 64, [2u64].to_vec(alloc)?)?;
        let status = serve(&rt, alloc, words.as_slice(), &mut source, &mut sink);
        let told = shown(alloc, status, sink.taken())?;
        assert_eq!(rt; told.as_str(), owed, "{command}");
    }
    Ok(())
}

// A source that gives one byte at a call.
#[derive(Drop)]
struct Drip {
    inner: SureSource,
}

impl Source for Drip {
    ghost left = { λ drip. Some drip.inner };

    ghost faults = { λ _. 0 };

    fn read(&mut self, piece: &mut [u8]) -> Result<usize, ReadFailed> {
        let most = piece.len().min(1);
        self.inner.read(&mut piece[..most])
    }
}

// A sink that takes one byte at a call.
#[derive(Drop)]
struct Sip {
    inner: MemSink,
}

impl Sink for Sip {
    ghost taken = { λ sip. Some sip.inner.taken };

    ghost faults = { λ sip. sip.inner.faults };

    fn write(&mut self, piece: &[u8]) -> Result<usize, WriteFailed> {
        let most = piece.len().min(1);
        self.inner.write(&piece[..most])
    }
}

#[test]
fn moves_one_byte_at_a_call(rt: HostRuntime) -> Result<(), Fail> {
    let alloc = rt.alloc();
    let words = words_of(alloc, "run")?;
    let mut source = Drip {
        inner: SureSource::new(MODULE.to_vec(alloc)?),
    };
    let mut sink = Sip {
        inner: MemSink::new(alloc, 4096, 4096, Vec::new(alloc))?,
    };
    let status = serve(&rt, alloc, words.as_slice(), &mut source, &mut sink);
    let told = shown(alloc, status, sink.inner.taken())?;
    assert_eq!(rt; told.as_str(), "0\nresult 0: 42\ntasks 0, objects 0\n");
    Ok(())
}

#[test]
fn tells_how_much_was_written(rt: HostRuntime) -> Result<(), Fail> {
    let alloc = rt.alloc();
    let words = words_of(alloc, "run")?;
    let mut source = MemSource::new(MODULE.to_vec(alloc)?, Vec::new(alloc));
    let mut sink = MemSink::new(alloc, 5, 64, [2u64].to_vec(alloc)?)?;
    let end = run(
        &rt,
        alloc,
        words.as_slice(),
        &mut source,
        &mut sink,
        &OpenGate,
    );
    assert_eq!(rt; end.stop, Some(Stop::Write { written: 5 }));
    Ok(())
}
