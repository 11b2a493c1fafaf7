//! Sources and sinks.
ghost use Rattle.std.specs.Prelude.{Some};

use aio_base::{
    Gate, MemSink, MemSource, OpenGate, ReadAllError, ReadFailed, Sink, Source, StdSink, StdSource,
    SureSink, SureSource, WriteFailed, WriteFault, read_all, write_all,
};
use std::alloc::{AllocError, Global};
use std::io::Cursor;
use std::test::Fail;

const TEXT: &[u8] = b"result: 7\n";

// A source that gives one byte at a call.
#[derive(Drop)]
struct Drip {
    inner: SureSource,
}

impl Source for Drip {
    ghost left = { λ drip. Some drip.inner };

    ghost faults = { λ _. 0 };

    fn read(&mut self, piece: &mut [u8]) -> Result<usize, ReadFailed> {
        let most = piece.len().min(1);
        self.inner.read(&mut piece[..most])
    }
}

// A sink that takes one byte at a call.
#[derive(Drop)]
struct Sip {
    inner: MemSink,
}

impl Sink for Sip {
    ghost taken = { λ sip. Some sip.inner.taken };

    ghost faults = { λ sip. sip.inner.faults };

    fn write(&mut self, piece: &[u8]) -> Result<usize, WriteFailed> {
        let most = piece.len().min(1);
        self.inner.write(&piece[..most])
    }
}

fn source_of(alloc: Global, bytes: &[u8], fails: &[u64]) -> Result<MemSource, AllocError> {
    Ok(MemSource::new(bytes.to_vec(alloc)?, fails.to_vec(alloc)?))
}

// 20,000 bytes, which are more than one piece.
fn long_text(alloc: Global) -> Result<Vec<u8>, AllocError> {
    let mut text = Vec::new(alloc);
    for i in 0..20_000u32 {
        text.push((i % 251) as u8)?;
    }
    Ok(text)
}

#[test]
fn cuts_a_text_where_a_write_fails(rt: HostRuntime) -> Result<(), Fail> {
    let alloc = rt.alloc();
    let rows: [(usize, &[u64], Result<(), WriteFault>, &[u8], u64); 4] = [
        (64, &[2], Err(WriteFault { written: 5 }), b"resul", 1),
        (64, &[1], Err(WriteFault { written: 0 }), b"", 1),
        (8, &[], Err(WriteFault { written: 8 }), b"result: ", 1),
        (10, &[3], Ok(()), TEXT, 0),
    ];
    for (room, fails, answer, taken, faults) in rows {
        let mut sink = MemSink::new(alloc, 5, room, fails.to_vec(alloc)?)?;
        assert_eq!(rt; write_all(&mut sink, TEXT), answer);
        assert_eq!(rt; sink.taken(), taken);
        assert_eq!(rt; sink.faults(), faults);
    }
    Ok(())
}

#[test]
fn stops_where_a_read_fails(rt: HostRuntime) -> Result<(), Fail> {
    let alloc = rt.alloc();
    for (fails, left) in [(1, TEXT), (2, b"".as_slice())] {
        let mut source = source_of(alloc, TEXT, &[fails])?;
        let answer = read_all(alloc, &mut source, 100);
        assert_eq!(rt; answer.err(), Some(ReadAllError::ReadFault));
        assert_eq!(rt; source.left(), left);
        assert_eq!(rt; source.faults(), 1);
    }
    Ok(())
}

#[test]
fn reads_up_to_the_limit(rt: HostRuntime) -> Result<(), Fail> {
    let alloc = rt.alloc();
    let text = long_text(alloc)?;
    for limit in [20_000, 20_001, usize::MAX] {
        let mut source = source_of(alloc, &text, &[])?;
        let all = read_all(alloc, &mut source, limit)?;
        assert_eq!(rt; all.as_slice(), text.as_slice());
    }
    for (limit, left) in [(19_999, 0), (8_192, 11_807), (0, 19_999)] {
        let mut source = source_of(alloc, &text, &[])?;
        let answer = read_all(alloc, &mut source, limit);
        assert_eq!(rt; answer.err(), Some(ReadAllError::TooLong { limit }));
        assert_eq!(rt; source.left().len(), left);
    }
    Ok(())
}

#[test]
fn moves_one_byte_at_a_call(rt: HostRuntime) -> Result<(), Fail> {
    let alloc = rt.alloc();
    let mut drip = Drip {
        inner: SureSource::new(TEXT.to_vec(alloc)?),
    };
    let mut sip = Sip {
        inner: MemSink::new(alloc, 64, 64, Vec::new(alloc))?,
    };
    let all = read_all(alloc, &mut drip, 10)?;
    write_all(&mut sip, &all)?;
    assert_eq!(rt; sip.inner.taken(), TEXT);
    Ok(())
}

#[test]
fn adapts_std_readers_and_writers(rt: HostRuntime) -> Result<(), Fail> {
    let alloc = rt.alloc();
    let mut source = StdSource::new(Cursor::new(TEXT));
    let mut sink = StdSink::new(Vec::new(alloc));
    let all = read_all(alloc, &mut source, 10)?;
    write_all(&mut sink, &all)?;
    assert_eq!(rt; sink.writer.as_slice(), TEXT);
    assert_eq!(rt; (source.faults, sink.faults), (0, 0));

    // A writer with no room takes nothing, and that is a fault.
    let mut full: [u8; 4] = [0; 4];
    let mut sink = StdSink::new(full.as_mut_slice());
    assert_eq!(rt; write_all(&mut sink, TEXT), Err(WriteFault { written: 4 }));
    assert_eq!(rt; sink.faults, 1);
    Ok(())
}

fn pass_twice<G: Gate + Sync>(gate: &G) {
    gate.pass(0, 1);
    gate.pass(63, u64::MAX);
}

#[test]
fn opens_what_never_fails(rt: HostRuntime) {
    pass_twice(&OpenGate);
    assert_eq!(rt; write_all(&mut SureSink::new(), TEXT), Ok(()));
}
