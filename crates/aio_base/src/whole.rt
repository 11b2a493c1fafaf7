//! Reading all that a source has left, and writing all of some bytes.

ghost use Rattle.std.specs.Prelude.{◌≡◌, ◌+◌, ◌<◌, ◌≤◌, length, vec_len, IfOk, OnOk, IfErr};
ghost use Rattle.std.specs.Io.KnownBytes.{Appends};
ghost use Rattle.aio_base.specs.Faults.{HasCause};
ghost use Rattle.aio_base.specs.Whole.{ReadsWhole, ReadsFront, ReadAllStops, Told, WritesFront};

use crate::errors::{ReadAllError, ReadFailed, WriteFailed, WriteFault};
use crate::traits::{Sink, Source};
use std::alloc::Global;

// How many bytes are asked for at a time.
const PIECE: usize = 8192;

/// Reads all that the source has left, which is to be at most `limit` bytes. It ends at the end of input, at a fault, or
/// after `limit` + 1 bytes.
///
/// # Errors
///
/// `ReadFault` where a read failed, `TooLong` where more than `limit` bytes were read, and `OutOfMemory`.
pub fn read_all<S: Source>(
    alloc: Global,
    source: &mut S,
    limit: usize,
) -> Result<Vec<u8>, ReadAllError>
    ensures whole { IfOk result (λ all. ReadsWhole (S.left source.old) (S.left source.new) all.items) }
    ensures within { IfOk result (λ all. vec_len all ≤ limit) }
    ensures stops { IfErr result (λ error.
        let told : Told = record {
          left = S.left source.old;
          left_after = S.left source.new;
          faults = S.faults source.old;
          faults_after = S.faults source.new;
        } in ReadAllStops error limit told) }

    // On every answer.
    ensures front { ReadsFront (S.left source.old) (S.left source.new) (limit + 1) }
    ensures counted { S.faults source.old ≤ S.faults source.new }
{
    let mut all = Vec::new(alloc);
    let mut piece = [0; PIECE];
    for _turn in 0..=limit {
        let want = (limit - all.len()).min(PIECE - 1) + 1;
        let count = match source.read(&mut piece[..want]) {
            Ok(count) => count,
            Err(ReadFailed) => return Err(ReadAllError::ReadFault),
        };
        if count == 0 {
            return Ok(all);
        }
        if all.extend_from_slice(&piece[..count]).is_err() {
            return Err(ReadAllError::OutOfMemory);
        }
        if all.len() > limit {
            return Err(ReadAllError::TooLong { limit });
        }
    }
    unreachable!() // each turn read a byte, and no more than the limit were read
}

/// Writes all of `bytes`. It takes no memory.
///
/// # Errors
///
/// `WriteFault` where a write failed, with how many first bytes were taken before.
#[tactic(auto, using(crate::proofs::Known::taken_more))]
pub fn write_all<K: Sink>(sink: &mut K, bytes: &[u8]) -> Result<(), WriteFault>
    ensures whole { OnOk result (Appends (K.taken sink.old) (K.taken sink.new) bytes.now) }
    ensures front { IfErr result (λ fault. WritesFront (K.taken sink.old) (K.taken sink.new) bytes.now fault.written) }
    ensures cause { HasCause (K.faults sink.old) (K.faults sink.new) result }
{
    let mut written = 0;
    while written < bytes.len() {
        match sink.write(&bytes[written..]) {
            Ok(count) => written += count,
            Err(WriteFailed) => {
                return Err(WriteFault {
                    written: written as u64,
                });
            }
        }
    }
    Ok(())
}
