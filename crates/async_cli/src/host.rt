//! What the host gives: the words of the call, and standard input.

ghost use Rattle.std.specs.Prelude.{None};

use aio_base::{ReadFailed, Source};
use std::alloc::AllocError;
use std::env;
use std::io::{ErrorKind, Read};

/// The operating system's number for a file that isn't open.
const NOT_OPEN: i32 = 9;

/// The words after the program's name. Where one isn't UTF-8 there are none, since none of the commands has such a word.
pub fn read_words(rt: &HostRuntime) -> Result<Vec<String>, AllocError> {
    let mut words = Vec::new(rt.alloc());
    match env::args(rt) {
        Ok(all) => {
            for word in all.skip(1) {
                words.push(word)?;
            }
            Ok(words)
        }
        Err(error) if error.kind() == ErrorKind::OutOfMemory => Err(AllocError),
        Err(_) => Ok(words),
    }
}

/// Standard input as a source. It tells nothing of its bytes. Where it is closed it is empty.
#[derive(Drop)]
pub struct HostInput<R> {
    reader: R,
    faults: u64,
}

impl<R: Read> HostInput<R> {
    /// A source over this reader, no call of which has failed yet.
    pub fn new(reader: R) -> Self {
        HostInput { reader, faults: 0 }
    }
}

impl<R: Read> Source for HostInput<R> {
    ghost left = { λ _. None };

    ghost faults = { λ source. source.faults };

    fn read(&mut self, piece: &mut [u8]) -> Result<usize, ReadFailed> {
        match self.reader.read(piece) {
            Ok(count) => Ok(count),
            Err(error) if error.raw_os_error() == Some(NOT_OPEN) => Ok(0),
            Err(_) => {
                self.faults = self.faults.saturating_add(1);
                Err(ReadFailed)
            }
        }
    }
}
