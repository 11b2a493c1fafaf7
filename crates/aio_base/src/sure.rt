//! A source and a sink that never fail.

ghost use Rattle.std.specs.Prelude.{◌≡◌, ◌<◌, ◌++◌, length, take, drop, min, IsOkAnd, IfOk, Some, None};
ghost use Rattle.std.specs.Io.{ReadsAtMost, WritesAtMost};
ghost use Rattle.std.specs.Io.KnownBytes.{ReadConsumes, WriteAppends};
ghost use Rattle.aio_base.specs.Faults.{HasCause};

use crate::errors::{ReadFailed, WriteFailed};
use crate::memory::copy_front;
use crate::traits::{Sink, Source};
use std::marker::Model;

/// A source over bytes in memory that never fails. Contracts see it as the bytes that are left.
#[derive(Drop)]
pub struct SureSource {
    bytes: Vec<u8>,
    at: usize,
}

impl Model for SureSource {
    ghost use Rattle.std.specs.Prelude.{◌≤◌, List, ℕ, length, drop};

    ghost Value = { List ℕ };

    ghost view = { λ s. drop s.at s.bytes.items };

    ghost invariant = { λ s. s.at ≤ length s.bytes.items };
}

impl SureSource {
    pub fn new(bytes: Vec<u8>) -> Self
        ensures { result ≡ bytes.items }
    {
        SureSource { bytes, at: 0 }
    }
}

impl Source for SureSource {
    ghost left = { λ bytes. Some bytes };

    ghost faults = { λ _. 0 };

    /// Gives as many bytes as there are, or as the piece has room for.
    fn read(&mut self, piece: &mut [u8]) -> Result<usize, ReadFailed>
        ensures bound { ReadsAtMost result piece.new }
        ensures bytes { ReadConsumes (Some self.old) (Some self.new) result piece.new }
        ensures cause { HasCause 0 0 result }

        ensures count { IsOkAnd result (λ n. n ≡ min (length piece.old) (length self.old)) }
        ensures after { IfOk result (λ n. self.new ≡ drop n self.old) }
        ensures front { IfOk result (λ n. piece.new ≡ take n self.old ++ drop n piece.old) }
    {
        let count = copy_front(&self.bytes[self.at..], piece);
        self.at += count;
        Ok(count)
    }
}

/// A sink that takes all it is given and forgets it. It never fails, needs no memory and tells no bytes.
#[derive(Clone, Copy, Default)]
pub struct SureSink;

impl SureSink {
    pub fn new() -> Self {
        SureSink
    }
}

impl Sink for SureSink {
    ghost taken = { λ _. None };

    ghost faults = { λ _. 0 };

    /// Takes the whole piece.
    fn write(&mut self, piece: &[u8]) -> Result<usize, WriteFailed>
        ensures bound { WritesAtMost result piece.now }
        ensures some { 0 < length piece.now → IfOk result (λ count. 0 < count) }
        ensures bytes { WriteAppends None None result piece.now }
        ensures cause { HasCause 0 0 result }

        ensures count { IsOkAnd result (λ n. n ≡ length piece.now) }
    {
        Ok(piece.len())
    }
}
