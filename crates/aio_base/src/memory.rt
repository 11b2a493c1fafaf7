//! A source and a sink in memory, with faults at stated calls.

ghost use Rattle.std.specs.Prelude.{◌≡◌, ◌+◌, ◌<◌, ◌≤◌, ◌↔◌, ◌++◌, length, take, drop, IsTrue, Contains, IfOk, IsErr, OnErr, Some, min};
ghost use Rattle.std.specs.Io.{ReadsAtMost, WritesAtMost};
ghost use Rattle.std.specs.Io.KnownBytes.{ReadConsumes, WriteAppends};
ghost use Rattle.aio_base.specs.Faults.{HasCause};
ghost use Rattle.aio_base.specs.Memory.{ReadFails, WriteFails, fresh_input, fresh_output, read_count, write_count, after_read, after_failed_read, after_write, after_failed_write};

use crate::errors::{ReadFailed, WriteFailed};
use crate::traits::{Sink, Source};
use std::alloc::{AllocError, Global};
use std::marker::Model;

/// A source over bytes in memory, some of whose calls fail.
#[derive(Drop)]
pub struct MemSource {
    bytes: Vec<u8>,
    at: usize,
    fails: Vec<u64>,
    calls: u64,
    faults: u64,
}

impl Model for MemSource {
    ghost use Rattle.std.specs.Prelude.{◌≤◌, length, drop};
    ghost use Rattle.aio_base.specs.Memory.{Input};

    ghost Value = { Input };

    ghost view = { λ s. record { left = drop s.at s.bytes.items; fails = s.fails.items; calls = s.calls; faults = s.faults } };

    ghost invariant = { λ s. s.at ≤ length s.bytes.items };
}

impl MemSource {
    /// A source of these bytes. The calls whose numbers, from 1, stand in `fails` fail, and change nothing but the counts.
    pub fn new(bytes: Vec<u8>, fails: Vec<u64>) -> Self
        ensures { result ≡ fresh_input bytes.items fails.items }
    {
        MemSource {
            bytes,
            at: 0,
            fails,
            calls: 0,
            faults: 0,
        }
    }

    /// The bytes that are left.
    pub fn left(&self) -> &[u8]
        ensures { result.now ≡ self.now.left }
    {
        &self.bytes[self.at..]
    }

    /// How many calls failed.
    pub fn faults(&self) -> u64
        ensures { result ≡ self.now.faults }
    {
        self.faults
    }
}

impl Source for MemSource {
    ghost left = { λ input. Some input.left };

    ghost faults = { λ input. input.faults };

    /// Gives as many bytes as there are, or as the piece has room for.
    fn read(&mut self, piece: &mut [u8]) -> Result<usize, ReadFailed>
        ensures bound { ReadsAtMost result piece.new }
        ensures bytes { ReadConsumes (Some self.old.left) (Some self.new.left) result piece.new }
        ensures cause { HasCause self.old.faults self.new.faults result }

        ensures fails { IsErr result ↔ ReadFails self.old }
        ensures failed { OnErr result ((self.new ≡ after_failed_read self.old) × (piece.new ≡ piece.old)) }

        ensures count { IfOk result (λ n. n ≡ read_count self.old (length piece.old)) }
        ensures after { IfOk result (λ n. self.new ≡ after_read self.old n) }
        ensures front { IfOk result (λ n. piece.new ≡ take n self.old.left ++ drop n piece.old) }
    {
        let is_failing = is_among(&self.fails, self.calls);
        self.calls = self.calls.saturating_add(1);
        if is_failing {
            self.faults = self.faults.saturating_add(1);
            return Err(ReadFailed);
        }
        let count = copy_front(&self.bytes[self.at..], piece);
        self.at += count;
        Ok(count)
    }
}

/// A sink in memory that takes at most `step` bytes at a call and `room` in all, and some of whose calls fail.
#[derive(Drop)]
pub struct MemSink {
    bytes: Vec<u8>,
    step: usize,
    room: usize,
    fails: Vec<u64>,
    calls: u64,
    faults: u64,
}

impl Model for MemSink {
    ghost use Rattle.std.specs.Prelude.{◌≤◌, vec_len, vec_capacity};
    ghost use Rattle.aio_base.specs.Memory.{Output};

    ghost Value = { Output };

    ghost view = { λ s. record { taken = s.bytes.items; step = s.step; room = s.room; fails = s.fails.items; calls = s.calls; faults = s.faults } };

    ghost invariant = { λ s. (1 ≤ s.step) × (vec_len s.bytes ≤ s.room) × (s.room ≤ vec_capacity s.bytes) };
}

impl MemSink {
    /// A sink that has taken nothing. It has its memory from here on. The calls whose numbers, from 1, stand in `fails` fail,
    /// and change nothing but the counts.
    pub fn new(alloc: Global, step: usize, room: usize, fails: Vec<u64>) -> Result<Self, AllocError>
        requires { 1 ≤ step }
        ensures { IfOk result (λ sink. sink ≡ fresh_output step room fails.items) }
    {
        Ok(MemSink {
            bytes: Vec::with_capacity(alloc, room)?,
            step,
            room,
            fails,
            calls: 0,
            faults: 0,
        })
    }

    /// The bytes taken.
    pub fn taken(&self) -> &[u8]
        ensures { result.now ≡ self.now.taken }
    {
        &self.bytes
    }

    /// How many calls failed.
    pub fn faults(&self) -> u64
        ensures { result ≡ self.now.faults }
    {
        self.faults
    }

    // Whether the next write, of this piece, is to fail.
    fn is_failing(&self, piece: &[u8]) -> bool
        ensures { IsTrue result ↔ WriteFails self.now piece.now }
    {
        is_among(&self.fails, self.calls) || (self.bytes.len() >= self.room && !piece.is_empty())
    }
}

impl Sink for MemSink {
    ghost taken = { λ output. Some output.taken };

    ghost faults = { λ output. output.faults };

    /// Takes as many bytes as the step and the room that is left allow. It fails where its number says so, and where the room
    /// is used up and the piece is not empty. It takes no memory.
    fn write(&mut self, piece: &[u8]) -> Result<usize, WriteFailed>
        ensures bound { WritesAtMost result piece.now }
        ensures some { 0 < length piece.now → IfOk result (λ count. 0 < count) }
        ensures bytes { WriteAppends (Some self.old.taken) (Some self.new.taken) result piece.now }
        ensures cause { HasCause self.old.faults self.new.faults result }

        ensures fails { IsErr result ↔ WriteFails self.old piece.now }
        ensures failed { OnErr result (self.new ≡ after_failed_write self.old) }

        ensures count { IfOk result (λ n. n ≡ write_count self.old (length piece.now)) }
        ensures after { IfOk result (λ n. self.new ≡ after_write self.old (take n piece.now)) }
        ensures room { length self.new.taken ≤ self.new.room }
    {
        let is_failing = self.is_failing(piece);
        self.calls = self.calls.saturating_add(1);
        if is_failing {
            self.faults = self.faults.saturating_add(1);
            return Err(WriteFailed);
        }
        let count = piece.len().min(self.step).min(self.room - self.bytes.len());
        match self.bytes.extend_from_slice(&piece[..count]) {
            Ok(()) => Ok(count),
            Err(AllocError) => unreachable!(), // the room was reserved
        }
    }
}

// Whether the call after this many is one of those that fail.
fn is_among(fails: &[u64], calls: u64) -> bool
    ensures { IsTrue result ↔ Contains fails.now (calls + 1) }
{
    match calls.checked_add(1) {
        Some(number) => fails.contains(&number),
        None => false,
    }
}

// Copies as many first bytes as both have, and answers how many.
pub(crate) fn copy_front(from: &[u8], to: &mut [u8]) -> usize
    ensures count { result ≡ min (length to.old) (length from.now) }
    ensures copied { to.new ≡ take result from.now ++ drop result to.old }
    ensures bound { result ≤ length to.new }
    ensures consumed { from.now ≡ take result to.new ++ drop result from.now }
{
    let count = to.len().min(from.len());
    to[..count].copy_from_slice(&from[..count]);
    count
}
