//! What gives bytes and what takes them, a piece at a time.

ghost use Rattle.std.specs.Prelude.{ℕ, ◌<◌, List, Option, length, IfOk};
ghost use Rattle.std.specs.Io.{ReadsAtMost, WritesAtMost};
ghost use Rattle.std.specs.Io.KnownBytes.{ReadConsumes, WriteAppends};
ghost use Rattle.aio_base.specs.Faults.{HasCause};

use crate::errors::{ReadFailed, WriteFailed};

/// What bytes are read from. A source that tells the bytes that it has left tells them after each call too.
pub trait Source {
    // The bytes left, where they are told.
    ghost left: { Self → Option (List ℕ) };

    // How many faults there were.
    ghost faults: { Self → ℕ };

    /// Reads some of the bytes left to the front of `piece`, and answers how many. For a piece that is not empty, 0 is
    /// the end. Where the read failed, what is left is as before.
    fn read(&mut self, piece: &mut [u8]) -> Result<usize, ReadFailed>
        ensures bound { ReadsAtMost result piece.new }
        ensures bytes { ReadConsumes (left self.old) (left self.new) result piece.new }
        ensures cause { HasCause (faults self.old) (faults self.new) result };
}

/// What bytes are written to. A sink that tells the bytes that it took tells them after each call too.
pub trait Sink {
    // The bytes taken, where they are told.
    ghost taken: { Self → Option (List ℕ) };

    // How many faults there were.
    ghost faults: { Self → ℕ };

    /// Takes some first bytes of `piece`, and answers how many: at least one, unless the piece is empty. Where the write
    /// failed, nothing was taken.
    fn write(&mut self, piece: &[u8]) -> Result<usize, WriteFailed>
        ensures bound { WritesAtMost result piece.now }
        ensures some { 0 < length piece.now → IfOk result (λ count. 0 < count) }
        ensures bytes { WriteAppends (taken self.old) (taken self.new) result piece.now }
        ensures cause { HasCause (faults self.old) (faults self.new) result };
}
