//! Sources and sinks, and what they promise.
ghost use Rattle.std.specs.Prelude.{ℕ, ◌<◌, List, length, IfOk};
ghost use Rattle.std.specs.declared.option.Option.{Option};
ghost use Rattle.std.specs.Io.{ReadsAtMost, WritesAtMost};
ghost use Rattle.std.specs.Io.KnownBytes.{ReadConsumes, WriteAppends};
ghost use Rattle.adsc_io.specs.Causes.{HasCause};

use crate::failures::Failed;

/// Bytes that are read in order, a piece at a time. This project's profile.
pub trait Source {
    /// The bytes that are not yet read, where the source tells them.
    ghost left: { Self → Option (List ℕ) };

    /// How many reads failed: a number of 64 bits that never falls.
    ghost faults: { Self → ℕ };

    /// Reads the next bytes into the front of `buf`, which must not be empty, and answers how many.
    ///
    /// `Ok(0)` is the end of the input. `Failed` comes only where the count of faults rose, and then nothing was read.
    fn read(&mut self, buf: &mut [u8]) -> Result<usize, Failed>
        requires { 0 < length buf.old }
        ensures bound { ReadsAtMost result buf.new }
        ensures bytes { ReadConsumes (left self.old) (left self.new) result buf.new }
        ensures cause { HasCause (faults self.old) (faults self.new) result };
}

/// Takes bytes in order, a piece at a time. This project's profile.
pub trait Sink {
    /// The bytes that were written, where the sink tells them.
    ghost written: { Self → Option (List ℕ) };

    /// How many writes failed: a number of 64 bits that never falls.
    ghost faults: { Self → ℕ };

    /// Writes the front of `piece`, which must not be empty, and answers how many bytes it took: one at least.
    ///
    /// `Failed` comes only where the count of faults rose, and then nothing was written.
    fn write(&mut self, piece: &[u8]) -> Result<usize, Failed>
        requires { 0 < length piece.now }
        ensures some { IfOk result (λ count. 0 < count) }
        ensures bound { WritesAtMost result piece.now }
        ensures bytes { WriteAppends (written self.old) (written self.new) result piece.now }
        ensures cause { HasCause (faults self.old) (faults self.new) result };
}
