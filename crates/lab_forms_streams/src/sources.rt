//! Sources of bytes: every reader, and every type that counts how often it was asked.
ghost use Rattle.std.specs.Prelude.{ℕ, ◌+◌, ◌≤◌, List, Option, None};
ghost use Rattle.std.specs.Io.{ReadsAtMost};
ghost use Rattle.std.specs.Io.KnownBytes.{ReadConsumes};

use std::io;
use std::io::Read;

/// A source that can be asked for bytes. A function that is proved for every source is also proved
/// for one that counts its asks, so a clause on `asks` bounds how often the function asks.
pub trait ByteSource {
    // The bytes that the asks from here on will return, if they are known.
    ghost remaining: { Self → Option (List ℕ) } = { λ _. None };

    // How often the source was asked. No ask raises this count by more than one. By default nothing
    // is counted.
    ghost asks: { Self → ℕ } = { λ _. 0 };

    /// Asks for bytes, as `Read::read` does.
    ///
    /// # Errors
    /// The source failed, or a signal interrupted it.
    fn ask(&mut self, buffer: &mut [u8]) -> io::Result<usize>
        ensures bound { ReadsAtMost result buffer.new }
        ensures bytes { ReadConsumes (remaining self.old) (remaining self.new) result buffer.new }
        ensures asked { asks self.new ≤ asks self.old + 1 };
}

// A reader is a source that doesn't count.
impl<R: Read> ByteSource for R {
    ghost remaining = { λ reader. R.remaining reader };

    fn ask(&mut self, buffer: &mut [u8]) -> io::Result<usize> {
        self.read(buffer)
    }
}
