//! A reader that is asked only a limited number of times.
ghost use Rattle.std.specs.Prelude.{◌≡◌, ◌<◌, IsErr};
ghost use Rattle.std.specs.Io.{ReadsAtMost};
ghost use Rattle.std.specs.Io.KnownBytes.{ReadConsumes};

use std::io;
use std::io::{ErrorKind, Read};
use std::marker::Model;

/// How often a program's input is asked for bytes before it counts as failed.
pub const MOST_ASKS: u64 = 1_000_000_000_000;

/// A reader that is asked for bytes a limited number of times, and then counts as failed. It is
/// asked again if a signal interrupted it.
#[derive(Drop)]
pub struct LimitedReader<R> {
    reader: R,
    asks_left: u64,
}

impl<R> Model for LimitedReader<R> {
    ghost use Rattle.lab_program_replay.specs.Limited.{Limited};

    ghost Value = { Limited R };

    ghost view = { λ limited. record { reader = limited.reader; asks_left = limited.asks_left } };
}

impl<R> LimitedReader<R> {
    /// Returns the reader, which is asked at most `most_asks` times.
    pub fn new(reader: R, most_asks: u64) -> LimitedReader<R>
        ensures { result ≡ record { reader = reader; asks_left = most_asks } }
    {
        LimitedReader {
            reader,
            asks_left: most_asks,
        }
    }
}

impl<R: Read> Read for LimitedReader<R> {
    ghost remaining = { λ limited. R.remaining limited.reader };

    fn read(&mut self, buffer: &mut [u8]) -> io::Result<usize>
        ensures bound { ReadsAtMost result buffer.new }
        ensures bytes { ReadConsumes (R.remaining self.old.reader) (R.remaining self.new.reader)
            result buffer.new }

        // While asks are left, each answer costs one, also a failed one, and no ask is given back.
        ensures asked { 0 < self.old.asks_left → self.new.asks_left < self.old.asks_left }
        ensures exhausted { self.old.asks_left ≡ 0 → IsErr result × (self.new ≡ self.old) }
    {
        while self.asks_left > 0 {
            self.asks_left -= 1;
            match self.reader.read(buffer) {
                Err(error) if error.kind() == ErrorKind::Interrupted => {}
                result => return result,
            }
        }
        let message = "the input was asked too often";
        Err(io::Error::new(ErrorKind::TimedOut, message))
    }
}
