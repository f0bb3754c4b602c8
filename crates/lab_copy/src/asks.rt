//! A reader that asks its source only a limited number of times, and stops in a row that is longer
//! than any valid row.
ghost use Rattle.std.specs.Prelude.{◌≡◌, ℕ, ◌+◌, ◌<◌, ◌≤◌, OnOk, option_map};
ghost use Rattle.std.specs.Io.{ReadsAtMost};
ghost use Rattle.std.specs.Io.KnownBytes.{ReadConsumes};
ghost use Rattle.lab_copy.specs.Fronts.{front, so_far};

use crate::fronts::RowSoFar;
use lab_forms_streams::ByteSource;
use std::io;
use std::io::{ErrorKind, Read};
use std::marker::{Brand, PhantomData};

/// The number of asks after which the source of a copy counts as failed. No copy has as many bytes.
pub(crate) const MOST_ASKS: u64 = 1_000_000_000_000_000;

/// One check of a copy, named in the type of its reader. A reader of CSV may do what it likes with
/// its reader; with this name it is known that it still asks the check's own source, and not too
/// often.
pub(crate) trait Asking {
    // The name of the source, as a borrow.
    ghost name: { ℕ };

    // The most that the source's count may come to.
    ghost most: { ℕ };
}

impl Asking for Brand {
    ghost name = { 0 };

    ghost most = { 0 };
}

/// A reader that asks a source, with the number of asks that are left, and the row so far.
#[derive(Drop)]
pub(crate) struct AskedReader<'a, A: Asking, R: ByteSource> {
    pub(crate) source: &'a mut R,
    pub(crate) asks_left: u64,
    pub(crate) row: RowSoFar,
    pub(crate) asking: PhantomData<A>,
    ghost same: { source.ghost_name ≡ A.name },
    ghost few: { R.asks source.now + asks_left ≤ A.most },
}

impl<'a, A: Asking, R: ByteSource> AskedReader<'a, A, R> {
    /// Returns the source.
    pub(crate) fn into_source(self) -> &'a mut R
        ensures name { result.ghost_name ≡ A.name }
        ensures asks { R.asks result.now ≤ A.most }
    {
        let AskedReader {
            source,
            asks_left: _,
            row: _,
            asking: _,
        } = self;
        source
    }
}

impl<A: Asking, R: ByteSource> Read for AskedReader<'_, A, R> {
    ghost remaining = { λ asked.
        option_map (front (so_far asked.row)) (R.remaining asked.source.now) };

    fn read(&mut self, buffer: &mut [u8]) -> io::Result<usize> {
        let AskedReader {
            source,
            asks_left,
            row,
            asking: _,
        } = self;
        read_front(&mut **source, asks_left, row, buffer)
    }
}

// Asks for bytes, and returns those up to the byte with which a row is too long. After that byte it
// returns no more bytes.
fn read_front<R: ByteSource>(
    source: &mut R,
    asks_left: &mut u64,
    row: &mut RowSoFar,
    buffer: &mut [u8],
) -> io::Result<usize>
    ensures bound { ReadsAtMost result buffer.new }
    ensures bytes { ReadConsumes (option_map (front (so_far row.old)) (R.remaining source.old))
        (option_map (front (so_far row.new)) (R.remaining source.new)) result buffer.new }
    ensures asks { R.asks source.new + asks_left.new ≤ R.asks source.old + asks_left.old }
{
    if row.is_too_long() {
        return Ok(0);
    }
    let count = read_some(source, asks_left, buffer)?;
    Ok(row.pass(&buffer[..count]))
}

// Asks for bytes, while asks are left. If a signal interrupted the source, asks again.
fn read_some<R: ByteSource>(
    source: &mut R,
    asks_left: &mut u64,
    buffer: &mut [u8],
) -> io::Result<usize>
    ensures bound { ReadsAtMost result buffer.new }
    ensures bytes { ReadConsumes (R.remaining source.old) (R.remaining source.new)
        result buffer.new }

    // Each successful read uses up an ask, so with no ask left there is a fault. No ask is added.
    ensures asked { OnOk result (asks_left.new < asks_left.old) }
    ensures asks { R.asks source.new + asks_left.new ≤ R.asks source.old + asks_left.old }
{
    while *asks_left > 0 {
        *asks_left -= 1;
        match source.ask(buffer) {
            Ok(count) => return Ok(count),
            Err(error) if error.kind() == ErrorKind::Interrupted => {}
            Err(error) => return Err(error),
        }
    }
    Err(io::Error::from(ErrorKind::Other))
}
