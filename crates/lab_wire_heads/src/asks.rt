//! Asks a source for bytes, but only a limited number of times.

ghost use Rattle.std.specs.Prelude.{◌<◌, ◌≤◌, ◌+◌, OnOk, IfOk};
ghost use Rattle.std.specs.Io.{ReadsAtMost};
ghost use Rattle.std.specs.Io.KnownBytes.{ReadConsumes};
ghost use Rattle.lab_wire_heads.specs.Private.Reading.{TakesByte};

use crate::HeadFault;
use lab_forms_streams::ByteSource;
use std::io::ErrorKind;

/// How often a source is asked for one request before it counts as failed. A request has at most
/// 73,728 bytes.
pub(crate) const MOST_ASKS: u32 = 80_000;

/// The source failed, or was asked too often.
#[derive(Clone, Copy, Debug, PartialEq, Eq)]
pub(crate) struct ReadFault;

impl From<ReadFault> for HeadFault {
    ghost use Rattle.std.specs.Prelude.{◌≡◌};
    ghost use Rattle.lab_wire_heads.specs.declared.refusals.HeadFault.TheVariants.{Read as Unread};

    ghost from_gives = { λ _ fault. fault ≡ Unread };

    fn from(_fault: ReadFault) -> HeadFault {
        HeadFault::Read
    }
}

/// Asks for bytes while asks are left. Asks again if a signal interrupted the source.
///
/// # Errors
/// The source failed, or no asks are left.
pub(crate) fn read_some<R: ByteSource>(
    reader: &mut R,
    asks_left: &mut u32,
    buffer: &mut [u8],
) -> Result<usize, ReadFault>
    ensures bound { ReadsAtMost result buffer.new }
    ensures bytes { ReadConsumes (R.remaining reader.old) (R.remaining reader.new)
        result buffer.new }

    // Each answer of the source costs an ask, so with no asks left there is a fault; and no ask is
    // given back.
    ensures asked { OnOk result (asks_left.new < asks_left.old) }
    ensures asks { R.asks reader.new + asks_left.new ≤ R.asks reader.old + asks_left.old }
{
    while *asks_left > 0 {
        *asks_left -= 1;
        match reader.ask(buffer) {
            Ok(count) => return Ok(count),
            Err(error) if error.kind() == ErrorKind::Interrupted => {}
            Err(_) => return Err(ReadFault),
        }
    }
    Err(ReadFault)
}

/// Returns the next byte, or `None` at the end.
///
/// # Errors
/// The source failed, or no asks are left.
pub(crate) fn next_byte<R: ByteSource>(
    reader: &mut R,
    asks_left: &mut u32,
) -> Result<Option<u8>, ReadFault>
    ensures taken { IfOk result (TakesByte (R.remaining reader.old) (R.remaining reader.new)) }
    ensures asks { R.asks reader.new + asks_left.new ≤ R.asks reader.old + asks_left.old }
{
    let mut byte = [0];
    if read_some(reader, asks_left, &mut byte)? == 0 {
        return Ok(None);
    }
    Ok(Some(byte[0]))
}
