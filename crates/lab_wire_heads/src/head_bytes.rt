//! Reads the bytes of a head, and no byte after it.

ghost use Rattle.std.specs.Prelude.{◌≡◌, ◌≤◌, ◌+◌, length, take, IfOk, IfSome};
ghost use Rattle.std.specs.Io.KnownBytes.{Consumes};
ghost use Rattle.lab_wire_heads.specs.Heads.{head_limit};
ghost use Rattle.lab_wire_heads.specs.Receptions.{head_stop};

use crate::asks::{ReadFault, next_byte};
use crate::stages::HeadStage;
use lab_forms_streams::ByteSource;

/// Reads the bytes of a head into the room, one at a time, so that the bytes after the head stay in
/// the reader. Stops at the end of the head, or at the limit, or at the last byte. Returns how many
/// bytes were read.
///
/// # Errors
/// The source failed, or was asked too often.
pub(crate) fn read_head<R: ByteSource>(
    reader: &mut R,
    asks_left: &mut u32,
    room: &mut [u8],
) -> Result<usize, ReadFault>
    requires { length room.old ≡ head_limit }
    ensures within { IfOk result (λ count. count ≤ length room.new) }
    ensures taken { IfOk result (λ count.
        Consumes (R.remaining reader.old) (R.remaining reader.new) (take count room.new)) }
    ensures stops { IfOk result (λ count.
        IfSome (R.remaining reader.old) (λ bytes. count ≡ head_stop bytes)) }
    ensures own { IfOk result (λ count. head_stop (take count room.new) ≡ count) }
    ensures asks { R.asks reader.new + asks_left.new ≤ R.asks reader.old + asks_left.old }
{
    let mut stage = HeadStage::Front;
    let mut count = 0;
    while count < room.len() {
        let Some(byte) = next_byte(reader, asks_left)? else {
            return Ok(count);
        };
        room[count] = byte;
        count += 1;
        stage = stage.after(byte);
        if stage.has_ended() {
            return Ok(count);
        }
    }
    Ok(count)
}
