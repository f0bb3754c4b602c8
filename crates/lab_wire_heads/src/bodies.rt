//! Reads the body after a head, and no byte after the body.

ghost use Rattle.std.specs.Prelude.{◌≡◌, ◌<◌, ◌≤◌, ◌+◌, length, take, IfOk, IfErr};
ghost use Rattle.std.specs.Io.KnownBytes.{IsAtEnd};
ghost use Rattle.lab_wire_heads.specs.Accepted.{IsHeadAt};
ghost use Rattle.lab_wire_heads.specs.Heads.{head_limit};
ghost use Rattle.lab_wire_heads.specs.Lengths.{body_limit};
ghost use Rattle.lab_wire_heads.specs.Receptions.{head_stop};
ghost use Rattle.lab_wire_heads.specs.Private.Reading.{CameBehind, HasBody, IsBodyFault};
ghost use Rattle.lab_wire_heads.specs.Reading.{OnMemory};

use crate::asks::{ReadFault, read_some};
use crate::{AcceptedHead, HeadFault, HeadRefusal, Received};
use lab_forms_streams::ByteSource;
use lab_forms_texts::Series;
use std::alloc::Global;

// Reads from that place on until the bytes are full or the reader ends. Returns the place up to
// which bytes came.
fn fill<R: ByteSource>(
    reader: &mut R,
    asks_left: &mut u32,
    bytes: &mut [u8],
    start: usize,
) -> Result<usize, ReadFault>
    requires { start ≤ length bytes.old }
    ensures within { IfOk result (λ end. end ≤ length bytes.new) }
    ensures taken { IfOk result (λ end. CameBehind (take start bytes.old) (take end bytes.new)
        (R.remaining reader.old) (R.remaining reader.new)) }
    ensures end { IfOk result (λ end. end < length bytes.new → IsAtEnd (R.remaining reader.new)) }
    ensures asks { R.asks reader.new + asks_left.new ≤ R.asks reader.old + asks_left.old }
{
    let mut end = start;
    while end < bytes.len() {
        let count = read_some(reader, asks_left, &mut bytes[end..])?;
        if count == 0 {
            return Ok(end);
        }
        end += count;
    }
    Ok(end)
}

/// Reads the body after the head, and returns the request. `kept` is what is kept of that head.
///
/// # Errors
/// The reader ended too early (`ShortBody`), failed or was asked too often, or memory ran out.
pub(crate) fn read_body<R: ByteSource>(
    alloc: Global,
    reader: &mut R,
    asks_left: &mut u32,
    head: &[u8],
    kept: AcceptedHead,
) -> Result<Received, HeadFault>
    requires head { length head.now ≤ head_limit }
    requires body { kept.body.length ≤ body_limit }
    requires kept { IsHeadAt head.now kept }
    requires own { head_stop head.now ≡ length head.now }
    ensures whole { IfOk result (λ request. HasBody head.now kept.body.length request
        (R.remaining reader.old) (R.remaining reader.new)) }
    ensures fault { IfErr result (IsBodyFault (R.remaining reader.old) kept.body.length) }
    ensures unread { OnMemory result (reader.new ≡ reader.old) }
    ensures asks { R.asks reader.new + asks_left.new ≤ R.asks reader.old + asks_left.old }
{
    let whole = head.len() + kept.body.length;
    let mut bytes = Vec::from_slice(alloc, head)?;
    bytes.resize(whole, 0)?;
    if fill(reader, asks_left, &mut bytes, head.len())? < whole {
        return Err(HeadFault::Refused(HeadRefusal::ShortBody));
    }
    Ok(Received::new(Series::from_vec(bytes), kept))
}
