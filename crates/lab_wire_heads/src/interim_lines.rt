//! The interim answer to a client that waits before it sends its body.

ghost use Rattle.std.specs.Prelude.{◌<◌, length, take, OnOk, IfErr};
ghost use Rattle.std.specs.Io.KnownBytes.{Appends};
ghost use Rattle.lab_wire_heads.specs.Private.Receiving.{lines_if};

use lab_forms_streams::{WriteFault, write_whole};
use std::io::Write;

/// The interim answer (RFC 9110, section 15.2.1).
const INTERIM_LINES: &[u8] = b"HTTP/1.1 100 Continue\r\n\r\n";

/// Writes the interim answer if it is due; otherwise writes nothing.
///
/// # Errors
/// A write failed, or took no byte.
pub(crate) fn send_interim<W: Write>(writer: &mut W, is_due: bool) -> Result<(), WriteFault>
    ensures whole { OnOk result
        (Appends (W.contents writer.old) (W.contents writer.new) (lines_if is_due)) }
    ensures cut { IfErr result (λ fault.
        Appends (W.contents writer.old) (W.contents writer.new)
        (take fault.sent (lines_if is_due))) }
    ensures short { IfErr result (λ fault. fault.sent < length (lines_if is_due)) }
{
    let lines = if is_due { INTERIM_LINES } else { b"" };
    write_whole(writer, lines)
}
