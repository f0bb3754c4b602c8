//! Reads one request from a reader: its head, then its body, with the interim answer between them.

ghost use Rattle.std.specs.Prelude.{◌≤◌, ◌+◌, take, IfOk, IfSome};
ghost use Rattle.std.specs.Io.KnownBytes.{Consumes};
ghost use Rattle.lab_wire_heads.specs.Interims.{interim_text};
ghost use Rattle.lab_wire_heads.specs.Receptions.{head_stop};
ghost use Rattle.lab_wire_heads.specs.Reading.{OnMemory};
ghost use Rattle.lab_wire_heads.specs.Receiving.{IsReception, IsWholeRequest, IsInterimOf, most_asks};

use crate::asks::MOST_ASKS;
use crate::bodies::read_body;
use crate::head_bytes::read_head;
use crate::interim_lines::send_interim;
use crate::{HEAD_LIMIT, HeadFault, Received, kept_head};
use lab_forms_streams::ByteSource;
use std::alloc::Global;
use std::io::Write;

/// Reads one request, head and body. What follows the body stays in the reader. Once the head is
/// accepted, the interim answer is sent to a client that waits for it; otherwise nothing is
/// written.
///
/// Asks the reader for single bytes up to the end of the head, and at most 80,000 times in all.
///
/// # Errors
/// - `Refused`, as `request_parts` returns it: the reader's bytes don't begin with a request that
///   may be read;
/// - `Read`: the reader failed, or was asked too often;
/// - `Write`: the writer of the interim answer failed, or took no byte;
/// - `Memory`: memory for the bytes ran out after the head was accepted. Nothing after the head was
///   read.
pub fn read_request<R: ByteSource, W: Write>(
    alloc: Global,
    reader: &mut R,
    writer: &mut W,
) -> Result<Received, HeadFault>
    // The result depends only on the reader's bytes, not on the pieces in which they came.
    ensures exact { IfSome (R.remaining reader.old) (λ bytes. IsReception bytes result) }
    ensures rest { IfOk result (λ request.
        Consumes (R.remaining reader.old) (R.remaining reader.new) request) }
    ensures interim { IfSome (R.remaining reader.old) (λ bytes.
        IsInterimOf (interim_text bytes) result (W.contents writer.old) (W.contents writer.new)) }

    ensures unread { OnMemory result (IfSome (R.remaining reader.old) (λ bytes.
        Consumes (R.remaining reader.old) (R.remaining reader.new)
        (take (head_stop bytes) bytes))) }

    // For any reader:
    ensures whole { IfOk result IsWholeRequest }
    ensures asks { R.asks reader.new ≤ R.asks reader.old + most_asks }
{
    let mut asks_left = MOST_ASKS;
    let mut room = [0; HEAD_LIMIT];
    let count = read_head(reader, &mut asks_left, &mut room)?;
    let head = &room[..count];
    let kept = kept_head(head)?;
    send_interim(writer, kept.body.is_interim_due)?;
    read_body(alloc, reader, &mut asks_left, head, kept)
}
