//! A request as it stands in its bytes: the parts of its head that are read, and its body.

ghost use Rattle.std.specs.Prelude.{◌≡◌, ◌+◌, nat_le, length, take, drop, if◌then◌else◌, IfOk, IfErr, Ok, Err, Some, None, option_map};
ghost use Rattle.lab_wire_heads.specs.Heads.{head_received, AreWithin, IsReadFrom};
ghost use Rattle.lab_wire_heads.specs.Lengths.{head_refusal};
ghost use Rattle.lab_wire_heads.specs.Requests.{accepted_head, parts_shown, request_in};

use crate::heads::{RequestHead, read_head};
use crate::lengths::{body_length, head_refusal};
use crate::refusals::HeadRefusal;
use crate::tokens::token_in;
use lab_seal_hashes::Token;

/// The parts of a request that are read, where they stand in its bytes.
#[derive(Clone, Copy)]
pub struct RequestParts<'b> {
    /// The method, as written.
    pub method: &'b [u8],
    /// The target, as written.
    pub target: &'b str,
    /// The token with which the request names its session, if it names one.
    pub token: Option<Token>,
    /// The body.
    pub body: &'b [u8],
}

/// Reads the head of a request, and returns it if the body may be read.
///
/// # Errors
/// Why the bytes aren't a request head.
pub(crate) fn accept(bytes: &[u8]) -> Result<RequestHead<'_>, HeadRefusal>
    ensures accepted { IfOk result (λ read. accepted_head bytes.now ≡ Ok (head_received read)) }
    ensures within { IfOk result AreWithin }
    ensures places { IfOk result (IsReadFrom bytes.now) }
    ensures unrefused { IfOk result (λ read. head_refusal (head_received read).head ≡ None) }
    ensures refused { IfErr result (λ refusal. accepted_head bytes.now ≡ Err refusal) }
{
    match read_head(bytes) {
        Ok(head) => match head_refusal(&head) {
            Some(refusal) => Err(refusal),
            None => Ok(head),
        },
        Err(refusal) => Err(refusal),
    }
}

// The given number of bytes from a place on, if that many have come.
fn bytes_at(bytes: &[u8], start: usize, count: usize) -> Option<&[u8]>
    ensures { option_map (λ found. found.now) result
        ≡ (if nat_le (start + count) (length bytes.now)
        then Some (take count (drop start bytes.now)) else None) }
{
    bytes.get(start..)?.get(..count)
}

/// Reads the request at the front of the bytes: its head, what its fields say, and its body, which
/// must be whole. Ignores what follows the body. Allocates no memory.
///
/// # Errors
/// The first of these that holds:
/// - `HeadTooLong` if 8,192 bytes came without an empty line, with the skipped ones counted, or if
///   over 64 field lines came;
/// - `BadHead` if the head isn't whole, isn't a request head (RFC 9112, sections 3 and 5), is one
///   of HTTP/1.1 without exactly one Host, or has more than one Authorization or Content-Length;
/// - `TransferCoding` if the head has a Transfer-Encoding;
/// - `BadHead` if its Content-Length isn't a row of digits;
/// - `LengthWanted` if its method is POST and it has no Content-Length;
/// - `BodyTooLong` if the body has more than 65,536 bytes;
/// - `ShortBody` if the body isn't whole.
pub fn request_parts(bytes: &[u8]) -> Result<RequestParts<'_>, HeadRefusal>
    ensures parts { IfOk result (λ parts. request_in bytes.now ≡ Ok (parts_shown parts)) }
    ensures refused { IfErr result (λ refusal. request_in bytes.now ≡ Err refusal) }
{
    match accept(bytes) {
        Ok(head) => match bytes_at(bytes, head.end, body_length(&head)) {
            Some(body) => Ok(RequestParts {
                method: head.method,
                target: head.target,
                token: token_in(&head),
                body,
            }),
            None => Err(HeadRefusal::ShortBody),
        },
        Err(refusal) => Err(refusal),
    }
}
