//! The head of a request (RFC 9112): its limits, grammar, Host and the words of its request line.
ghost use Rattle.std.specs.Prelude.{◌≡◌, ◌+◌, ◌≤◌, ◌==◌, ◌||◌, not, ℕ, List, length, take, All, IfOk, IfErr, IfSome, IfNone, Ok, Err, position, count_by};
ghost use Rattle.httparse.specs.Grammar.{ReadsRequest, RequestHead as GrammarHead};
ghost use Rattle.httparse.specs.Spans.{IsHeaderWithin, IsRequestWithin, IsRequestOf, span_bytes};
ghost use Rattle.lab_wire_heads.specs.Heads.{is_line_feed, is_empty_line, without_front, front_length, head_limit, head_text, head_lines, has_end, is_over_limits, is_host, good_head, head_received, AreWithin, IsReadFrom};

use crate::refusals::HeadRefusal;
use httparse::Status;
use httparse::spans::{EMPTY_HEADER_SPAN, HeaderSpan, RequestSpans, Span, parse_request};

/// How many bytes may come before the end of a head, with the bytes that were skipped at the front.
pub const HEAD_LIMIT: usize = 8192;

/// How many field lines a head may have.
const FIELD_LIMIT: usize = 64;

/// The number of lines of a head that have come, and whether its empty line has come.
#[derive(Drop)]
struct HeadSize {
    lines: usize,
    has_end: bool,
}

/// The bytes from the request line on, and how many bytes were skipped before it.
#[derive(Drop)]
struct Text<'b> {
    front: usize,
    text: &'b [u8],
}

/// The head of a request.
#[derive(Drop)]
pub struct RequestHead<'b> {
    /// The method, as written.
    pub method: &'b [u8],
    /// The target, as written.
    pub target: &'b str,
    /// Where the method stands in the bytes of the request.
    pub method_span: Span,
    /// Where the target stands there.
    pub target_span: Span,
    /// The second number of its version: 0 or 1.
    pub minor_version: u8,
    /// The bytes in which the fields stand.
    pub text: &'b [u8],
    /// Where the fields stand in these bytes; the first `field_count` places are used.
    pub fields: [HeaderSpan; FIELD_LIMIT],
    /// The number of fields.
    pub field_count: usize,
    /// The number of bytes before what follows the head, with the bytes that were skipped at the
    /// front.
    pub end: usize,
}

fn without_front(bytes: &[u8]) -> Text<'_>
    ensures front { result.front ≡ front_length bytes.now }
    ensures text { result.text.now ≡ without_front bytes.now }
    ensures fits { result.front + length result.text.now ≤ length bytes.now }
{
    let mut rest = bytes;
    let mut front = 0;
    while let [b'\r' | b'\n', after @ ..] = rest {
        rest = after;
        front += 1;
    }
    Text { front, text: rest }
}

// The part of the bytes that is read.
#[tactic(auto, using(crate::proofs::ReadLemmas::take_within))]
fn head_text(bytes: &[u8]) -> Text<'_>
    ensures front { result.front ≡ front_length (take head_limit bytes.now) }
    ensures text { result.text.now ≡ head_text bytes.now }
    ensures fits { result.front + length result.text.now ≤ length bytes.now }
{
    without_front(&bytes[..bytes.len().min(HEAD_LIMIT)])
}

fn is_empty_line(line: &[u8]) -> bool
    ensures { result ≡ is_empty_line line.now }
{
    matches!(line, [] | [b'\r'])
}

// Where the first line ends.
fn line_end(text: &[u8]) -> Option<usize>
    ensures { result ≡ position is_line_feed text.now }
{
    text.iter().position(|byte| *byte == b'\n')
}

fn head_size(text: &[u8]) -> HeadSize
    ensures lines { result.lines ≡ length (head_lines text.now) }
    ensures end { result.has_end ≡ has_end text.now }
{
    let mut rest = text;
    let mut lines = 0;
    while let Some(end) = line_end(rest) {
        if is_empty_line(&rest[..end]) {
            return HeadSize {
                lines,
                has_end: true,
            };
        }
        lines += 1;
        rest = &rest[end + 1..];
    }
    HeadSize {
        lines,
        has_end: false,
    }
}

#[tactic(auto, unfolding(crate::specs::Heads::is_over_limits))]
fn is_over_limits(came: usize, text: &[u8]) -> bool
    ensures { result ≡ is_over_limits came text.now }
{
    let size = head_size(text);
    (came >= HEAD_LIMIT && !size.has_end) || size.lines > 1 + FIELD_LIMIT
}

// The head at the front of the text, if its fields fit into the room.
fn parse_head(text: &[u8], headers: &mut [HeaderSpan]) -> Option<RequestSpans>
    ensures within { IfSome result (IsRequestWithin text.now headers.new) }
    ensures head { IfSome result (IsRequestOf text.now headers.new) }
    ensures none { IfNone result ((head : GrammarHead) (rest : List ℕ)
        → ReadsRequest text.now head rest → ¬ (length head.fields ≤ length headers.old)) }
{
    match parse_request(text, headers) {
        Ok(Status::Complete(head)) => Some(head),
        _ => None,
    }
}

fn is_host(name: &[u8]) -> bool
    ensures { result ≡ is_host name.now }
{
    name.eq_ignore_ascii_case(b"host")
}

fn host_count(text: &[u8], headers: &[HeaderSpan]) -> usize
    requires { All (IsHeaderWithin (length text.now)) headers.now }
    ensures { result ≡ count_by (λ header. is_host (span_bytes text.now header.name)) headers.now }
{
    let mut hosts = 0;
    for header in headers {
        if is_host(header.name.of(text)) {
            hosts += 1;
        }
    }
    hosts
}

// HTTP/1.1 requires exactly one Host.
fn keeps_host_rule(minor_version: u8, hosts: usize) -> bool
    ensures { result ≡ (not (minor_version == 1) || (hosts == 1)) }
{
    minor_version != 1 || hosts == 1
}

/// Reads the head of a request, and returns it if its limits, its grammar and its Host are good.
///
/// # Errors
/// Why the bytes aren't a request head.
pub fn read_head(bytes: &[u8]) -> Result<RequestHead<'_>, HeadRefusal>
    ensures good { IfOk result (λ read. good_head bytes.now ≡ Ok (head_received read)) }
    ensures within { IfOk result AreWithin }
    ensures places { IfOk result (IsReadFrom bytes.now) }
    ensures refused { IfErr result (λ refusal. good_head bytes.now ≡ Err refusal) }
{
    let Text { front, text } = head_text(bytes);
    if is_over_limits(bytes.len(), text) {
        return Err(HeadRefusal::HeadTooLong);
    }
    let mut fields = [EMPTY_HEADER_SPAN; FIELD_LIMIT];
    let Some(head) = parse_head(text, &mut fields) else {
        return Err(HeadRefusal::BadHead);
    };
    let Ok(target) = str::from_utf8(head.path.of(text)) else {
        return Err(HeadRefusal::BadHead);
    };
    let hosts = host_count(text, &fields[..head.headers]);
    if !keeps_host_rule(head.version, hosts) {
        return Err(HeadRefusal::BadHead);
    }
    Ok(RequestHead {
        method: head.method.of(text),
        target,
        method_span: Span {
            start: front + head.method.start,
            end: front + head.method.end,
        },
        target_span: Span {
            start: front + head.path.start,
            end: front + head.path.end,
        },
        minor_version: head.version,
        text,
        fields,
        field_count: head.headers,
        end: front + head.len,
    })
}
