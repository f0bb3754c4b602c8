//! Whether a client waits for an interim answer before it sends its body.

ghost use Rattle.std.specs.Prelude.{◌≡◌, length, All, None, map};
ghost use Rattle.std.specs.List.{list_any};
ghost use Rattle.httparse.specs.Spans.{IsHeaderWithin};
ghost use Rattle.lab_wire_heads.specs.Heads.{field_at, head_received, AreWithin};
ghost use Rattle.lab_wire_heads.specs.Lengths.{head_refusal};
ghost use Rattle.lab_wire_heads.specs.Interims.{is_expectation, is_interim_due};

use crate::fields::spans_of;
use crate::heads::RequestHead;
use crate::lengths::body_length;
use httparse::spans::HeaderSpan;

fn is_expectation(text: &[u8], field: &HeaderSpan) -> bool
    requires { IsHeaderWithin (length text.now) field.now }
    ensures { result ≡ is_expectation (field_at text.now field.now) }
{
    field.name.of(text).eq_ignore_ascii_case(b"expect")
        && field.value.of(text).eq_ignore_ascii_case(b"100-continue")
}

fn has_expectation(text: &[u8], fields: &[HeaderSpan]) -> bool
    requires { All (IsHeaderWithin (length text.now)) fields.now }
    ensures { result ≡ list_any is_expectation (map (field_at text.now) fields.now) }
{
    let mut rest = fields;
    while let [field, after @ ..] = rest {
        if is_expectation(text, field) {
            return true;
        }
        rest = after;
    }
    false
}

/// Returns whether the interim answer is due before the body of an accepted head.
pub(crate) fn is_interim_due(head: &RequestHead<'_>) -> bool
    requires within { AreWithin head.now }
    requires accepted { head_refusal (head_received head.now).head ≡ None }
    ensures { result ≡ is_interim_due (head_received head.now).head }
{
    head.minor_version == 1 && has_expectation(head.text, spans_of(head)) && body_length(head) > 0
}
