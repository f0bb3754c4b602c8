//! Finds the fields of a head by their names.

ghost use Rattle.std.specs.Prelude.{◌≡◌, length, take, All, count_by, map, option_map};
ghost use Rattle.httparse.specs.Spans.{IsHeaderWithin};
ghost use Rattle.lab_wire_heads.specs.Heads.{field_at, head_received, AreWithin};
ghost use Rattle.lab_wire_heads.specs.Fields.{is_named, count_named, value_named};

use crate::heads::RequestHead;
use httparse::spans::HeaderSpan;

// Where the fields of a head stand in its text.
#[tactic(auto, using(crate::proofs::ReadLemmas::take_within))]
pub(crate) fn spans_of<'h>(head: &'h RequestHead<'_>) -> &'h [HeaderSpan]
    ensures { result.now ≡ take head.now.field_count head.now.fields }
{
    &head.fields[..head.fields.len().min(head.field_count)]
}

// The field that stands there has the name, in any case.
fn is_named(text: &[u8], field: &HeaderSpan, name: &[u8]) -> bool
    requires { IsHeaderWithin (length text.now) field.now }
    ensures { result ≡ is_named name.now (field_at text.now field.now) }
{
    field.name.of(text).eq_ignore_ascii_case(name)
}

fn count_spans(text: &[u8], fields: &[HeaderSpan], name: &[u8]) -> usize
    requires { All (IsHeaderWithin (length text.now)) fields.now }
    ensures { result ≡ count_by (λ field. is_named name.now (field_at text.now field)) fields.now }
{
    let mut count = 0;
    for field in fields {
        if is_named(text, field, name) {
            count += 1;
        }
    }
    count
}

fn find_value<'b>(text: &'b [u8], fields: &[HeaderSpan], name: &[u8]) -> Option<&'b [u8]>
    requires { All (IsHeaderWithin (length text.now)) fields.now }
    ensures { option_map (λ value. value.now) result
        ≡ value_named name.now (map (field_at text.now) fields.now) }
{
    let mut rest = fields;
    while let [field, after @ ..] = rest {
        if is_named(text, field, name) {
            return Some(field.value.of(text));
        }
        rest = after;
    }
    None
}

/// Returns how many fields have the name, in any case.
pub(crate) fn count_named(head: &RequestHead<'_>, name: &[u8]) -> usize
    requires { AreWithin head.now }
    ensures { result ≡ count_named name.now (head_received head.now).head.fields }
{
    count_spans(head.text, spans_of(head), name)
}

/// Returns the value of the first field with the name.
pub(crate) fn value_named<'b>(head: &RequestHead<'b>, name: &[u8]) -> Option<&'b [u8]>
    requires { AreWithin head.now }
    ensures { option_map (λ value. value.now) result
        ≡ value_named name.now (head_received head.now).head.fields }
{
    find_value(head.text, spans_of(head), name)
}
