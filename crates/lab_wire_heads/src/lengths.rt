//! The length of a body, and why a head whose grammar is good is refused.

ghost use Rattle.std.specs.Prelude.{◌≡◌, ◌+◌, min, IsTrue, None};
ghost use Rattle.std.specs.List.{list_all};
ghost use Rattle.std.specs.Char.{is_ascii_digit, digit_value};
ghost use Rattle.std.specs.Str.Parse.{digits_value};
ghost use Rattle.lab_wire_heads.specs.Heads.{head_received, AreWithin};
ghost use Rattle.lab_wire_heads.specs.Fields.{has_field, is_repeated};
ghost use Rattle.lab_wire_heads.specs.Lengths.{body_limit, is_digits, is_length_good, body_length, is_post, head_refusal};

use crate::fields::{count_named, value_named};
use crate::heads::RequestHead;
use crate::refusals::HeadRefusal;

/// How many bytes a body may have.
const BODY_LIMIT: usize = 65_536;

fn are_digits(value: &[u8]) -> bool
    ensures { result ≡ list_all is_ascii_digit value.now }
{
    value.iter().all(|byte| byte.is_ascii_digit())
}

fn is_digits(value: &[u8]) -> bool
    ensures { result ≡ is_digits value.now }
{
    !value.is_empty() && are_digits(value)
}

fn digit_of(byte: u8) -> usize
    requires { IsTrue (is_ascii_digit byte) }
    ensures { result ≡ digit_value byte }
{
    usize::from(byte - b'0')
}

// The number that the digits write, or the limit plus one if the number is larger than the limit.
fn length_of(digits: &[u8]) -> usize
    requires { IsTrue (is_digits digits.now) }
    ensures { result ≡ min (digits_value 10 digits.now) (body_limit + 1) }
{
    let mut length = 0;
    for digit in digits {
        length = (length * 10 + digit_of(*digit)).min(BODY_LIMIT + 1);
    }
    length
}

fn is_length_good(head: &RequestHead<'_>) -> bool
    requires { AreWithin head.now }
    ensures { result ≡ is_length_good (head_received head.now).head.fields }
{
    match value_named(head, b"content-length") {
        Some(value) => is_digits(value),
        None => true,
    }
}

// The length that the head states, or the limit plus one if it is larger than the limit.
#[tactic(auto, unfolding(crate::specs::Lengths::body_length))]
fn stated_length(head: &RequestHead<'_>) -> usize
    requires within { AreWithin head.now }
    requires good { IsTrue (is_length_good (head_received head.now).head.fields) }
    ensures { result ≡ min (body_length (head_received head.now).head.fields) (body_limit + 1) }
{
    match value_named(head, b"content-length") {
        Some(value) => length_of(value),
        None => 0,
    }
}

fn is_post(method: &[u8]) -> bool
    ensures { result ≡ is_post method.now }
{
    method == b"POST".as_slice()
}

fn has_field(head: &RequestHead<'_>, name: &[u8]) -> bool
    requires { AreWithin head.now }
    ensures { result ≡ has_field name.now (head_received head.now).head.fields }
{
    count_named(head, name) > 0
}

fn is_repeated(head: &RequestHead<'_>, name: &[u8]) -> bool
    requires { AreWithin head.now }
    ensures { result ≡ is_repeated name.now (head_received head.now).head.fields }
{
    count_named(head, name) > 1
}

/// Returns why a head whose grammar is good is refused: the first check that finds a fault.
#[tactic(auto, unfolding(crate::specs::Lengths::head_refusal))]
pub(crate) fn head_refusal(head: &RequestHead<'_>) -> Option<HeadRefusal>
    requires { AreWithin head.now }
    ensures { result ≡ head_refusal (head_received head.now).head }
{
    if is_repeated(head, b"authorization") || is_repeated(head, b"content-length") {
        return Some(HeadRefusal::BadHead);
    }
    if has_field(head, b"transfer-encoding") {
        return Some(HeadRefusal::TransferCoding);
    }
    if !is_length_good(head) {
        return Some(HeadRefusal::BadHead);
    }
    if is_post(head.method) && !has_field(head, b"content-length") {
        return Some(HeadRefusal::LengthWanted);
    }
    if stated_length(head) > BODY_LIMIT {
        return Some(HeadRefusal::BodyTooLong);
    }
    None
}

/// Returns how many bytes the body of an accepted head has.
#[tactic(auto, unfolding(crate::specs::Lengths::head_refusal))]
pub(crate) fn body_length(head: &RequestHead<'_>) -> usize
    requires within { AreWithin head.now }
    requires accepted { head_refusal (head_received head.now).head ≡ None }
    ensures { result ≡ body_length (head_received head.now).head.fields }
{
    stated_length(head)
}
