//! Fields: the items at the front of a text, each read as a value of its type: a number, a word, a
//! moment or a digest. Each call returns the value and the rest of the text. Reading a field takes
//! no memory.
ghost use Rattle.std.specs.Prelude.{◌≡◌, ◌==◌, ◌+◌, ◌<◌, ◌≤◌, if◌then◌else◌, Some, None, IfOk, IsTrue, option_map};
ghost use Rattle.std.specs.List.{position};
ghost use Rattle.std.specs.Str.{is_utf8};
ghost use Rattle.lab_seal_hashes.specs.Digits.{bytes_of_digits};
ghost use Rattle.lab_seal.specs.Reading.{number_written, line_of, first_item, first_as, text_where, this_word, which_word, ordinal_in, reason_in, moment_in};
ghost use Rattle.lab_forms_texts.specs.Moment.{moment_of};

use itoa::Buffer;
use lab_forms_texts::{Moment, NameFault, Notes, Ordinal, OutOfMemory, Text, TextRule};
use lab_seal_hashes::Digest;
use std::alloc::Global;

/// Returns a copy of a text that the rule admits.
///
/// # Errors
/// Memory ran out.
pub fn own_copy<R: TextRule>(alloc: Global, text: &str) -> Result<Text<R>, OutOfMemory>
    requires { IsTrue (R.admits text.now) }
    ensures { IfOk result (λ copy. copy ≡ text.now) }
{
    match Text::parse(alloc, text) {
        Ok(copy) => Ok(copy),
        Err(NameFault::Memory) => Err(OutOfMemory),
        Err(NameFault::Refused(_)) => unreachable!(),
    }
}

/// Returns the number with these decimal digits, without leading zeros. `None` if the bytes aren't
/// the digits of a number of 64 bits.
//
// Most items are shorter than a hundred bytes, so numbers of one and two digits are read
// separately.
pub fn value_of(digits: &[u8]) -> Option<usize>
    ensures { result ≡ number_written digits.now }
{
    match digits {
        [only @ b'0'..=b'9'] => Some(value_of_digit(*only)),
        [tens @ b'1'..=b'9', ones @ b'0'..=b'9'] => {
            Some(10 * value_of_digit(*tens) + value_of_digit(*ones))
        }
        _ => parsed_value_of(digits),
    }
}

fn value_of_digit(digit: u8) -> usize
    requires from { 48 ≤ digit }
    requires to { digit < 58 }
    ensures value { 48 + result ≡ digit }
    ensures small { result < 10 }
{
    usize::from(digit - b'0')
}

fn parsed_value_of(digits: &[u8]) -> Option<usize>
    ensures { result ≡ number_written digits.now }
{
    let text = str::from_utf8(digits).ok()?;
    let value = text.parse::<usize>().ok()?;
    let mut buffer = Buffer::new();
    if buffer.format(value).as_bytes() == digits {
        Some(value)
    } else {
        None
    }
}

fn first_colon(text: &[u8]) -> Option<usize>
    ensures { result ≡ position (λ byte. byte == 58) text.now }
{
    text.iter().position(|byte| *byte == b':')
}

// This number of bytes, if a line feed follows them.
#[tactic(auto, unfolding(crate::specs::Reading::line_of))]
fn line_of(text: &[u8], count: usize) -> Option<(&[u8], &[u8])>
    ensures { option_map (λ parts. (parts.0.now, parts.1.now)) result ≡ line_of count text.now }
{
    if count >= text.len() || text[count] != b'\n' {
        return None;
    }
    Some((&text[..count], &text[count + 1..]))
}

/// Returns the bytes of the item at the front, and the rest.
#[tactic(auto, unfolding(crate::specs::Reading::first_item))]
pub fn bytes(text: &[u8]) -> Option<(&[u8], &[u8])>
    ensures { option_map (λ parts. (parts.0.now, parts.1.now)) result ≡ first_item text.now }
{
    let colon = first_colon(text)?;
    let count = value_of(&text[..colon])?;
    line_of(&text[colon + 1..], count)
}

/// Reads a text that the rule admits.
#[tactic(auto, unfolding(crate::specs::Reading::first_as))]
pub fn text<R: TextRule>(front: &[u8]) -> Option<(&str, &[u8])>
    ensures { option_map (λ found. (found.0.now, found.1.now)) result
        ≡ first_as (text_where R.admits) front.now }
{
    let (bytes, rest) = bytes(front)?;
    Some((admitted_in::<R>(bytes)?, rest))
}

fn admitted_in<R: TextRule>(bytes: &[u8]) -> Option<&str>
    ensures { option_map (λ text. text.now) result ≡ text_where R.admits bytes.now }
{
    let text = text_in(bytes)?;
    if R::admits(text) { Some(text) } else { None }
}

/// Returns the bytes as a text, if they are UTF-8.
pub fn text_in(bytes: &[u8]) -> Option<&str>
    ensures { option_map (λ text. text.now) result
        ≡ (if is_utf8 bytes.now then Some bytes.now else None) }
{
    str::from_utf8(bytes).ok()
}

/// Returns what follows the item at the front, if it has these bytes.
#[tactic(auto, unfolding(crate::specs::Reading::first_as))]
pub fn after<'a>(text: &'a [u8], expected: &[u8]) -> Option<&'a [u8]>
    ensures { option_map (λ rest. (tt, rest.now)) result
        ≡ first_as (this_word expected.now) text.now }
{
    let (bytes, rest) = bytes(text)?;
    if bytes == expected { Some(rest) } else { None }
}

/// Returns which of two words the item at the front is.
#[tactic(auto, unfolding(crate::specs::Reading::first_as))]
pub fn choice<'a>(text: &'a [u8], yes: &[u8], no: &[u8]) -> Option<(bool, &'a [u8])>
    ensures { option_map (λ found. (found.0, found.1.now)) result
        ≡ first_as (which_word yes.now no.now) text.now }
{
    let (bytes, rest) = bytes(text)?;
    if bytes == yes {
        Some((true, rest))
    } else if bytes == no {
        Some((false, rest))
    } else {
        None
    }
}

/// Reads the number of a list's elements.
#[tactic(auto, unfolding(crate::specs::Reading::first_as))]
pub fn count(text: &[u8]) -> Option<(usize, &[u8])>
    ensures { option_map (λ found. (found.0, found.1.now)) result ≡ first_as number_written text.now }
{
    let (digits, rest) = bytes(text)?;
    let count = value_of(digits)?;
    Some((count, rest))
}

/// Reads the number of a record, a version or a form's version.
#[tactic(auto, unfolding(crate::specs::Reading::first_as))]
pub fn ordinal(text: &[u8]) -> Option<(u32, &[u8])>
    ensures { option_map (λ found. (found.0, found.1.now)) result ≡ first_as ordinal_in text.now }
{
    let (digits, rest) = bytes(text)?;
    Some((ordinal_in(digits)?, rest))
}

fn ordinal_in(digits: &[u8]) -> Option<u32>
    ensures { result ≡ ordinal_in digits.now }
{
    let number = u32::try_from(value_of(digits)?).ok()?;
    match Ordinal::new(number) {
        Some(ordinal) => Some(ordinal.get()),
        None => None,
    }
}

/// Reads a note, or nothing if the item is empty.
#[tactic(auto, unfolding(crate::specs::Reading::first_as))]
pub fn reason(text: &[u8]) -> Option<(Option<&str>, &[u8])>
    ensures { option_map (λ found. (option_map (λ note. note.now) found.0, found.1.now)) result
        ≡ first_as reason_in text.now }
{
    let (bytes, rest) = bytes(text)?;
    Some((reason_in(bytes)?, rest))
}

fn reason_in(bytes: &[u8]) -> Option<Option<&str>>
    ensures { option_map (λ reason. option_map (λ note. note.now) reason) result
        ≡ reason_in bytes.now }
{
    if bytes.is_empty() {
        return Some(None);
    }
    Some(Some(admitted_in::<Notes>(bytes)?))
}

/// Returns the moment with this text.
pub fn moment_of(text: &str) -> Option<Moment>
    ensures { result ≡ moment_of text.now }
{
    Moment::parse(text).ok()
}

fn moment_in(bytes: &[u8]) -> Option<u64>
    ensures { result ≡ moment_in bytes.now }
{
    let moment = moment_of(text_in(bytes)?)?;
    Some(moment.seconds() as u64)
}

/// Reads a moment.
#[tactic(auto, unfolding(crate::specs::Reading::first_as))]
pub fn moment(text: &[u8]) -> Option<(u64, &[u8])>
    ensures { option_map (λ found. (found.0, found.1.now)) result ≡ first_as moment_in text.now }
{
    let (bytes, rest) = bytes(text)?;
    Some((moment_in(bytes)?, rest))
}

/// Reads a digest.
#[tactic(auto, unfolding(crate::specs::Reading::first_as))]
pub fn digest(text: &[u8]) -> Option<([u8; 32], &[u8])>
    ensures { option_map (λ found. (found.0, found.1.now)) result
        ≡ first_as (bytes_of_digits 32) text.now }
{
    let (digits, rest) = bytes(text)?;
    Some((Digest::from_digits(digits)?.bytes(), rest))
}
