//! What the fields of a row stand for.
ghost use Rattle.std.specs.Prelude.{◌≡◌, ◌==◌, length, IfOk, IfSome, IsTrue, map, option_map};
ghost use Rattle.std.specs.List.{list_all};
ghost use Rattle.std.specs.Str.{bytes_eq};
ghost use Rattle.lab_seal_hashes.specs.Digits.{bytes_of_digits};
ghost use Rattle.lab_seal.specs.Reading.{text_where, ordinal_in, reason_in, moment_in};
ghost use Rattle.lab_copy_rows.specs.Reading.{all_empty, person_in, count_in, edition_in, format_in, state_in, meaning_in, version_reason_in};
ghost use Rattle.lab_copy_lines.specs.Fields.{HasReasonUnlessFirst, IsMeaningText, IsNoteOrNone, IsPersonOrNone, meaning_in_row};

use lab_copy_rows::{
    Digest, Edition, Format, LAST_COUNT, Meaning, Moment, Note, Ordinal, OutOfMemory, PersonCode,
    Seal, State,
};
use lab_forms_texts::{Notes, PersonCodes, TextRule};
use lab_seal::fields::{moment_of, own_copy, text_in, value_of};
use std::alloc::Global;

/// Whether the bytes are those of the word.
pub fn is_word(bytes: &[u8], word: &str) -> bool
    ensures { result ≡ bytes_eq bytes.now word.now }
{
    bytes == word.as_bytes()
}

// ---- texts

/// Reads a text, if the rule admits it.
pub fn text<R: TextRule>(bytes: &[u8]) -> Option<&str>
    ensures value { option_map (λ text. text.now) result ≡ text_where R.admits bytes.now }
    ensures admitted { IfSome result (λ text. IsTrue (R.admits text.now)) }
{
    let text = text_in(bytes)?;
    if R::admits(text) { Some(text) } else { None }
}

/// Returns a copy of a reason, if there is one.
///
/// # Errors
/// Memory ran out.
pub fn own_reason(alloc: Global, reason: Option<&str>) -> Result<Option<Note>, OutOfMemory>
    requires { IsNoteOrNone (option_map (λ note. note.now) reason) }
    ensures { IfOk result (λ copy. copy ≡ option_map (λ note. note.now) reason.entry) }
{
    match reason {
        Some(reason) => Ok(Some(own_copy::<Notes>(alloc, reason)?)),
        None => Ok(None),
    }
}

/// Returns a copy of a person's code, if there is one.
///
/// # Errors
/// Memory ran out.
pub fn own_person(alloc: Global, person: Option<&str>) -> Result<Option<PersonCode>, OutOfMemory>
    requires { IsPersonOrNone (option_map (λ code. code.now) person) }
    ensures { IfOk result (λ copy. copy ≡ option_map (λ code. code.now) person.entry) }
{
    match person {
        Some(person) => Ok(Some(own_copy::<PersonCodes>(alloc, person)?)),
        None => Ok(None),
    }
}

/// Reads a person's code, or nobody if the field is empty.
pub fn person(bytes: &[u8]) -> Option<Option<&str>>
    ensures value { option_map (λ person. option_map (λ code. code.now) person) result
        ≡ person_in bytes.now }
    ensures admitted { IfSome result (λ person.
        IsPersonOrNone (option_map (λ code. code.now) person)) }
{
    if bytes.is_empty() {
        return Some(None);
    }
    Some(Some(text::<PersonCodes>(bytes)?))
}

/// Reads a note, or nothing if the field is empty.
pub fn reason(bytes: &[u8]) -> Option<Option<&str>>
    ensures value { option_map (λ reason. option_map (λ note. note.now) reason) result
        ≡ reason_in bytes.now }
    ensures admitted { IfSome result (λ reason.
        IsNoteOrNone (option_map (λ note. note.now) reason)) }
{
    if bytes.is_empty() {
        return Some(None);
    }
    Some(Some(text::<Notes>(bytes)?))
}

/// Reads the reason of the version with the number: the first version has none, and every later
/// version has one.
pub fn version_reason(number: Ordinal, bytes: &[u8]) -> Option<Option<&str>>
    ensures value { option_map (λ reason. option_map (λ note. note.now) reason) result
        ≡ version_reason_in number bytes.now }
    ensures admitted { IfSome result (λ reason.
        IsNoteOrNone (option_map (λ note. note.now) reason)) }
    ensures reasoned { IfSome result (λ reason.
        HasReasonUnlessFirst number (option_map (λ note. note.now) reason)) }
{
    if number == Ordinal::FIRST {
        return if bytes.is_empty() { Some(None) } else { None };
    }
    Some(Some(text::<Notes>(bytes)?))
}

// ---- numbers, moments and digests

/// Reads the number of a record, a version or a form's version.
pub fn ordinal(digits: &[u8]) -> Option<Ordinal>
    ensures { result ≡ ordinal_in digits.now }
{
    let number = u32::try_from(value_of(digits)?).ok()?;
    Ordinal::new(number)
}

/// Reads a number of rows.
pub fn count(digits: &[u8]) -> Option<u64>
    ensures { result ≡ count_in digits.now }
{
    let count = value_of(digits)? as u64;
    if count <= LAST_COUNT {
        Some(count)
    } else {
        None
    }
}

/// Reads a moment from its text.
pub fn moment(bytes: &[u8]) -> Option<Moment>
    ensures { result ≡ moment_in bytes.now }
{
    moment_of(text_in(bytes)?)
}

/// Reads a digest from its digits.
pub fn digest(digits: &[u8]) -> Option<Digest>
    ensures { result ≡ bytes_of_digits 32 digits.now }
{
    Digest::from_digits(digits)
}

/// Reads a seal from its digits.
pub fn seal(digits: &[u8]) -> Option<Seal>
    ensures { result ≡ bytes_of_digits 32 digits.now }
{
    Seal::from_digits(digits)
}

// ---- words

/// Whether the fields are all empty: `Some` if they are.
#[tactic(auto, using(crate::proofs::FieldLemmas::empty_by))]
pub fn empty(fields: &[&[u8]]) -> Option<()>
    ensures { result ≡ all_empty (map (λ field. field.now) fields.now) }
{
    if are_empty(fields) { Some(()) } else { None }
}

fn are_empty(fields: &[&[u8]]) -> bool
    ensures { result ≡ list_all (λ field. length field.now == 0) fields.now }
{
    fields.iter().all(|field| field.is_empty())
}

/// Reads an edition from its key.
pub fn edition(key: &[u8]) -> Option<Edition>
    ensures { result ≡ edition_in key.now }
{
    if is_word(key, "1") {
        Some(Edition::One)
    } else if is_word(key, "2") {
        Some(Edition::Two)
    } else {
        None
    }
}

/// Reads a format from its key and from the name that says whether an approval is wanted.
pub fn format(key: &[u8], name: &[u8]) -> Option<Format>
    ensures { result ≡ format_in key.now name.now }
{
    if is_word(key, "1") && is_word(name, "") {
        Some(Format::One)
    } else if is_word(key, "2") && is_word(name, "") {
        Some(Format::Two { approval: false })
    } else if is_word(key, "2") && is_word(name, "approval") {
        Some(Format::Two { approval: true })
    } else {
        None
    }
}

/// Reads a state from its word.
pub fn state(word: &[u8]) -> Option<State>
    ensures { result ≡ state_in word.now }
{
    if is_word(word, "open") {
        Some(State::Open)
    } else if is_word(word, "signed") {
        Some(State::Signed)
    } else if is_word(word, "reviewed") {
        Some(State::Reviewed)
    } else if is_word(word, "released") {
        Some(State::Released)
    } else if is_word(word, "rejected") {
        Some(State::Rejected)
    } else {
        None
    }
}

/// A meaning, and the reason of a rejection.
#[derive(Clone, Copy)]
pub enum MeaningParts<'a> {
    Authorship,
    Review,
    Rejection(&'a str),
    Approval,
}

/// Reads a meaning from its word and the reason. Only a rejection has a reason.
pub fn meaning<'a>(word: &[u8], reason: &'a [u8]) -> Option<MeaningParts<'a>>
    ensures value { option_map meaning_in_row result ≡ meaning_in word.now reason.now }
    ensures admitted { IfSome result IsMeaningText }
{
    if is_word(word, "rejection") {
        return Some(MeaningParts::Rejection(text::<Notes>(reason)?));
    }
    if !reason.is_empty() {
        return None;
    }
    if is_word(word, "authorship") {
        Some(MeaningParts::Authorship)
    } else if is_word(word, "review") {
        Some(MeaningParts::Review)
    } else if is_word(word, "approval") {
        Some(MeaningParts::Approval)
    } else {
        None
    }
}

/// Returns a copy of a meaning.
///
/// # Errors
/// Memory ran out.
pub fn own_meaning(alloc: Global, meaning: MeaningParts<'_>) -> Result<Meaning, OutOfMemory>
    requires { IsMeaningText meaning }
    ensures { IfOk result (λ copy. copy ≡ meaning_in_row meaning.entry) }
{
    match meaning {
        MeaningParts::Authorship => Ok(Meaning::Authorship),
        MeaningParts::Review => Ok(Meaning::Review),
        MeaningParts::Rejection(reason) => Ok(Meaning::Rejection(own_copy::<Notes>(
            alloc, reason,
        )?)),
        MeaningParts::Approval => Ok(Meaning::Approval),
    }
}
