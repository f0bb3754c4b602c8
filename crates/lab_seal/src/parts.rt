//! The parts of a version's text, each read from the front of the rest of the text. No call takes
//! memory.
ghost use Rattle.std.specs.Prelude.{◌≡◌, option_map};
ghost use Rattle.lab_seal.specs.Parts.{first_heading, first_format, first_subject, first_no_amendment, first_amendment, first_origin, first_opening, first_front, first_row, first_rows, heading_of, subject_of, amendment_of, amends_of, opening_of, front_of, entry_row_from};

use crate::fields;
use lab_forms_texts::{Keys, LabCodes, Names, Notes, Ordinal, PersonCodes, Units};
use lab_seal_versions::Format;

/// Which version the text is of.
#[derive(Clone, Copy)]
pub struct Heading<'a> {
    pub is_newer: bool,
    pub lab: &'a str,
    pub record_number: u32,
    pub number: u32,
}

/// What the record is about, and the format of its text.
#[derive(Clone, Copy)]
pub struct Subject<'a> {
    pub form: &'a str,
    pub form_version: u32,
    pub format: Format,
    pub sample: &'a str,
}

/// What a later version amends, and why.
#[derive(Clone, Copy)]
pub struct Reason<'a> {
    pub previous: [u8; 32],
    pub reason: &'a str,
}

/// Who opened the version and when, and how many rows it has.
#[derive(Clone, Copy)]
pub struct Opening<'a> {
    pub opener: &'a str,
    pub opened: u64,
    pub rows: usize,
}

/// Everything before the rows.
#[derive(Clone, Copy)]
pub struct Front<'a> {
    pub heading: Heading<'a>,
    pub subject: Subject<'a>,
    pub amendment: Option<Reason<'a>>,
    pub opening: Opening<'a>,
}

/// A row of a version.
#[derive(Clone, Copy)]
pub struct Row<'a> {
    pub key: &'a str,
    pub value: &'a str,
    pub unit: &'a str,
    pub person: &'a str,
    pub moment: u64,
    pub reason: Option<&'a str>,
}

/// Reads everything before the rows, from the front of a text.
#[tactic(auto, unfolding(crate::specs::Parts::first_front))]
pub fn first_front(text: &[u8]) -> Option<(Front<'_>, &[u8])>
    ensures { option_map (λ found. (front_of found.0, found.1.now)) result ≡ first_front text.now }
{
    let (heading, rest) = first_heading(text)?;
    let (subject, rest) = first_subject(heading.is_newer, rest)?;
    let (amendment, rest) = first_origin(heading.number, rest)?;
    let (opening, rest) = first_opening(rest)?;
    let front = Front {
        heading,
        subject,
        amendment,
        opening,
    };
    Some((front, rest))
}

#[tactic(auto, unfolding(crate::specs::Parts::first_heading))]
fn first_heading<'a>(text: &'a [u8]) -> Option<(Heading<'a>, &'a [u8])>
    ensures { option_map (λ found. (heading_of found.0, found.1.now)) result
        ≡ first_heading text.now }
{
    let (is_newer, rest) = fields::choice(text, b"labrecord 2", b"labrecord 1")?;
    let (lab, rest) = fields::text::<LabCodes>(rest)?;
    let (record_number, rest) = fields::ordinal(rest)?;
    let (number, rest) = fields::ordinal(rest)?;
    let heading = Heading {
        is_newer,
        lab,
        record_number,
        number,
    };
    Some((heading, rest))
}

#[tactic(auto, unfolding(crate::specs::Parts::first_subject))]
fn first_subject(is_newer: bool, text: &[u8]) -> Option<(Subject<'_>, &[u8])>
    ensures { option_map (λ found. (subject_of found.0, found.1.now)) result
        ≡ first_subject is_newer text.now }
{
    let (form, rest) = fields::text::<Keys>(text)?;
    let (form_version, rest) = fields::ordinal(rest)?;
    let (format, rest) = first_format(is_newer, rest)?;
    let (sample, rest) = fields::text::<Names>(rest)?;
    let subject = Subject {
        form,
        form_version,
        format,
        sample,
    };
    Some((subject, rest))
}

// The format. The newer one says whether an approval is wanted.
#[tactic(auto, unfolding(crate::specs::Parts::first_format))]
fn first_format(is_newer: bool, text: &[u8]) -> Option<(Format, &[u8])>
    ensures { option_map (λ found. (found.0, found.1.now)) result ≡ first_format is_newer text.now }
{
    if !is_newer {
        return Some((Format::One, text));
    }
    let (approval, rest) = fields::choice(text, b"yes", b"no")?;
    Some((Format::Two { approval }, rest))
}

// What the version with this number amends, and why.
#[tactic(auto, unfolding(crate::specs::Parts::first_origin))]
fn first_origin(number: u32, text: &[u8]) -> Option<(Option<Reason<'_>>, &[u8])>
    ensures { option_map (λ found. (amends_of found.0, found.1.now)) result
        ≡ first_origin number text.now }
{
    if number == Ordinal::FIRST.get() {
        let rest = first_no_amendment(text)?;
        Some((None, rest))
    } else {
        let (amendment, rest) = first_amendment(text)?;
        Some((Some(amendment), rest))
    }
}

#[tactic(auto, unfolding(crate::specs::Parts::first_no_amendment))]
fn first_no_amendment(text: &[u8]) -> Option<&[u8]>
    ensures { option_map (λ rest. (tt, rest.now)) result ≡ first_no_amendment text.now }
{
    let rest = fields::after(text, b"-")?;
    fields::after(rest, b"")
}

#[tactic(auto, unfolding(crate::specs::Parts::first_amendment))]
fn first_amendment(text: &[u8]) -> Option<(Reason<'_>, &[u8])>
    ensures { option_map (λ found. (amendment_of found.0, found.1.now)) result
        ≡ first_amendment text.now }
{
    let (previous, rest) = fields::digest(text)?;
    let (reason, rest) = fields::text::<Notes>(rest)?;
    Some((Reason { previous, reason }, rest))
}

#[tactic(auto, unfolding(crate::specs::Parts::first_opening))]
fn first_opening(text: &[u8]) -> Option<(Opening<'_>, &[u8])>
    ensures { option_map (λ found. (opening_of found.0, found.1.now)) result
        ≡ first_opening text.now }
{
    let (opener, rest) = fields::text::<PersonCodes>(text)?;
    let (opened, rest) = fields::moment(rest)?;
    let (rows, rest) = fields::count(rest)?;
    let opening = Opening {
        opener,
        opened,
        rows,
    };
    Some((opening, rest))
}

/// Reads the row at the front of a text.
#[tactic(auto, unfolding(crate::specs::Parts::first_row))]
pub fn first_row(text: &[u8]) -> Option<(Row<'_>, &[u8])>
    ensures { option_map (λ found. (entry_row_from found.0, found.1.now)) result ≡ first_row text.now }
{
    let Some((key, rest)) = fields::text::<Keys>(text) else {
        return None;
    };
    let Some((value, rest)) = fields::text::<Notes>(rest) else {
        return None;
    };
    let Some((unit, rest)) = fields::text::<Units>(rest) else {
        return None;
    };
    let Some((person, rest)) = fields::text::<PersonCodes>(rest) else {
        return None;
    };
    let Some((moment, rest)) = fields::moment(rest) else {
        return None;
    };
    let Some((reason, rest)) = fields::reason(rest) else {
        return None;
    };
    let row = Row {
        key,
        value,
        unit,
        person,
        moment,
        reason,
    };
    Some((row, rest))
}

/// Returns what follows this number of rows.
pub fn after_rows(count: usize, text: &[u8]) -> Option<&[u8]>
    ensures { option_map (λ rest. rest.now) result
        ≡ option_map (λ found. found.1) (first_rows count text.now) }
{
    let mut rest = text;
    for _ in 0..count {
        let (_, after) = first_row(rest)?;
        rest = after;
    }
    Some(rest)
}
