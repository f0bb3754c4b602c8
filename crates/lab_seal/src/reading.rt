//! The reading of a version's text: it accepts every text that `write_version` returns, and no
//! other bytes. The rows are made while they are read. If memory runs out for a row, the rest is
//! read before that fault is returned.
ghost use Rattle.std.specs.Prelude.{◌≡◌, [], ◌∷◌, ◌++◌, IsTrue, IfOk, IfErr, OnOk, Some};
ghost use Rattle.lab_forms_texts.specs.Moment.{is_moment};
ghost use Rattle.lab_forms_texts.specs.Names.{is_lab_code, is_key, is_name, is_person_code};
ghost use Rattle.lab_forms_texts.specs.Ordinals.{is_ordinal};
ghost use Rattle.lab_seal.specs.Faults.{TextFaultFits};
ghost use Rattle.lab_seal_versions.specs.Versions.{version_text, IsRow, IsOrigin, IsFrontAdmitted, IsVersion, IsNoVersion, IsSomeVersion, OneSpelling};
ghost use Rattle.lab_seal.specs.Parts.{first_rows, amends_of, front_of, entry_row_from};
ghost use Rattle.lab_seal.specs.Private.Parts.{version_parts_of, AreAllRows};

use crate::parts::{Front, Reason, Row, after_rows, first_front, first_row};
use crate::{BadText, TextFault, fields};
use lab_forms_texts::{Key, LabCode, Moment, Name, Ordinal, OutOfMemory, PersonCode};
use lab_seal_hashes::Digest;
use lab_seal_versions::{Amendment, EntryRow, EntryRows, Origin, OriginParts, VersionParts};
use std::alloc::Global;

/// The fewest bytes of a row's text. Memory is reserved at once, for no more rows than the text can
/// have.
const SHORTEST_ROW: usize = 43;

/// Reads the text of a version. `BadText` if the bytes aren't the whole text of a version; the
/// fault is `Memory` only if they are.
///
/// # Errors
/// The bytes aren't the text of a version, or memory ran out.
pub fn read_version(alloc: Global, bytes: &[u8]) -> Result<VersionParts, TextFault>
    ensures read { IfOk result (λ parts. IsVersion parts × (version_text parts ≡ bytes.now)) }
    ensures fault { IfErr result (TextFaultFits (IsNoVersion bytes.now) (IsSomeVersion bytes.now)) }
{
    let (front, rest) = first_front(bytes).ok_or(TextFault::Refused(BadText))?;
    let rows = all_rows(alloc, front.opening.rows, rest)?;
    Ok(owned_parts(alloc, &front, rows)?)
}

// The fault after memory ran out for a row, with `left` rows still to be read from the text.
fn fault_of_memory(left: usize, text: &[u8]) -> TextFault
    ensures { TextFaultFits (AreAllRows left text.now → ⊥) (AreAllRows left text.now) result }
{
    match after_rows(left, text) {
        Some([]) => TextFault::Memory,
        _ => TextFault::Refused(BadText),
    }
}

// All rows of a text that has `count` rows, copied.
fn all_rows(alloc: Global, count: usize, text: &[u8]) -> Result<EntryRows, TextFault>
    ensures rows { IfOk result (λ rows. first_rows count text.now ≡ Some (rows, [])) }
    ensures fault { IfErr result
        (TextFaultFits (AreAllRows count text.now → ⊥) (AreAllRows count text.now)) }
{
    let room = count.min(text.len() / SHORTEST_ROW);
    let Ok(mut rows) = Vec::with_capacity(alloc, room) else {
        return Err(fault_of_memory(count, text));
    };
    let mut rest = text;
    for at in 0..count {
        let Some((row, after)) = first_row(rest) else {
            return Err(TextFault::Refused(BadText));
        };
        if let Err(_) = push_row(alloc, &mut rows, &row) {
            return Err(fault_of_memory(count - at, rest));
        }
        rest = after;
    }
    if !rest.is_empty() {
        return Err(TextFault::Refused(BadText));
    }
    Ok(EntryRows::new(rows))
}

// Adds a row, copied.
fn push_row(alloc: Global, rows: &mut Vec<EntryRow>, row: &Row<'_>) -> Result<(), OutOfMemory>
    requires { IsRow (entry_row_from row.now) }
    ensures { OnOk result (rows.new.items ≡ rows.old.items ++ entry_row_from row.now ∷ []) }
{
    rows.push(owned_row(alloc, row)?)?;
    Ok(())
}

fn owned_row(alloc: Global, row: &Row<'_>) -> Result<EntryRow, OutOfMemory>
    requires { IsRow (entry_row_from row.now) }
    ensures { IfOk result (λ owned. owned ≡ entry_row_from row.now) }
{
    let reason = match &row.reason {
        Some(reason) => Some(fields::own_copy(alloc, reason)?),
        None => None,
    };
    Ok(EntryRow {
        key: fields::own_copy(alloc, row.key)?,
        value: fields::own_copy(alloc, row.value)?,
        unit: fields::own_copy(alloc, row.unit)?,
        person: fields::own_copy(alloc, row.person)?,
        moment: owned_moment(row.moment),
        reason,
    })
}

// The version with these parts before its rows, copied, and with these rows.
fn owned_parts(
    alloc: Global,
    front: &Front<'_>,
    rows: EntryRows,
) -> Result<VersionParts, OutOfMemory>
    requires { IsFrontAdmitted (version_parts_of (front_of front.now) rows) }
    ensures { IfOk result (λ parts. parts ≡ version_parts_of (front_of front.now) rows) }
{
    let origin = owned_origin(alloc, front.heading.number, &front.amendment)?;
    let (lab, form, sample, opener) = owned_texts(alloc, front)?;
    Ok(VersionParts {
        format: front.subject.format,
        lab,
        record_number: owned_ordinal(front.heading.record_number),
        origin,
        form,
        form_version: owned_ordinal(front.subject.form_version),
        sample,
        opener,
        opened: owned_moment(front.opening.opened),
        rows,
    })
}

// The texts among the parts before the rows, copied.
fn owned_texts(
    alloc: Global,
    front: &Front<'_>,
) -> Result<(LabCode, Key, Name, PersonCode), OutOfMemory>
    requires lab { IsTrue (is_lab_code front.now.heading.lab.now) }
    requires form { IsTrue (is_key front.now.subject.form.now) }
    requires sample { IsTrue (is_name front.now.subject.sample.now) }
    requires opener { IsTrue (is_person_code front.now.opening.opener.now) }
    ensures lab { IfOk result (λ texts. texts.0 ≡ front.now.heading.lab.now) }
    ensures form { IfOk result (λ texts. texts.1 ≡ front.now.subject.form.now) }
    ensures sample { IfOk result (λ texts. texts.2 ≡ front.now.subject.sample.now) }
    ensures opener { IfOk result (λ texts. texts.3 ≡ front.now.opening.opener.now) }
{
    let lab = fields::own_copy(alloc, front.heading.lab)?;
    let form = fields::own_copy(alloc, front.subject.form)?;
    let sample = fields::own_copy(alloc, front.subject.sample)?;
    let opener = fields::own_copy(alloc, front.opening.opener)?;
    Ok((lab, form, sample, opener))
}

fn owned_origin(
    alloc: Global,
    number: u32,
    amendment: &Option<Reason<'_>>,
) -> Result<Origin, OutOfMemory>
    requires number { IsTrue (is_ordinal number) }
    requires origin { IsOrigin (record { number = number; amendment = amends_of amendment.now }) }
    ensures { IfOk result (λ origin. origin
        ≡ record { number = number; amendment = amends_of amendment.now }) }
{
    let amendment = match amendment {
        Some(found) => Some(Amendment {
            previous: Digest::from_bytes(found.previous),
            reason: fields::own_copy(alloc, found.reason)?,
        }),
        None => None,
    };
    let number = owned_ordinal(number);
    Ok(Origin::of(OriginParts { number, amendment }))
}

fn owned_ordinal(number: u32) -> Ordinal
    requires { IsTrue (is_ordinal number) }
    ensures { result ≡ number }
{
    match Ordinal::new(number) {
        Some(ordinal) => ordinal,
        None => unreachable!(),
    }
}

fn owned_moment(seconds: u64) -> Moment
    requires { IsTrue (is_moment seconds) }
    ensures { result ≡ seconds }
{
    match Moment::from_seconds(seconds as i64) {
        Ok(moment) => moment,
        Err(_) => unreachable!(),
    }
}

/// Law: no text of a version is the beginning of another version's text, and a version has one
/// text.
pub fn one_spelling()
    ensures { OneSpelling }
{}
