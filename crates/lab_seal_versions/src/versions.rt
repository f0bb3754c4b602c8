//! The text of a version, of which its digest is taken.
ghost use Rattle.std.specs.Prelude.{◌≡◌, ◌++◌, ◌<◌, ◌^◌, OnOk, IfOk, All, length};
ghost use Rattle.std.specs.List.{flat_map};
ghost use Rattle.lab_forms_texts.specs.Ordinals.{is_ordinal};
ghost use Rattle.lab_seal_versions.specs.Versions.{approval_text, reason_text, row_text, heading_text, subject_text, origin_text, opening_text, front_text, version_text, with_rows, format_word, IsReason, IsRow, IsHeading, IsSubject, IsOrigin, IsOpening, IsFrontAdmitted, IsVersion};

use crate::items::{push_digest, push_item, push_moment, push_number};
use crate::{EntryRow, EntryRows, Origin};
use lab_forms_texts::{Key, LabCode, Moment, Name, Ordinal, OutOfMemory, PersonCode};
use std::alloc::Global;

/// The format of a version's text.
#[derive(Clone, Copy, Debug, PartialEq, Eq)]
pub enum Format {
    /// The older format, which doesn't mention an approval.
    One,
    /// The format that says whether the form wants an approval.
    Two { approval: bool },
}

/// The version of a record, with all that its digest covers.
pub struct VersionParts {
    /// The format of the text.
    pub format: Format,
    /// The laboratory whose record it is.
    pub lab: LabCode,
    /// The record's number.
    pub record_number: Ordinal,
    /// The number of the version, and what it amends.
    pub origin: Origin,
    /// The key of the form with which the record is filled in.
    pub form: Key,
    /// The version of the form.
    pub form_version: Ordinal,
    /// The sample that the record is about.
    pub sample: Name,
    /// Who opened the version.
    pub opener: PersonCode,
    /// When the version was opened.
    pub opened: Moment,
    /// The rows in the order in which they were entered.
    pub rows: EntryRows,
}

// `drop` is written out, so that a caller doesn't prove again how each part is dropped.
impl Drop for VersionParts {
    fn drop(self) {
        let VersionParts {
            format: _,
            lab: _,
            record_number: _,
            origin: _,
            form: _,
            form_version: _,
            sample: _,
            opener: _,
            opened: _,
            rows: _,
        } = self;
    }
}

impl VersionParts {
    /// A copy.
    ///
    /// # Errors
    /// Memory ran out.
    pub fn copy(&self) -> Result<VersionParts, OutOfMemory>
        ensures { IfOk result (λ copy. copy ≡ self.now) }
    {
        let origin = self.origin.copy()?;
        let rows = self.rows.copy()?;
        let (lab, form, sample, opener) = self.texts()?;
        Ok(VersionParts {
            format: self.format,
            lab,
            record_number: self.record_number,
            origin,
            form,
            form_version: self.form_version,
            sample,
            opener,
            opened: self.opened,
            rows,
        })
    }

    // Copies of the texts.
    fn texts(&self) -> Result<(LabCode, Key, Name, PersonCode), OutOfMemory>
        ensures lab { IfOk result (λ texts. texts.0 ≡ self.now.lab) }
        ensures form { IfOk result (λ texts. texts.1 ≡ self.now.form) }
        ensures sample { IfOk result (λ texts. texts.2 ≡ self.now.sample) }
        ensures opener { IfOk result (λ texts. texts.3 ≡ self.now.opener) }
    {
        let lab = self.lab.copy()?;
        let form = self.form.copy()?;
        let sample = self.sample.copy()?;
        let opener = self.opener.copy()?;
        Ok((lab, form, sample, opener))
    }
}

/// Returns the text of a version, which `read_version` reads back.
///
/// # Errors
/// Memory ran out.
pub fn write_version(alloc: Global, parts: &VersionParts) -> Result<Vec<u8>, OutOfMemory>
    ensures text { IfOk result (λ text. text.items ≡ version_text parts.now) }
    ensures version { IfOk result (λ _. IsVersion parts.now) }
{
    write_with_rows(alloc, parts, &parts.rows)
}

/// Returns the text of the version with these parts and these rows. No row is copied. The rows
/// among the parts aren't used.
///
/// # Errors
/// Memory ran out.
#[tactic(auto, unfolding(crate::specs::Versions::version_text))]
pub fn write_with_rows(
    alloc: Global,
    parts: &VersionParts,
    rows: &EntryRows,
) -> Result<Vec<u8>, OutOfMemory>
    ensures text { IfOk result
        (λ text. text.items ≡ version_text (with_rows parts.now rows.now)) }
    ensures version { IfOk result (λ _. IsVersion (with_rows parts.now rows.now)) }
{
    let mut text = Vec::new(alloc);
    push_front(&mut text, parts, rows)?;
    push_rows(&mut text, rows.rows())?;
    Ok(text)
}

// Adds everything before the rows.
#[tactic(auto, unfolding(crate::specs::Versions::front_text, crate::specs::Versions::heading_text, crate::specs::Versions::subject_text))]
fn push_front(text: &mut Vec<u8>, parts: &VersionParts, rows: &EntryRows) -> Result<(), OutOfMemory>
    ensures text { OnOk result (text.new.items
        ≡ text.old.items ++ front_text (with_rows parts.now rows.now)) }
    ensures front { IfOk result (λ _. IsFrontAdmitted (with_rows parts.now rows.now)) }
{
    push_heading(text, parts)?;
    push_subject(text, parts)?;
    push_origin(text, &parts.origin)?;
    push_opening(text, parts, rows)
}

#[tactic(auto, unfolding(crate::specs::Versions::heading_text))]
fn push_heading(text: &mut Vec<u8>, parts: &VersionParts) -> Result<(), OutOfMemory>
    ensures text { OnOk result (text.new.items ≡ text.old.items ++ heading_text parts.now) }
    ensures heading { IfOk result (λ _. IsHeading parts.now) }
{
    push_item(text, format_word(parts.format))?;
    push_item(text, parts.lab.as_str().as_bytes())?;
    push_number(text, u64::from(parts.record_number.get()))?;
    push_number(text, u64::from(parts.origin.number().get()))
}

fn format_word(format: Format) -> &'static [u8]
    ensures { result.now ≡ format_word format }
{
    match format {
        Format::One => b"labrecord 1",
        Format::Two { .. } => b"labrecord 2",
    }
}

#[tactic(auto, unfolding(crate::specs::Versions::subject_text))]
fn push_subject(text: &mut Vec<u8>, parts: &VersionParts) -> Result<(), OutOfMemory>
    ensures text { OnOk result (text.new.items ≡ text.old.items ++ subject_text parts.now) }
    ensures subject { IfOk result (λ _. IsSubject parts.now) }
{
    push_item(text, parts.form.as_str().as_bytes())?;
    push_number(text, u64::from(parts.form_version.get()))?;
    push_approval(text, parts.format)?;
    push_item(text, parts.sample.as_str().as_bytes())
}

// Adds whether an approval is wanted, if the format is the newer one; the older one doesn't mention
// it.
fn push_approval(text: &mut Vec<u8>, format: Format) -> Result<(), OutOfMemory>
    ensures { OnOk result (text.new.items ≡ text.old.items ++ approval_text format) }
{
    match format {
        Format::One => Ok(()),
        Format::Two { approval: true } => push_item(text, b"yes"),
        Format::Two { approval: false } => push_item(text, b"no"),
    }
}

#[tactic(auto, unfolding(crate::specs::Versions::origin_text))]
fn push_origin(text: &mut Vec<u8>, origin: &Origin) -> Result<(), OutOfMemory>
    ensures text { OnOk result (text.new.items
        ≡ text.old.items ++ origin_text origin.now.amendment) }
    ensures origin { IfOk result (λ _. IsOrigin origin.now) }
{
    let Some(amendment) = origin.amendment() else {
        push_item(text, b"-")?;
        return push_item(text, b"");
    };
    push_digest(text, &amendment.previous)?;
    push_item(text, amendment.reason.as_str().as_bytes())
}

#[tactic(auto, unfolding(crate::specs::Versions::opening_text))]
fn push_opening(
    text: &mut Vec<u8>,
    parts: &VersionParts,
    rows: &EntryRows,
) -> Result<(), OutOfMemory>
    ensures text { OnOk result (text.new.items
        ≡ text.old.items ++ opening_text (with_rows parts.now rows.now)) }
    ensures opening { IfOk result (λ _. IsOpening (with_rows parts.now rows.now)) }
{
    push_item(text, parts.opener.as_str().as_bytes())?;
    push_moment(text, parts.opened)?;
    push_number(text, rows.rows().len() as u64)
}

fn push_rows(text: &mut Vec<u8>, rows: &[EntryRow]) -> Result<(), OutOfMemory>
    ensures text { OnOk result (text.new.items ≡ text.old.items ++ flat_map row_text rows.now) }
    ensures rows { IfOk result (λ _. All IsRow rows.now) }
{
    for row in rows {
        push_row(text, row)?;
    }
    Ok(())
}

#[tactic(auto, unfolding(crate::specs::Versions::row_text))]
fn push_row(text: &mut Vec<u8>, row: &EntryRow) -> Result<(), OutOfMemory>
    ensures text { OnOk result (text.new.items ≡ text.old.items ++ row_text row.now) }
    ensures row { IfOk result (λ _. IsRow row.now) }
{
    push_item(text, row.key.as_str().as_bytes())?;
    push_item(text, row.value.as_str().as_bytes())?;
    push_item(text, row.unit.as_str().as_bytes())?;
    push_item(text, row.person.as_str().as_bytes())?;
    push_moment(text, row.moment)?;
    push_item(text, reason_bytes(row))
}

fn reason_bytes(row: &EntryRow) -> &[u8]
    ensures value { result.now ≡ reason_text row.now.reason }
    ensures reason { IsReason row.now.reason }
{
    match &row.reason {
        Some(reason) => reason.as_str().as_bytes(),
        None => b"",
    }
}
