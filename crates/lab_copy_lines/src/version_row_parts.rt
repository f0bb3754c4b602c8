//! What the rows of a version stand for, as far as it can be read without taking memory: each text
//! is still borrowed from the row.
ghost use Rattle.std.specs.Prelude.{◌≡◌, IfSome, option_map};
ghost use Rattle.lab_copy_rows.specs.Reading.{version_line, entry_line, signature_line};
ghost use Rattle.lab_copy_lines.specs.Fields.{columns_in};
ghost use Rattle.lab_copy_lines.specs.VersionRowParts.{AreEntryTexts, AreSignatureTexts, AreVersionTexts, entry_of, signature_of, version_line_of};

use crate::fields::MeaningParts;
use crate::{RowFields, fields};
use lab_copy_rows::{Digest, Format, Moment, Ordinal, Seal, State};
use lab_forms_texts::{Keys, LabCodes, Names, Notes, PersonCodes, Units};

/// What a version row states.
#[derive(Drop)]
pub struct VersionRowParts<'a> {
    pub lab: &'a str,
    pub record_number: Ordinal,
    pub number: Ordinal,
    pub format: Format,
    pub state: State,
    pub opener: &'a str,
    pub opened: Moment,
    pub reason: Option<&'a str>,
    pub digest: Digest,
}

/// What an entry row states.
#[derive(Drop)]
pub struct EntryParts<'a> {
    pub lab: &'a str,
    pub record_number: Ordinal,
    pub version: Ordinal,
    pub key: &'a str,
    pub value: &'a str,
    pub unit: &'a str,
    pub person: &'a str,
    pub moment: Moment,
    pub reason: Option<&'a str>,
}

/// What a signature row states.
#[derive(Drop)]
pub struct SignatureParts<'a> {
    pub lab: &'a str,
    pub record_number: Ordinal,
    pub version: Ordinal,
    pub meaning: MeaningParts<'a>,
    pub person: &'a str,
    pub name: &'a str,
    pub moment: Moment,
    pub digest: Digest,
    pub seal: Seal,
}

/// Reads what a version row stands for.
#[tactic(auto, unfolding(lab_copy_rows::specs::Reading::version_line))]
pub fn version_parts<'a>(row: &RowFields<'a>) -> Option<VersionRowParts<'a>>
    ensures value { option_map version_line_of result ≡ version_line (columns_in row.now) }
    ensures texts { IfSome result AreVersionTexts }
{
    let (Some(lab), Some(record_number), Some(number)) = (
        fields::text::<LabCodes>(row.lab),
        fields::ordinal(row.record_number),
        fields::ordinal(row.version),
    ) else {
        return None;
    };
    let (Some(format), Some(state), Some(digest)) = (
        fields::format(row.key, row.name),
        fields::state(row.value),
        fields::digest(row.digest),
    ) else {
        return None;
    };
    let (Some(opener), Some(opened), Some(reason)) = (
        fields::text::<PersonCodes>(row.person),
        fields::moment(row.moment),
        fields::version_reason(number, row.reason),
    ) else {
        return None;
    };
    fields::empty(&[row.unit, row.seal])?;
    Some(VersionRowParts {
        lab,
        record_number,
        number,
        format,
        state,
        opener,
        opened,
        reason,
        digest,
    })
}

/// Reads what an entry row stands for.
#[tactic(auto, unfolding(lab_copy_rows::specs::Reading::entry_line))]
pub fn entry_parts<'a>(row: &RowFields<'a>) -> Option<EntryParts<'a>>
    ensures value { option_map entry_of result ≡ entry_line (columns_in row.now) }
    ensures texts { IfSome result AreEntryTexts }
{
    let (Some(lab), Some(record_number), Some(version)) = (
        fields::text::<LabCodes>(row.lab),
        fields::ordinal(row.record_number),
        fields::ordinal(row.version),
    ) else {
        return None;
    };
    let (Some(key), Some(value), Some(unit)) = (
        fields::text::<Keys>(row.key),
        fields::text::<Notes>(row.value),
        fields::text::<Units>(row.unit),
    ) else {
        return None;
    };
    let (Some(person), Some(moment), Some(reason)) = (
        fields::text::<PersonCodes>(row.person),
        fields::moment(row.moment),
        fields::reason(row.reason),
    ) else {
        return None;
    };
    fields::empty(&[row.name, row.digest, row.seal])?;
    Some(EntryParts {
        lab,
        record_number,
        version,
        key,
        value,
        unit,
        person,
        moment,
        reason,
    })
}

/// Reads what a signature row stands for.
#[tactic(auto, unfolding(lab_copy_rows::specs::Reading::signature_line))]
pub fn signature_parts<'a>(row: &RowFields<'a>) -> Option<SignatureParts<'a>>
    ensures value { option_map signature_of result ≡ signature_line (columns_in row.now) }
    ensures texts { IfSome result AreSignatureTexts }
{
    let (Some(lab), Some(record_number), Some(version)) = (
        fields::text::<LabCodes>(row.lab),
        fields::ordinal(row.record_number),
        fields::ordinal(row.version),
    ) else {
        return None;
    };
    let (Some(person), Some(name), Some(moment)) = (
        fields::text::<PersonCodes>(row.person),
        fields::text::<Names>(row.name),
        fields::moment(row.moment),
    ) else {
        return None;
    };
    let (Some(meaning), Some(digest), Some(seal)) = (
        fields::meaning(row.value, row.reason),
        fields::digest(row.digest),
        fields::seal(row.seal),
    ) else {
        return None;
    };
    fields::empty(&[row.key, row.unit])?;
    Some(SignatureParts {
        lab,
        record_number,
        version,
        meaning,
        person,
        name,
        moment,
        digest,
        seal,
    })
}
