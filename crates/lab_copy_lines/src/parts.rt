//! What copy, record and end rows stand for, as far as it can be read without taking memory: each
//! text is still borrowed from the row.
ghost use Rattle.std.specs.Prelude.{◌≡◌, IfSome, option_map};
ghost use Rattle.lab_copy_rows.specs.Reading.{copy_line, record_line, end_line};
ghost use Rattle.lab_copy_lines.specs.Fields.{columns_in};
ghost use Rattle.lab_copy_lines.specs.Private.Parts.{AreCopyTexts, AreEndTexts, AreRecordTexts, copy_of, end_of, record_of};

use crate::{RowFields, fields};
use lab_copy_rows::{Counts, Edition, Moment, Ordinal};
use lab_forms_texts::{Keys, LabCodes, Names};

/// What a copy row states.
#[derive(Drop)]
pub(crate) struct CopyParts<'a> {
    pub(crate) edition: Edition,
    pub(crate) lab: &'a str,
    pub(crate) from: Ordinal,
    pub(crate) to: Ordinal,
    pub(crate) person: Option<&'a str>,
    pub(crate) name: &'a str,
    pub(crate) moment: Moment,
}

/// What a record row states.
#[derive(Drop)]
pub(crate) struct RecordParts<'a> {
    pub(crate) lab: &'a str,
    pub(crate) record_number: Ordinal,
    pub(crate) form_version: Ordinal,
    pub(crate) form: &'a str,
    pub(crate) sample: &'a str,
}

/// What an end row states.
#[derive(Drop)]
pub(crate) struct EndParts<'a> {
    pub(crate) lab: &'a str,
    pub(crate) counts: Counts,
}

#[tactic(auto, unfolding(lab_copy_rows::specs::Reading::copy_line))]
pub(crate) fn copy_parts<'a>(row: &RowFields<'a>) -> Option<CopyParts<'a>>
    ensures value { option_map copy_of result ≡ copy_line (columns_in row.now) }
    ensures texts { IfSome result AreCopyTexts }
{
    let (Some(edition), Some(lab), Some(from), Some(to)) = (
        fields::edition(row.key),
        fields::text::<LabCodes>(row.lab),
        fields::ordinal(row.record_number),
        fields::ordinal(row.version),
    ) else {
        return None;
    };
    let (Some(person), Some(name), Some(moment)) = (
        fields::person(row.person),
        fields::text::<Names>(row.name),
        fields::moment(row.moment),
    ) else {
        return None;
    };
    fields::empty(&[row.value, row.unit, row.reason, row.digest, row.seal])?;
    Some(CopyParts {
        edition,
        lab,
        from,
        to,
        person,
        name,
        moment,
    })
}

#[tactic(auto, unfolding(lab_copy_rows::specs::Reading::record_line))]
pub(crate) fn record_parts<'a>(row: &RowFields<'a>) -> Option<RecordParts<'a>>
    ensures value { option_map record_of result ≡ record_line (columns_in row.now) }
    ensures texts { IfSome result AreRecordTexts }
{
    let (Some(lab), Some(record_number)) = (
        fields::text::<LabCodes>(row.lab),
        fields::ordinal(row.record_number),
    ) else {
        return None;
    };
    let (Some(form), Some(form_version), Some(sample)) = (
        fields::text::<Keys>(row.key),
        fields::ordinal(row.version),
        fields::text::<Names>(row.value),
    ) else {
        return None;
    };
    fields::empty(&[
        row.unit, row.person, row.name, row.moment, row.reason, row.digest, row.seal,
    ])?;
    Some(RecordParts {
        lab,
        record_number,
        form_version,
        form,
        sample,
    })
}

#[tactic(auto, unfolding(lab_copy_rows::specs::Reading::end_line))]
pub(crate) fn end_parts<'a>(row: &RowFields<'a>) -> Option<EndParts<'a>>
    ensures value { option_map end_of result ≡ end_line (columns_in row.now) }
    ensures texts { IfSome result AreEndTexts }
{
    let lab = fields::text::<LabCodes>(row.lab)?;
    let records = fields::count(row.record_number)?;
    let versions = fields::count(row.version)?;
    let entries = fields::count(row.key)?;
    let signatures = fields::count(row.value)?;
    fields::empty(&[
        row.unit, row.person, row.name, row.moment, row.reason, row.digest, row.seal,
    ])?;
    Some(EndParts {
        lab,
        counts: Counts {
            records,
            versions,
            entries,
            signatures,
        },
    })
}
