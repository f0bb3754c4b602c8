//! What rows stand for.
ghost use Rattle.std.specs.Prelude.{◌≡◌, IfOk};
ghost use Rattle.csv.specs.Records.{fields_of};
ghost use Rattle.lab_copy_rows.specs.Copies.{is_approval, is_of_edition, is_older};
ghost use Rattle.lab_copy_rows.specs.declared.lines.Line.TheVariants.{Signature, Version};
ghost use Rattle.lab_copy_rows.specs.Reading.{copy_line, record_line, version_line, entry_line, signature_line, end_line};
ghost use Rattle.lab_copy_lines.specs.Fields.{HasReasonUnlessFirst, columns_in, meaning_in_row};
ghost use Rattle.lab_copy_lines.specs.Lines.{IsRowRead, IsReasoned, line_at, line_by, within};
ghost use Rattle.lab_copy_lines.specs.VersionRowParts.{signature_of, version_line_of};

use crate::byte_records::row_fields;
use crate::faults::{BadRow, RowFault};
use crate::fields::{MeaningParts, is_word, own_meaning, own_person, own_reason};
use crate::parts::{copy_parts, end_parts, record_parts};
use crate::{
    RowFields, SignatureParts, VersionRowParts, entry_parts, signature_parts, version_parts,
};
use csv::ByteRecord;
use lab_copy_rows::{
    CopyLine, Edition, EndLine, EntryLine, EntryRow, Format, Line, RecordLine, SealParts,
    SignatureLine, State, VersionLine,
};
use lab_forms_texts::{Keys, LabCodes, Names, Notes, PersonCodes, Units};
use lab_seal::fields::own_copy;
use std::alloc::Global;

/// Returns what a row stands for in a copy of the edition. `BadRow` if it stands for nothing.
///
/// # Errors
/// No copy can have the row, or memory ran out.
pub fn read_line(alloc: Global, edition: Edition, row: &ByteRecord) -> Result<Line, RowFault>
    ensures value { IsRowRead (line_at edition (fields_of row.now)) result }
    ensures reasoned { IfOk result IsReasoned }
{
    match row_fields(row) {
        Some(columns) => line_by(alloc, edition, &columns),
        None => Err(RowFault::Refused(BadRow)),
    }
}

// What a row stands for, depending on its kind.
#[tactic(auto, unfolding(lab_copy_rows::specs::Reading::line_of))]
fn line_by(alloc: Global, edition: Edition, row: &RowFields<'_>) -> Result<Line, RowFault>
    ensures value { IsRowRead (line_by edition (columns_in row.now)) result }
    ensures reasoned { IfOk result IsReasoned }
{
    if is_word(row.kind, "copy") {
        Ok(Line::Copy(copy_line(alloc, row)?))
    } else if is_word(row.kind, "record") {
        Ok(Line::Record(record_line(alloc, row)?))
    } else if is_word(row.kind, "version") {
        Ok(Line::Version(version_line(alloc, edition, row)?))
    } else if is_word(row.kind, "entry") {
        Ok(Line::Entry(entry_line(alloc, row)?))
    } else if is_word(row.kind, "signature") {
        Ok(Line::Signature(signature_line(alloc, edition, row)?))
    } else if is_word(row.kind, "end") {
        Ok(Line::End(end_line(alloc, row)?))
    } else {
        Err(RowFault::Refused(BadRow))
    }
}

fn copy_line(alloc: Global, row: &RowFields<'_>) -> Result<CopyLine, RowFault>
    ensures { IsRowRead (copy_line (columns_in row.now)) result }
{
    let Some(parts) = copy_parts(row) else {
        return Err(RowFault::Refused(BadRow));
    };
    Ok(CopyLine {
        edition: parts.edition,
        lab: own_copy::<LabCodes>(alloc, parts.lab)?,
        from: parts.from,
        to: parts.to,
        person: own_person(alloc, parts.person)?,
        name: own_copy::<Names>(alloc, parts.name)?,
        moment: parts.moment,
    })
}

fn record_line(alloc: Global, row: &RowFields<'_>) -> Result<RecordLine, RowFault>
    ensures { IsRowRead (record_line (columns_in row.now)) result }
{
    let Some(parts) = record_parts(row) else {
        return Err(RowFault::Refused(BadRow));
    };
    Ok(RecordLine {
        lab: own_copy::<LabCodes>(alloc, parts.lab)?,
        record_number: parts.record_number,
        form_version: parts.form_version,
        form: own_copy::<Keys>(alloc, parts.form)?,
        sample: own_copy::<Names>(alloc, parts.sample)?,
    })
}

fn version_line(
    alloc: Global,
    edition: Edition,
    row: &RowFields<'_>,
) -> Result<VersionLine, RowFault>
    ensures value { IsRowRead (within edition (λ line. Version line)
        (version_line (columns_in row.now))) result }
    ensures reasoned { IfOk result (λ line. HasReasonUnlessFirst line.number line.reason) }
{
    let Some(parts) = version_parts(row) else {
        return Err(RowFault::Refused(BadRow));
    };
    if !has_version(edition, &parts) {
        return Err(RowFault::Refused(BadRow));
    }
    Ok(VersionLine {
        lab: own_copy::<LabCodes>(alloc, parts.lab)?,
        record_number: parts.record_number,
        number: parts.number,
        format: parts.format,
        state: parts.state,
        opener: own_copy::<PersonCodes>(alloc, parts.opener)?,
        opened: parts.opened,
        reason: own_reason(alloc, parts.reason)?,
        digest: parts.digest,
    })
}

// Whether a copy of the edition may have the version.
fn has_version(edition: Edition, parts: &VersionRowParts<'_>) -> bool
    ensures { result ≡ is_of_edition edition (Version (version_line_of parts.now)) }
{
    match edition {
        Edition::Two => true,
        Edition::One => is_older(parts.format, parts.state),
    }
}

// Whether the older rules allow the format and the state.
fn is_older(format: Format, state: State) -> bool
    ensures { result ≡ is_older format state }
{
    match format {
        Format::Two { .. } => false,
        Format::One => !matches!(state, State::Reviewed),
    }
}

fn entry_line(alloc: Global, row: &RowFields<'_>) -> Result<EntryLine, RowFault>
    ensures { IsRowRead (entry_line (columns_in row.now)) result }
{
    let Some(parts) = entry_parts(row) else {
        return Err(RowFault::Refused(BadRow));
    };
    Ok(EntryLine {
        lab: own_copy::<LabCodes>(alloc, parts.lab)?,
        record_number: parts.record_number,
        version: parts.version,
        row: EntryRow {
            key: own_copy::<Keys>(alloc, parts.key)?,
            value: own_copy::<Notes>(alloc, parts.value)?,
            unit: own_copy::<Units>(alloc, parts.unit)?,
            person: own_copy::<PersonCodes>(alloc, parts.person)?,
            moment: parts.moment,
            reason: own_reason(alloc, parts.reason)?,
        },
    })
}

fn signature_line(
    alloc: Global,
    edition: Edition,
    row: &RowFields<'_>,
) -> Result<SignatureLine, RowFault>
    ensures { IsRowRead (within edition (λ line. Signature line)
        (signature_line (columns_in row.now))) result }
{
    let Some(parts) = signature_parts(row) else {
        return Err(RowFault::Refused(BadRow));
    };
    if !has_signature(edition, &parts) {
        return Err(RowFault::Refused(BadRow));
    }
    Ok(SignatureLine {
        record_number: parts.record_number,
        version: parts.version,
        parts: SealParts {
            version: parts.digest,
            lab: own_copy::<LabCodes>(alloc, parts.lab)?,
            person: own_copy::<PersonCodes>(alloc, parts.person)?,
            name: own_copy::<Names>(alloc, parts.name)?,
            meaning: own_meaning(alloc, parts.meaning)?,
            moment: parts.moment,
        },
        seal: parts.seal,
    })
}

// Whether a copy of the edition may have the signature.
fn has_signature(edition: Edition, parts: &SignatureParts<'_>) -> bool
    ensures { result ≡ is_of_edition edition (Signature (signature_of parts.now)) }
{
    match edition {
        Edition::Two => true,
        Edition::One => !is_approval(parts.meaning),
    }
}

fn is_approval(meaning: MeaningParts<'_>) -> bool
    ensures { result ≡ is_approval (meaning_in_row meaning.entry) }
{
    matches!(meaning, MeaningParts::Approval)
}

fn end_line(alloc: Global, row: &RowFields<'_>) -> Result<EndLine, RowFault>
    ensures { IsRowRead (end_line (columns_in row.now)) result }
{
    let Some(parts) = end_parts(row) else {
        return Err(RowFault::Refused(BadRow));
    };
    Ok(EndLine {
        lab: own_copy::<LabCodes>(alloc, parts.lab)?,
        counts: parts.counts,
    })
}
