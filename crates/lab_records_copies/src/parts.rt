//! The rows of one record.
ghost use Rattle.std.specs.Prelude.{◌≡◌, ◌++◌, IfOk, OnOk, map, unwrap_or, option_map};
ghost use Rattle.lab_records_copies.specs.CopyLines.{entry_line, fields_of_line, reason_of, record_line, rows_of_lines, signature_line, state_shown, version_line, version_lines};
ghost use Rattle.lab_records_kept.specs.Digests.{sealed_parts};
ghost use Rattle.lab_copy_rows.specs.Rows.{fields_in, entry_row, record_row as row_of_record, signature_row, version_row};
ghost use Rattle.lab_copy_rows.specs.declared.lines.Line.TheVariants as line;

use lab_copy_rows::{
    CopyRow, EntryLine, EntryRow, LabCode, Note, OutOfMemory, RecordLine, SealParts, SignatureLine,
    State, VersionLine,
};
use lab_records_kept::{Record, Signature, Version};
use std::alloc::Global;

/// Makes the row with which a record begins. The functions here fail only if memory runs out.
///
/// # Errors
/// Memory ran out.
pub fn record_row(alloc: Global, lab: &LabCode, kept: &Record) -> Result<CopyRow, OutOfMemory>
    ensures { IfOk result (λ row. row ≡ fields_in (row_of_record (record_line lab.now kept.now))) }
{
    let lab = lab.copy()?;
    let form = kept.form.code.copy()?;
    let sample = kept.sample.copy()?;
    CopyRow::record(
        alloc,
        &RecordLine {
            lab,
            record_number: kept.number,
            form_version: kept.form.version,
            form,
            sample,
        },
    )
}

/// Makes the rows of a version: its own, those of its entries, and those of its signatures.
///
/// # Errors
/// Memory ran out.
pub fn version_rows(
    alloc: Global,
    lab: &LabCode,
    kept: &Record,
    version: &Version,
) -> Result<Vec<CopyRow>, OutOfMemory>
    ensures { IfOk result (λ rows.
        rows.items ≡ rows_of_lines (version_lines lab.now kept.now version.now)) }
{
    let mut rows = Vec::new(alloc);
    rows.push(version_row(alloc, lab, kept, version)?)?;
    push_entries(alloc, &mut rows, lab, kept, version)?;
    push_signatures(alloc, &mut rows, lab, kept, version)?;
    Ok(rows)
}

fn version_row(
    alloc: Global,
    lab: &LabCode,
    kept: &Record,
    version: &Version,
) -> Result<CopyRow, OutOfMemory>
    ensures { IfOk result (λ row.
        row ≡ fields_in (version_row (version_line lab.now kept.now version.now))) }
{
    let digest = kept.digest_of(alloc, lab, version)?;
    let lab = lab.copy()?;
    let opener = version.opener.copy()?;
    let reason = reason_of(version)?;
    CopyRow::version(
        alloc,
        &VersionLine {
            lab,
            record_number: kept.number,
            number: version.origin.number(),
            format: version.format,
            state: state_shown(kept, version),
            opener,
            opened: version.opened,
            reason,
            digest,
        },
    )
}

fn state_shown(kept: &Record, version: &Version) -> State
    ensures { result ≡ state_shown kept.now version.now }
{
    match kept.state_of(version) {
        Some(state) => state,
        None => State::Open,
    }
}

fn reason_of(version: &Version) -> Result<Option<Note>, OutOfMemory>
    ensures { IfOk result (λ reason. reason ≡ reason_of version.now) }
{
    match version.origin.amendment() {
        Some(amendment) => Ok(Some(amendment.reason.copy()?)),
        None => Ok(None),
    }
}

fn push_entries(
    alloc: Global,
    rows: &mut Vec<CopyRow>,
    lab: &LabCode,
    kept: &Record,
    version: &Version,
) -> Result<(), OutOfMemory>
    ensures { OnOk result (rows.new.items ≡ rows.old.items
        ++ map (λ row. fields_in (entry_row (entry_line lab.now kept.now version.now row)))
        version.now.rows) }
{
    for row in version.rows.rows() {
        rows.push(entry_row(alloc, lab, kept, version, row)?)?;
    }
    Ok(())
}

fn entry_row(
    alloc: Global,
    lab: &LabCode,
    kept: &Record,
    version: &Version,
    row: &EntryRow,
) -> Result<CopyRow, OutOfMemory>
    ensures { IfOk result (λ made.
        made ≡ fields_in (entry_row (entry_line lab.now kept.now version.now row.now))) }
{
    let lab = lab.copy()?;
    let row = row.copy()?;
    CopyRow::entry(
        alloc,
        &EntryLine {
            lab,
            record_number: kept.number,
            version: version.origin.number(),
            row,
        },
    )
}

fn push_signatures(
    alloc: Global,
    rows: &mut Vec<CopyRow>,
    lab: &LabCode,
    kept: &Record,
    version: &Version,
) -> Result<(), OutOfMemory>
    ensures { OnOk result (rows.new.items ≡ rows.old.items
        ++ map (λ signature. fields_in (signature_row
        (signature_line lab.now kept.now version.now signature))) version.now.signatures) }
{
    for signature in version.signatures.as_slice() {
        rows.push(signature_row(alloc, lab, kept, version, signature)?)?;
    }
    Ok(())
}

fn signature_row(
    alloc: Global,
    lab: &LabCode,
    kept: &Record,
    version: &Version,
    signature: &Signature,
) -> Result<CopyRow, OutOfMemory>
    ensures { IfOk result (λ made. made ≡ fields_in (signature_row
        (signature_line lab.now kept.now version.now signature.now))) }
{
    let parts = sealed_parts(lab, signature)?;
    CopyRow::signature(
        alloc,
        &SignatureLine {
            record_number: kept.number,
            version: version.origin.number(),
            parts,
            seal: signature.seal,
        },
    )
}

fn sealed_parts(lab: &LabCode, signature: &Signature) -> Result<SealParts, OutOfMemory>
    ensures { IfOk result (λ parts. parts ≡ sealed_parts lab.now signature.now) }
{
    let lab = lab.copy()?;
    let person = signature.person.copy()?;
    let name = signature.name.copy()?;
    let meaning = signature.meaning.copy()?;
    Ok(SealParts {
        version: signature.digest,
        lab,
        person,
        name,
        meaning,
        moment: signature.moment,
    })
}
