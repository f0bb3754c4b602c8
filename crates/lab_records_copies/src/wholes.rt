//! The rows of whole copies.
ghost use Rattle.std.specs.Prelude.{◌≡◌, ◌++◌, IfOk, OnOk};
ghost use Rattle.lab_records_copies.specs.CopyLines.{body_lines, copy_line, copy_rows, end_line, record_lines, rows_of_lines};
ghost use Rattle.lab_records_copies.specs.Private.CopyLines.{count_of, counts_in};
ghost use Rattle.lab_copy_rows.specs.Rows.{fields_in, copy_row, end_row};

use crate::CopyOrder;
use crate::parts::{record_row, version_rows};
use lab_copy_rows::{CopyLine, CopyRow, Counts, Edition, EndLine, LabCode, Name, OutOfMemory};
use lab_records_kept::Record;
use std::alloc::Global;

/// Makes the rows of records, one record after the other: each with its versions, their entries and
/// their signatures.
///
/// # Errors
/// Memory ran out.
pub fn body_rows(
    alloc: Global,
    lab: &LabCode,
    records: &[Record],
) -> Result<Vec<CopyRow>, OutOfMemory>
    ensures { IfOk result (λ rows. rows.items ≡ rows_of_lines (body_lines lab.now records.now)) }
{
    let mut rows = Vec::new(alloc);
    for kept in records {
        push_record(alloc, &mut rows, lab, kept)?;
    }
    Ok(rows)
}

fn push_record(
    alloc: Global,
    rows: &mut Vec<CopyRow>,
    lab: &LabCode,
    kept: &Record,
) -> Result<(), OutOfMemory>
    ensures { OnOk result (rows.new.items ≡
        rows.old.items ++ rows_of_lines (record_lines lab.now kept.now)) }
{
    rows.push(record_row(alloc, lab, kept)?)?;
    for version in kept.versions.as_slice() {
        let mut more = version_rows(alloc, lab, kept, version)?;
        rows.append(&mut more)?;
    }
    Ok(())
}

/// Makes the rows of a copy of records: the header, the copy row, the rows of the records, and the
/// end row with the number of rows of each kind. The records must be those that the order asks for.
///
/// # Errors
/// Memory ran out.
pub fn copy_rows(
    alloc: Global,
    lab: &LabCode,
    name: &Name,
    order: CopyOrder,
    records: &[Record],
) -> Result<Vec<CopyRow>, OutOfMemory>
    ensures { IfOk result (λ rows. rows.items ≡ copy_rows lab.now name.now order records.now) }
{
    let mut body = body_rows(alloc, lab, records)?;
    let end = end_row(alloc, lab, &body)?;
    let mut rows = Vec::new(alloc);
    rows.push(CopyRow::header(alloc)?)?;
    rows.push(order_row(alloc, lab, name, order)?)?;
    rows.append(&mut body)?;
    rows.push(end)?;
    Ok(rows)
}

fn order_row(
    alloc: Global,
    lab: &LabCode,
    name: &Name,
    order: CopyOrder,
) -> Result<CopyRow, OutOfMemory>
    ensures { IfOk result (λ row. row ≡ fields_in (copy_row (copy_line lab.now name.now order))) }
{
    let lab = lab.copy()?;
    let name = name.copy()?;
    CopyRow::copy(
        alloc,
        &CopyLine {
            edition: Edition::Two,
            lab,
            from: order.from,
            to: order.to,
            person: order.person,
            name,
            moment: order.moment,
        },
    )
}

// The row that ends a copy with these rows of records.
fn end_row(alloc: Global, lab: &LabCode, body: &[CopyRow]) -> Result<CopyRow, OutOfMemory>
    ensures { IfOk result (λ row.
        row ≡ fields_in (end_row (end_line lab.now (counts_in body.now)))) }
{
    let lab = lab.copy()?;
    CopyRow::end(
        alloc,
        &EndLine {
            lab,
            counts: counts_in(body),
        },
    )
}

// The number of rows of each kind.
fn counts_in(rows: &[CopyRow]) -> Counts
    ensures { result ≡ counts_in rows.now }
{
    Counts {
        records: count_of(rows, "record"),
        versions: count_of(rows, "version"),
        entries: count_of(rows, "entry"),
        signatures: count_of(rows, "signature"),
    }
}

fn count_of(rows: &[CopyRow], kind: &str) -> u64
    ensures { result ≡ count_of kind.now rows.now }
{
    rows.iter().filter(|row| row.kind() == kind).count() as u64
}
