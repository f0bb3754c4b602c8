//! How rows are sent: one CSV writer makes them into bytes in memory, and then every byte is sent.
ghost use Rattle.std.specs.Prelude.{◌≡◌, ◌≤◌, ◌++◌, ℕ, List, [], IfOk, OnOk, length, take};
ghost use Rattle.std.specs.Io.KnownBytes.{Appends};
ghost use Rattle.csv.specs.Records.{fields_of};
ghost use Rattle.lab_copy_rows.specs.Csv.{csv_row, csv_text};
ghost use Rattle.lab_copy_rows.specs.Private.Outs.{HasWritten};
ghost use Rattle.lab_copy_rows.specs.Outs.{Sends};

use crate::{CopyOutFault, CopyRow, OutOfMemory};
use csv::{StringRecord, Writer, WriterBuilder};
use std::alloc::Global;
use std::io::Write;

/// Writes rows as CSV, after the text of all these rows is in memory.
///
/// # Errors
/// The writer failed, or memory ran out.
#[tactic(auto, using(crate::proofs::SendLemmas::taken_went, crate::proofs::SendLemmas::all_went, crate::proofs::SendLemmas::none_went))]
pub(crate) fn send_rows<W: Write>(
    alloc: Global,
    writer: &mut W,
    rows: &[CopyRow],
) -> Result<(), CopyOutFault>
    ensures { Sends (W.contents writer.old) (W.contents writer.new) (csv_text rows.now) result }
{
    let Ok(bytes) = rows_bytes(alloc, rows) else {
        return Err(CopyOutFault::Memory);
    };
    if send(writer, &bytes) < bytes.len() {
        return Err(CopyOutFault::Write);
    }
    Ok(())
}

// The text of rows. The CSV writer writes to memory, so it fails only if memory runs out.
fn rows_bytes(alloc: Global, rows: &[CopyRow]) -> Result<Vec<u8>, OutOfMemory>
    ensures { IfOk result (λ bytes. bytes.items ≡ csv_text rows.now) }
{
    let mut writer = WriterBuilder::new().from_writer(Vec::new(alloc));
    put_rows(alloc, &mut writer, rows)?;
    match writer.into_inner() {
        Ok(bytes) => Ok(bytes),
        Err(_) => Err(OutOfMemory),
    }
}

// Writes rows with a CSV writer that has written nothing.
fn put_rows<W: Write + Drop>(
    alloc: Global,
    writer: &mut Writer<W>,
    rows: &[CopyRow],
) -> Result<(), OutOfMemory>
    ensures { HasWritten W.contents writer.old [] →
        OnOk result (HasWritten W.contents writer.new (csv_text rows.now)) }
{
    let mut fields = StringRecord::new(alloc);
    for row in rows {
        put_row(writer, &mut fields, row)?;
    }
    Ok(())
}

// Writes a row with the CSV writer, after the rows before it.
fn put_row<W: Write + Drop>(
    writer: &mut Writer<W>,
    fields: &mut StringRecord,
    row: &CopyRow,
) -> Result<(), OutOfMemory>
    ensures { (bytes : List ℕ) → HasWritten W.contents writer.old bytes →
        OnOk result (HasWritten W.contents writer.new (bytes ++ csv_row row.now)) }
{
    take_fields(fields, row)?;
    let Ok(()) = writer.write_byte_record(fields.as_byte_record()) else {
        return Err(OutOfMemory);
    };
    Ok(())
}

// Puts the fields of a row into the record for the CSV writer, in place of the fields of the row
// before.
fn take_fields(made: &mut StringRecord, row: &CopyRow) -> Result<(), OutOfMemory>
    ensures { OnOk result (fields_of made.new ≡ row.now) }
{
    made.clear();
    for field in row.fields() {
        made.push_field(field)?;
    }
    Ok(())
}

// Writes the bytes until a write fails or takes no byte, and returns how many were written.
fn send<W: Write>(writer: &mut W, bytes: &[u8]) -> usize
    ensures within { result ≤ length bytes.now }
    ensures sent { Appends (W.contents writer.old) (W.contents writer.new) (take result bytes.now) }
{
    let mut sent = 0;
    while sent < bytes.len() {
        match writer.write(&bytes[sent..]) {
            Ok(0) | Err(_) => return sent,
            Ok(taken) => sent += taken,
        }
    }
    sent
}
