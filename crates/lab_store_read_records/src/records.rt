//! Records, each by its own row.

ghost use Rattle.std.specs.Prelude.{◌≡◌, find, option_map, slice_get, IfOk, IfErr};
ghost use Rattle.lab_store_read_records.specs.Heads.{is_record, record_head};
ghost use Rattle.lab_store_read_records.specs.Readable.{HasRecord};
ghost use Rattle.lab_store_read_records.specs.Shown.{records_shown, record_head_of};
ghost use Rattle.lab_store_read.specs.Causes.{HasItsCause, HasFirst};
ghost use Rattle.lab_store_read.specs.Cells.{storage};
ghost use Rattle.lab_store_read.specs.Reads.{Reads};

use crate::asking::rows_by_two;
use crate::heads::RecordHead;
use lab_forms_texts::Ordinal;
use lab_store_read::cells::{id_of, ordinal_of, small_of, text_of};
use lab_store_read::{ReadFault, Readable};
use sqlite::Row;
use std::alloc::Global;

// The row of the record with the number, in the laboratory with the id.
fn record_rows<D: Readable>(conn: &mut D, lab: i64, number: u32) -> Result<Vec<Row>, ReadFault>
    ensures reads { Reads (λ t rows. rows.items ≡ records_shown t lab number)
        (D.state conn.old) (D.state conn.new) result }
    ensures cause { HasItsCause (λ t. Unit {0}) (D.state conn.old) (D.state conn.new) result }
{
    rows_by_two(
        conn,
        "SELECT id, number, form, form_code, sample, current FROM records WHERE lab = ?1 AND number = ?2",
        lab,
        number,
    )
}

/// Returns the record that a row shows.
///
/// # Errors
/// The store failed, a row isn't one that this program could have written, or memory ran out.
pub(crate) fn record_of_row(alloc: Global, row: &Row) -> Result<RecordHead, ReadFault>
    ensures value { IfOk result (λ found. found ≡ record_head_of row.now) }
    ensures fault { IfErr result (λ fault. fault ≡ storage → ¬ HasRecord row.now) }
{
    let id = id_of(row, 0)?;
    let number = ordinal_of(row, 1)?;
    let form = id_of(row, 2)?;
    let current = small_of(row, 5)?;
    let form_code = text_of(alloc, row, 3)?;
    let sample = text_of(alloc, row, 4)?;
    Ok(RecordHead {
        id,
        number,
        form,
        form_code,
        sample,
        current,
    })
}

/// Returns the record that the first row shows.
///
/// # Errors
/// The store failed, a row isn't one that this program could have written, or memory ran out.
pub(crate) fn first_record(alloc: Global, rows: &[Row]) -> Result<Option<RecordHead>, ReadFault>
    ensures value { IfOk result (λ found. found ≡ option_map record_head_of (slice_get rows.now 0)) }
    ensures fault { IfErr result (λ fault. fault ≡ storage → ¬ HasFirst HasRecord rows.now) }
{
    match rows.first() {
        Some(row) => Ok(Some(record_of_row(alloc, row)?)),
        None => Ok(None),
    }
}

/// Returns the own row of the record with the number, in the laboratory with the id, if there is
/// one.
///
/// # Errors
/// The store failed, a row isn't one that this program could have written, or memory ran out.
pub fn record_at<D: Readable>(
    alloc: Global,
    conn: &mut D,
    lab: i64,
    number: Ordinal,
) -> Result<Option<RecordHead>, ReadFault>
    ensures reads { Reads (λ t found. found
        ≡ option_map record_head (find (is_record lab number) t.records))
        (D.state conn.old) (D.state conn.new) result }
    ensures cause { HasItsCause (λ t. HasFirst HasRecord (records_shown t lab number))
        (D.state conn.old) (D.state conn.new) result }
{
    let rows = record_rows(conn, lab, number.get())?;
    first_record(alloc, &rows)
}
