//! Records, each by its own row.

ghost use Rattle.std.specs.Prelude.{◌≡◌, map, find, option_map, All, IfOk, IfErr};
ghost use Rattle.lab_store_read_records.specs.Heads.{record_head};
ghost use Rattle.lab_store_read_records.specs.Shown.{record_head_of};
ghost use Rattle.lab_store_read_records.specs.Sought.{is_about, heads_within};
ghost use Rattle.lab_store_read_records.specs.Readable.{HasRecord};
ghost use Rattle.lab_store_read_records.specs.Retrieved.{abouts_shown, within_shown};
ghost use Rattle.lab_store_read.specs.Causes.{HasItsCause, HasFirst};
ghost use Rattle.lab_store_read.specs.Cells.{storage};
ghost use Rattle.lab_store_read.specs.Reads.{Reads};

use crate::RecordHead;
use crate::asking_by_key::rows_by_key;
use crate::records::{first_record, record_of_row};
use lab_forms_texts::{Key, Name, Ordinal};
use lab_store_read::asking::rows_by_range;
use lab_store_read::{ReadFault, Readable};
use sqlite::Row;
use std::alloc::Global;

// The row of the record with the form and the sample, in the laboratory with the id.
fn about_rows<D: Readable>(
    conn: &mut D,
    lab: i64,
    form: &str,
    sample: &str,
) -> Result<Vec<Row>, ReadFault>
    ensures reads { Reads (λ t rows. rows.items ≡ abouts_shown t lab form.now sample.now)
        (D.state conn.old) (D.state conn.new) result }
    ensures cause { HasItsCause (λ t. Unit {0}) (D.state conn.old) (D.state conn.new) result }
{
    rows_by_key(
        conn,
        "SELECT id, number, form, form_code, sample, current FROM records WHERE lab = ?1 AND form_code = ?2 AND sample = ?3",
        lab,
        form,
        sample,
    )
}

/// Returns the own row of the record with a form of the code and the sample, in the laboratory with
/// the id, if there is one.
///
/// # Errors
/// The store failed, a row isn't one that this program could have written, or memory ran out.
pub fn record_about<D: Readable>(
    alloc: Global,
    conn: &mut D,
    lab: i64,
    form: &Key,
    sample: &Name,
) -> Result<Option<RecordHead>, ReadFault>
    ensures reads { Reads (λ t found. found
        ≡ option_map record_head (find (is_about lab form.now sample.now) t.records))
        (D.state conn.old) (D.state conn.new) result }
    ensures cause { HasItsCause (λ t. HasFirst HasRecord (abouts_shown t lab form.now sample.now))
        (D.state conn.old) (D.state conn.new) result }
{
    let rows = about_rows(conn, lab, form.as_str(), sample.as_str())?;
    first_record(alloc, &rows)
}

// The rows of the records of a range of numbers, in the laboratory with the id.
fn within_rows<D: Readable>(
    conn: &mut D,
    lab: i64,
    from: u32,
    to: u32,
) -> Result<Vec<Row>, ReadFault>
    ensures reads { Reads (λ t rows. rows.items ≡ within_shown t lab from to)
        (D.state conn.old) (D.state conn.new) result }
    ensures cause { HasItsCause (λ t. Unit {0}) (D.state conn.old) (D.state conn.new) result }
{
    rows_by_range(
        conn,
        "SELECT id, number, form, form_code, sample, current FROM records WHERE lab = ?1 AND number >= ?2 AND number <= ?3 ORDER BY number",
        lab,
        from,
        to,
    )
}

/// Returns the records that rows show.
///
/// # Errors
/// The store failed, a row isn't one that this program could have written, or memory ran out.
pub fn records_of_rows(alloc: Global, rows: &[Row]) -> Result<Vec<RecordHead>, ReadFault>
    ensures value { IfOk result (λ made. made.items ≡ map record_head_of rows.now) }
    ensures fault { IfErr result (λ fault. fault ≡ storage → ¬ All HasRecord rows.now) }
{
    let mut made = Vec::new(alloc);
    for row in rows {
        made.push(record_of_row(alloc, row)?)?;
    }
    Ok(made)
}

/// Returns the rows of the records with a number in the range, in the laboratory with the id, in
/// the order of the numbers.
///
/// # Errors
/// The store failed, a row isn't one that this program could have written, or memory ran out.
pub fn records_within<D: Readable>(
    alloc: Global,
    conn: &mut D,
    lab: i64,
    from: Ordinal,
    to: Ordinal,
) -> Result<Vec<RecordHead>, ReadFault>
    ensures reads { Reads (λ t made. made.items ≡ heads_within t lab from to)
        (D.state conn.old) (D.state conn.new) result }
    ensures cause { HasItsCause (λ t. All HasRecord (within_shown t lab from to))
        (D.state conn.old) (D.state conn.new) result }
{
    let rows = within_rows(conn, lab, from.get(), to.get())?;
    records_of_rows(alloc, &rows)
}
