//! Laboratories, by their codes.

ghost use Rattle.std.specs.Prelude.{◌≡◌, find, option_map, slice_get, IfOk, IfErr};
ghost use Rattle.sqlite.specs.State.{HasCleanDisk, KeepsCommit};
ghost use Rattle.lab_store_tables.specs.Meaning.{has_code};
ghost use Rattle.lab_store_read.specs.Causes.{HasItsCause, HasFirst};
ghost use Rattle.lab_store_read.specs.Cells.{storage};
ghost use Rattle.lab_store_read.specs.Reads.{Reads};
ghost use Rattle.lab_store_read_records.specs.Heads.{lab_head};
ghost use Rattle.lab_store_read_records.specs.Readable.{HasLab};
ghost use Rattle.lab_store_read_records.specs.Shown.{labs_shown, lab_read};

use crate::cells::count_of;
use crate::heads::LabHead;
use lab_forms_texts::LabCode;
use lab_store_read::asking::rows_by_text;
use lab_store_read::cells::{id_of, moment_of, text_of};
use lab_store_read::{ReadFault, Readable};
use sqlite::Row;
use std::alloc::Global;

/// Returns the row of the laboratory with the code, if there is one. Commits nothing.
///
/// # Errors
/// The store fails, or memory runs out.
pub fn lab_rows<D: Readable>(conn: &mut D, code: &str) -> Result<Vec<Row>, ReadFault>
    ensures kept { HasCleanDisk (D.state conn.new) →
        KeepsCommit (D.state conn.old) (D.state conn.new) }
    ensures reads { Reads (λ t rows. rows.items ≡ labs_shown t code.now)
        (D.state conn.old) (D.state conn.new) result }
    ensures cause { HasItsCause (λ t. Unit {0}) (D.state conn.old) (D.state conn.new) result }
{
    rows_by_text(
        conn,
        "SELECT id, code, name, last, stray, records, sessions, trail FROM labs WHERE code = ?1",
        code,
    )
}

// The laboratory that a row shows.
fn lab_of_row(alloc: Global, row: &Row) -> Result<LabHead, ReadFault>
    ensures value { IfOk result (λ lab. lab ≡ lab_read row.now) }
    ensures fault { IfErr result (λ fault. fault ≡ storage → ¬ HasLab row.now) }
{
    let id = id_of(row, 0)?;
    let last = moment_of(row, 3)?;
    let strays = count_of(row, 4)?;
    let records = count_of(row, 5)?;
    let sessions = count_of(row, 6)?;
    let trail = count_of(row, 7)?;
    let code = text_of(alloc, row, 1)?;
    let name = text_of(alloc, row, 2)?;
    Ok(LabHead {
        id,
        code,
        name,
        last,
        strays,
        records,
        sessions,
        trail,
    })
}

/// Returns the laboratory that the first row shows, if there is a row.
///
/// # Errors
/// The store failed, a row isn't one that this program could have written, or memory ran out.
pub fn first_lab(alloc: Global, rows: &[Row]) -> Result<Option<LabHead>, ReadFault>
    ensures value { IfOk result (λ lab. lab ≡ option_map lab_read (slice_get rows.now 0)) }
    ensures fault { IfErr result (λ fault. fault ≡ storage → ¬ HasFirst HasLab rows.now) }
{
    match rows.first() {
        Some(row) => Ok(Some(lab_of_row(alloc, row)?)),
        None => Ok(None),
    }
}

/// Returns the own row of the laboratory with the code, if there is one.
///
/// # Errors
/// The store failed, a row isn't one that this program could have written, or memory ran out.
pub fn lab_at<D: Readable>(
    alloc: Global,
    conn: &mut D,
    code: &LabCode,
) -> Result<Option<LabHead>, ReadFault>
    ensures reads { Reads (λ t lab. lab ≡ option_map lab_head (find (has_code code.now) t.labs))
        (D.state conn.old) (D.state conn.new) result }
    ensures cause { HasItsCause (λ t. HasFirst HasLab (labs_shown t code.now))
        (D.state conn.old) (D.state conn.new) result }
{
    let rows = lab_rows(conn, code.as_str())?;
    first_lab(alloc, &rows)
}
