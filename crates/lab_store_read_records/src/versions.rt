//! Versions of a record, each by its own row.

ghost use Rattle.std.specs.Prelude.{◌≡◌, map, All, IfOk, IfErr};
ghost use Rattle.lab_store_read_records.specs.Heads.{versions_of};
ghost use Rattle.lab_store_read_records.specs.Readable.{HasVersionColumns};
ghost use Rattle.lab_store_read_records.specs.Shown.{versions_shown, version_read};
ghost use Rattle.lab_store_read.specs.Causes.{HasItsCause};
ghost use Rattle.lab_store_read.specs.Cells.{storage};
ghost use Rattle.lab_store_read.specs.Reads.{Reads};

use crate::heads::VersionHead;
use lab_store_read::asking::rows_by_one;
use lab_store_read::cells::{id_of, moment_of, ordinal_of, small_of, text_if, text_of};
use lab_store_read::{ReadFault, Readable};
use sqlite::Row;
use std::alloc::Global;

// The versions of the record with the id, in the order of their numbers.
fn version_rows<D: Readable>(conn: &mut D, kept: i64) -> Result<Vec<Row>, ReadFault>
    ensures reads { Reads (λ t rows. rows.items ≡ versions_shown t kept)
        (D.state conn.old) (D.state conn.new) result }
    ensures cause { HasItsCause (λ t. Unit {0}) (D.state conn.old) (D.state conn.new) result }
{
    rows_by_one(
        conn,
        "SELECT versions.id, versions.number, versions.format, persons.code, versions.opened, versions.reason FROM versions, persons WHERE versions.record = ?1 AND persons.id = versions.opener ORDER BY versions.number",
        kept,
    )
}

// The version that a row shows.
fn version_of_row(alloc: Global, row: &Row) -> Result<VersionHead, ReadFault>
    ensures value { IfOk result (λ version. version ≡ version_read row.now) }
    ensures fault { IfErr result (λ fault. fault ≡ storage → ¬ HasVersionColumns row.now) }
{
    let id = id_of(row, 0)?;
    let number = ordinal_of(row, 1)?;
    let format = small_of(row, 2)?;
    let opened = moment_of(row, 4)?;
    let opener = text_of(alloc, row, 3)?;
    let reason = text_if(alloc, row, 5)?;
    Ok(VersionHead {
        id,
        number,
        format,
        opener,
        opened,
        reason,
    })
}

// The versions that rows show.
fn versions_of_rows(alloc: Global, rows: &[Row]) -> Result<Vec<VersionHead>, ReadFault>
    ensures value { IfOk result (λ made. made.items ≡ map version_read rows.now) }
    ensures fault { IfErr result (λ fault. fault ≡ storage → ¬ All HasVersionColumns rows.now) }
{
    let mut made = Vec::new(alloc);
    for row in rows {
        made.push(version_of_row(alloc, row)?)?;
    }
    Ok(made)
}

/// Returns the versions of the record with the id, in the order of their numbers.
///
/// # Errors
/// The store failed, a row isn't one that this program could have written, or memory ran out.
pub fn versions_at<D: Readable>(
    alloc: Global,
    conn: &mut D,
    kept: i64,
) -> Result<Vec<VersionHead>, ReadFault>
    ensures reads { Reads (λ t made. made.items ≡ versions_of t kept)
        (D.state conn.old) (D.state conn.new) result }
    ensures cause { HasItsCause (λ t. All HasVersionColumns (versions_shown t kept))
        (D.state conn.old) (D.state conn.new) result }
{
    let rows = version_rows(conn, kept)?;
    versions_of_rows(alloc, &rows)
}
