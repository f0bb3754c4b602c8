//! Rows that persons entered in a version.

ghost use Rattle.std.specs.Prelude.{◌≡◌, ◌&&◌, length, map, All, IfErr, IfOk};
ghost use Rattle.lab_store_tables.specs.Meaning.{entries_of};
ghost use Rattle.lab_move_tables.specs.KeptLabs.{are_kept_entries};
ghost use Rattle.lab_move_tables.specs.Checks.{are_owned};
ghost use Rattle.lab_store_read.specs.Cells.{storage};
ghost use Rattle.lab_move_read_people.specs.declared.faults.KeptFault.TheVariants.{Storage};
ghost use Rattle.lab_move_read.specs.Readable.{AreEntries, HasEntries, HasOldEntry};
ghost use Rattle.lab_move_read_people.specs.Private.Kept.{IsTried};
ghost use Rattle.lab_move_read_people.specs.Kept.{TriesOld, are_counted};
ghost use Rattle.lab_move_read.specs.Private.Records.{entry_read};

use lab_move_read_people::KeptFault;
use lab_move_read_people::cells::{are_counted, reason_of};
use lab_move_tables::{are_owned, entry_places, entry_rows};
use lab_seal_versions::{EntryRow, EntryRows};
use lab_store_read::cells::{moment_of, text_of};
use lab_store_read::{ReadFault, Readable};
use sqlite::Row;
use std::alloc::Global;

// The entry that a row shows.
fn entry_of_row(alloc: Global, row: &Row) -> Result<EntryRow, ReadFault>
    ensures value { IfOk result (λ entry. entry ≡ entry_read row.now) }
    ensures fault { IfErr result (λ fault. fault ≡ storage → ¬ HasOldEntry row.now) }
{
    let moment = moment_of(row, 4)?;
    let key = text_of(alloc, row, 0)?;
    let value = text_of(alloc, row, 1)?;
    let unit = text_of(alloc, row, 2)?;
    let person = text_of(alloc, row, 3)?;
    let reason = reason_of(alloc, row, 5)?;
    Ok(EntryRow {
        key,
        value,
        unit,
        person,
        moment,
        reason,
    })
}

// The entries that rows show.
fn entries_of_rows(alloc: Global, rows: &[Row]) -> Result<Vec<EntryRow>, ReadFault>
    ensures value { IfOk result (λ made. made.items ≡ map entry_read rows.now) }
    ensures fault { IfErr result (λ fault. fault ≡ storage → ¬ All HasOldEntry rows.now) }
{
    let mut made = Vec::new(alloc);
    for row in rows {
        made.push(entry_of_row(alloc, row)?)?;
    }
    Ok(made)
}

// The entries that rows show. The rows have to be as many as the places, numbered, and of persons of
// the laboratory.
#[tactic(auto, using(lab_move_read_people::proofs::Found::told_back))]
fn entries_tried(
    alloc: Global,
    rows: &[Row],
    places: &[Row],
    lab: i64,
) -> Result<EntryRows, KeptFault>
    ensures tried { IsTried (are_counted 6 (length places.now) rows.now && are_owned 7 lab rows.now)
        (λ made. made ≡ map entry_read rows.now) result }
    ensures fault { IfErr result (λ fault. fault ≡ Storage → ¬ AreEntries rows.now) }
{
    if !are_counted(rows, 6, places.len() as u64)? {
        return Err(KeptFault::NotKept);
    }
    if !are_owned(rows, 7, lab)? {
        return Err(KeptFault::NotKept);
    }
    Ok(EntryRows::new(entries_of_rows(alloc, rows)?))
}

/// Returns the entries of the version with the id, in the order of their places. An entry whose
/// person isn't there is missing among the rows, and not among the places.
///
/// # Errors
/// They aren't well kept, the store failed, a row isn't one that a program could have written, or
/// memory ran out.
pub(crate) fn entries_at<D: Readable>(
    alloc: Global,
    conn: &mut D,
    lab: i64,
    version: i64,
) -> Result<EntryRows, KeptFault>
    ensures { TriesOld (HasEntries version) (λ t. are_kept_entries t lab version)
        (λ t made. made ≡ entries_of t version)
        (D.state conn.old) (D.state conn.new) result }
{
    let rows = entry_rows(conn, version)?;
    let places = entry_places(conn, version)?;
    entries_tried(alloc, &rows, &places, lab)
}
