//! Rows that persons entered in a version.

ghost use Rattle.std.specs.Prelude.{◌≡◌, [], ◌∷◌, ◌++◌, map, All, IfOk, IfErr};
ghost use Rattle.lab_store_tables.specs.Meaning.{entries_of};
ghost use Rattle.lab_store_read.specs.Causes.{HasItsCause};
ghost use Rattle.lab_store_read.specs.Cells.{storage};
ghost use Rattle.lab_store_read.specs.Known.{AreKnown};
ghost use Rattle.lab_store_read.specs.Reads.{Reads, MayRead};
ghost use Rattle.lab_store_read_records.specs.Private.Heads.{entry_heads_of, entry_by};
ghost use Rattle.lab_store_read_records.specs.Readable.{HasEntry};
ghost use Rattle.lab_store_read_records.specs.Private.Readable.{HasOwnEntry, HasWriter};
ghost use Rattle.lab_store_read_records.specs.Shown.{entries_shown};
ghost use Rattle.lab_store_read_records.specs.Private.Shown.{own_entries_shown, own_entry_read};

use crate::heads::EntryHead;
use lab_seal_versions::EntryRow;
use lab_store_read::asking::rows_by_one;
use lab_store_read::cells::{id_of, moment_of, text_if, text_of};
use lab_store_read::{KnownCode, ReadFault, Readable, code_once};
use sqlite::Row;
use std::alloc::Global;

// The own rows of the entries of the version with the id, in the order of their places.
fn entry_rows<D: Readable>(conn: &mut D, version: i64) -> Result<Vec<Row>, ReadFault>
    ensures reads { Reads (λ t rows. rows.items ≡ own_entries_shown t version)
        (D.state conn.old) (D.state conn.new) result }
    ensures cause { HasItsCause (λ t. Unit {0}) (D.state conn.old) (D.state conn.new) result }
{
    rows_by_one(
        conn,
        "SELECT key, value, unit, person, moment, reason FROM entries WHERE version = ?1 ORDER BY place",
        version,
    )
}

// What a row shows.
fn entry_of_row(alloc: Global, row: &Row) -> Result<EntryHead, ReadFault>
    ensures value { IfOk result (λ entry. entry ≡ own_entry_read row.now) }
    ensures fault { IfErr result (λ fault. fault ≡ storage → ¬ HasOwnEntry row.now) }
{
    let person = id_of(row, 3)?;
    let moment = moment_of(row, 4)?;
    let key = text_of(alloc, row, 0)?;
    let value = text_of(alloc, row, 1)?;
    let unit = text_of(alloc, row, 2)?;
    let reason = text_if(alloc, row, 5)?;
    Ok(EntryHead {
        key,
        value,
        unit,
        person,
        moment,
        reason,
    })
}

// What the rows show.
fn entries_of_rows(alloc: Global, rows: &[Row]) -> Result<Vec<EntryHead>, ReadFault>
    ensures value { IfOk result (λ made. made.items ≡ map own_entry_read rows.now) }
    ensures fault { IfErr result (λ fault. fault ≡ storage → ¬ All HasOwnEntry rows.now) }
{
    let mut made = Vec::new(alloc);
    for row in rows {
        made.push(entry_of_row(alloc, row)?)?;
    }
    Ok(made)
}

// The own rows of the entries of the version with the id, in the order of their places.
fn entry_heads_at<D: Readable>(
    alloc: Global,
    conn: &mut D,
    version: i64,
) -> Result<Vec<EntryHead>, ReadFault>
    ensures reads { Reads (λ t made. made.items ≡ entry_heads_of t version)
        (D.state conn.old) (D.state conn.new) result }
    ensures cause { HasItsCause (λ t. All HasOwnEntry (own_entries_shown t version))
        (D.state conn.old) (D.state conn.new) result }
{
    let rows = entry_rows(conn, version)?;
    entries_of_rows(alloc, &rows)
}

// The entry, with the code of its person.
fn entry_whole<D: Readable>(
    alloc: Global,
    conn: &mut D,
    known: &mut Vec<KnownCode>,
    head: EntryHead,
) -> Result<EntryRow, ReadFault>
    ensures reads { MayRead (λ t entry. AreKnown t known.old.items →
        (entry ≡ entry_by t head) × AreKnown t known.new.items)
        (D.state conn.old) (D.state conn.new) result }
    ensures cause { HasItsCause (λ t. HasWriter t head)
        (D.state conn.old) (D.state conn.new) result }
{
    let person = code_once(alloc, conn, known, head.person)?;
    Ok(EntryRow {
        key: head.key,
        value: head.value,
        unit: head.unit,
        person,
        moment: head.moment,
        reason: head.reason,
    })
}

// Adds the entry after the others.
fn add_entry<D: Readable>(
    alloc: Global,
    conn: &mut D,
    known: &mut Vec<KnownCode>,
    made: &mut Vec<EntryRow>,
    head: EntryHead,
) -> Result<(), ReadFault>
    ensures reads { MayRead (λ t _. AreKnown t known.old.items →
        (made.new.items ≡ made.old.items ++ entry_by t head ∷ []) × AreKnown t known.new.items)
        (D.state conn.old) (D.state conn.new) result }
    ensures cause { HasItsCause (λ t. HasWriter t head)
        (D.state conn.old) (D.state conn.new) result }
{
    let entry = entry_whole(alloc, conn, known, head)?;
    made.push(entry)?;
    Ok(())
}

// Adds the entries after the others. The code of each person is read once.
fn add_entries<D: Readable>(
    alloc: Global,
    conn: &mut D,
    made: &mut Vec<EntryRow>,
    heads: Vec<EntryHead>,
) -> Result<(), ReadFault>
    ensures reads { MayRead (λ t _. made.new.items ≡ made.old.items ++ map (entry_by t) heads.items)
        (D.state conn.old) (D.state conn.new) result }
    ensures cause { HasItsCause (λ t. All (HasWriter t) heads.items)
        (D.state conn.old) (D.state conn.new) result }
{
    let mut known = Vec::new(alloc);
    for head in heads {
        add_entry(alloc, conn, &mut known, made, head)?;
    }
    Ok(())
}

/// Returns the entries of the version with the id, in the order of their places. The code of each
/// person is read once.
///
/// # Errors
/// The store failed, a row isn't one that this program could have written, or memory ran out.
pub fn entries_at<D: Readable>(
    alloc: Global,
    conn: &mut D,
    version: i64,
) -> Result<Vec<EntryRow>, ReadFault>
    ensures reads { Reads (λ t made. made.items ≡ entries_of t version)
        (D.state conn.old) (D.state conn.new) result }
    ensures cause { HasItsCause (λ t. All HasEntry (entries_shown t version))
        (D.state conn.old) (D.state conn.new) result }
{
    let heads = entry_heads_at(alloc, conn, version)?;
    let mut made = Vec::new(alloc);
    add_entries(alloc, conn, &mut made, heads)?;
    Ok(made)
}
