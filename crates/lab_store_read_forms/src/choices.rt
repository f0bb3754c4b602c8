//! The names of a choice.

ghost use Rattle.std.specs.Prelude.{◌≡◌, [], map, All, IfOk, IfErr, if◌then◌else◌};
ghost use Rattle.lab_store_tables.specs.Meaning.{names_of};
ghost use Rattle.lab_store_read.specs.Causes.{HasItsCause};
ghost use Rattle.lab_store_read.specs.Cells.{storage};
ghost use Rattle.lab_store_read.specs.Reads.{Reads, MayRead};
ghost use Rattle.lab_store_read_forms.specs.KindsShown.{names_shown, name_read};
ghost use Rattle.lab_store_read_forms.specs.Readable.{HasName, HasNames};

use lab_forms_texts::Name;
use lab_store_read::asking::rows_by_one;
use lab_store_read::cells::text_of;
use lab_store_read::{ReadFault, Readable};
use sqlite::Row;
use std::alloc::Global;

// The names of the choice with the id, in the order of their places.
fn name_rows<D: Readable>(conn: &mut D, field: i64) -> Result<Vec<Row>, ReadFault>
    ensures reads { Reads (λ t rows. rows.items ≡ names_shown t field)
        (D.state conn.old) (D.state conn.new) result }
    ensures cause { HasItsCause (λ t. Unit {0}) (D.state conn.old) (D.state conn.new) result }
{
    rows_by_one(
        conn,
        "SELECT name FROM choices WHERE field = ?1 ORDER BY place",
        field,
    )
}

/// Returns the names that rows show.
///
/// # Errors
/// The store failed, a row isn't one that this program could have written, or memory ran out.
pub fn names_of_rows(alloc: Global, rows: &[Row]) -> Result<Vec<Name>, ReadFault>
    ensures value { IfOk result (λ made. made.items ≡ map name_read rows.now) }
    ensures fault { IfErr result (λ fault. fault ≡ storage → ¬ All HasName rows.now) }
{
    let mut made = Vec::new(alloc);
    for row in rows {
        made.push(text_of(alloc, row, 0)?)?;
    }
    Ok(made)
}

/// Returns the names of the choice with the id, in the order of their places.
///
/// # Errors
/// The store failed, a row isn't one that this program could have written, or memory ran out.
pub fn names_at<D: Readable>(
    alloc: Global,
    conn: &mut D,
    field: i64,
) -> Result<Vec<Name>, ReadFault>
    ensures reads { Reads (λ t made. made.items ≡ names_of t field)
        (D.state conn.old) (D.state conn.new) result }
    ensures cause { HasItsCause (λ t. All HasName (names_shown t field))
        (D.state conn.old) (D.state conn.new) result }
{
    let rows = name_rows(conn, field)?;
    names_of_rows(alloc, &rows)
}

/// Returns the names of the field with the id if they are wanted, and otherwise no names.
///
/// # Errors
/// The store failed, a row isn't one that this program could have written, or memory ran out.
pub fn names_if<D: Readable>(
    alloc: Global,
    conn: &mut D,
    field: i64,
    wanted: bool,
) -> Result<Vec<Name>, ReadFault>
    ensures reads { MayRead (λ t made. made.items ≡ (if wanted then names_of t field else []))
        (D.state conn.old) (D.state conn.new) result }
    ensures cause { HasItsCause (λ t. HasNames t field wanted)
        (D.state conn.old) (D.state conn.new) result }
{
    if !wanted {
        return Ok(Vec::new(alloc));
    }
    names_at(alloc, conn, field)
}
