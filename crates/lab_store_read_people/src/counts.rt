//! The number of persons in a laboratory.

ghost use Rattle.std.specs.Prelude.{◌≡◌, ◌<◌, Some, length, slice_get, option_and_then, IfOk, IfErr};
ghost use Rattle.lab_store_tables.specs.Rows.{number};
ghost use Rattle.lab_store_tables.specs.Meaning.{persons_of};
ghost use Rattle.lab_store_read.specs.Causes.{HasItsCause};
ghost use Rattle.lab_store_read.specs.Cells.{is_id, stands, IsNotMade};
ghost use Rattle.lab_store_read.specs.Reads.{Reads};
ghost use Rattle.lab_store_read_people.specs.Private.CountsShown.{count_shown, shows_number};

use lab_store_read::asking::rows_by_one;
use lab_store_read::cells::id_of;
use lab_store_read::{BadStore, ReadFault, Readable};
use sqlite::Row;

// The number of the persons of the laboratory with the id, in one row.
fn count_rows<D: Readable>(conn: &mut D, lab: i64) -> Result<Vec<Row>, ReadFault>
    ensures reads { Reads (λ t rows. rows.items ≡ count_shown (length (persons_of t lab)))
        (D.state conn.old) (D.state conn.new) result }
    ensures cause { HasItsCause (λ t. Unit {0}) (D.state conn.old) (D.state conn.new) result }
{
    rows_by_one(conn, "SELECT count(*) FROM persons WHERE lab = ?1", lab)
}

// The first number in a row. A number of more than 32 bits would count rows that no memory can
// hold.
fn number_of(row: &Row) -> Result<u64, ReadFault>
    ensures value { IfOk result (λ many.
        (many < 4294967296) × (slice_get row.now 0 ≡ Some (number many))) }
    ensures fault { IfErr result (IsNotMade (stands is_id row.now 0)) }
{
    match u32::try_from(id_of(row, 0)?) {
        Ok(many) => Ok(u64::from(many)),
        Err(_) => Err(ReadFault::Memory),
    }
}

// The first number in the first row.
fn first_number(rows: &[Row]) -> Result<u64, ReadFault>
    ensures value { IfOk result (λ many. (many < 4294967296)
        × (option_and_then (λ row. slice_get row 0) (slice_get rows.now 0) ≡ Some (number many))) }
    ensures fault { IfErr result (IsNotMade (shows_number rows.now)) }
{
    match rows.first() {
        Some(row) => number_of(row),
        None => Err(ReadFault::Refused(BadStore)),
    }
}

/// Returns how many persons the laboratory with the id has.
///
/// # Errors
/// The store failed, a row isn't one that this program could have written, or memory ran out.
pub fn person_count<D: Readable>(conn: &mut D, lab: i64) -> Result<u64, ReadFault>
    ensures reads { Reads (λ t count. count ≡ length (persons_of t lab))
        (D.state conn.old) (D.state conn.new) result }
    ensures cause { HasItsCause (λ t. Unit {0}) (D.state conn.old) (D.state conn.new) result }
{
    let rows = count_rows(conn, lab)?;
    first_number(&rows)
}
