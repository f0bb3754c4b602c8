//! The codes of persons, by the ids of their rows. While several rows are read, each code is looked
//! up once.

ghost use Rattle.std.specs.Prelude.{◌≡◌, Some, option_map, slice_get, IfOk, IfErr, IsTrue};
ghost use Rattle.lab_store_tables.specs.Meaning.{code_of};
ghost use Rattle.lab_store_read.specs.Causes.{HasItsCause};
ghost use Rattle.lab_store_read.specs.Cells.{IsNotMade};
ghost use Rattle.lab_store_read.specs.Reads.{Reads};
ghost use Rattle.lab_store_read.specs.Shown.{codes_shown, shows_code};
ghost use Rattle.lab_store_read.specs.Private.Shown.{code_read};

use crate::asking::rows_by_one;
use crate::cells::text_of;
use crate::faults::ReadFault;
use crate::readable::Readable;
use lab_forms_texts::PersonCode;
use lab_records_keeper::BadStore;
use sqlite::Row;
use std::alloc::Global;

// The row of the person with the id, with the person's code.
fn code_rows<D: Readable>(conn: &mut D, id: i64) -> Result<Vec<Row>, ReadFault>
    ensures reads { Reads (λ t rows. rows.items ≡ codes_shown t id)
        (D.state conn.old) (D.state conn.new) result }
    ensures cause { HasItsCause (λ t. Unit {0}) (D.state conn.old) (D.state conn.new) result }
{
    rows_by_one(conn, "SELECT code FROM persons WHERE id = ?1", id)
}

// The code in the first row. It is a fault of the store if there is no row.
fn first_code(alloc: Global, rows: &[Row]) -> Result<PersonCode, ReadFault>
    ensures value { IfOk result (λ code.
        Some code ≡ option_map code_read (slice_get rows.now 0)) }
    ensures fault { IfErr result (IsNotMade (shows_code rows.now)) }
{
    match rows.first() {
        Some(row) => text_of(alloc, row, 0),
        None => Err(ReadFault::Refused(BadStore)),
    }
}

/// Returns the code of the person with the id. It is a fault of the store if nobody has the id.
///
/// # Errors
/// The store failed, a row isn't one that this program could have written, or memory ran out.
pub fn code_at<D: Readable>(alloc: Global, conn: &mut D, id: i64) -> Result<PersonCode, ReadFault>
    ensures reads { Reads (λ t code. code ≡ code_of t id)
        (D.state conn.old) (D.state conn.new) result }
    ensures cause { HasItsCause (λ t. IsTrue (shows_code (codes_shown t id)))
        (D.state conn.old) (D.state conn.new) result }
{
    let rows = code_rows(conn, id)?;
    first_code(alloc, &rows)
}
