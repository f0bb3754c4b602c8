//! A query that asks with nothing.

ghost use Rattle.std.specs.Prelude.{[]};
ghost use Rattle.lab_store_read.specs.Reads.{AsksQuery};

use lab_store_read::{ReadFault, Readable};
use sqlite::Row;

/// The rows of a query with no parameter.
///
/// # Errors
/// The store refused, or memory ran out.
pub(crate) fn rows_by_none<D: Readable>(conn: &mut D, sql: &str) -> Result<Vec<Row>, ReadFault>
    ensures { AsksQuery sql.now [] (D.state conn.old) (D.state conn.new) result }
{
    conn.query_all(sql, &[])
}
