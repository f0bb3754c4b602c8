//! Queries, by the kinds of their parameters.

ghost use Rattle.std.specs.Prelude.{pos, [], ◌∷◌};
ghost use Rattle.sqlite_value.specs.declared.value.Value.TheVariants.{Int};
ghost use Rattle.lab_store_read.specs.Reads.{AsksQuery};

use lab_store_read::{ReadFault, Readable};
use sqlite::{Row, params};

/// The rows of a query with an id and a number.
///
/// # Errors
/// The store failed, or memory ran out.
pub(crate) fn rows_by_two<D: Readable>(
    conn: &mut D,
    sql: &str,
    first: i64,
    second: u32,
) -> Result<Vec<Row>, ReadFault>
    ensures { AsksQuery sql.now (Int first ∷ Int (pos second) ∷ [])
        (D.state conn.old) (D.state conn.new) result }
{
    conn.query_all(sql, params![first, second])
}
