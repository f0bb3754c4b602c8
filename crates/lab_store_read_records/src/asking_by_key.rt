//! Queries, by the kinds of their parameters.

ghost use Rattle.std.specs.Prelude.{[], ◌∷◌};
ghost use Rattle.sqlite_value.specs.declared.value.Value.TheVariants.{Int, Text};
ghost use Rattle.lab_store_read.specs.Reads.{AsksQuery};

use lab_store_read::{ReadFault, Readable};
use sqlite::{Row, params};

/// The rows of a query with an id and two texts.
///
/// # Errors
/// The store failed, or memory ran out.
pub(crate) fn rows_by_key<D: Readable>(
    conn: &mut D,
    sql: &str,
    first: i64,
    second: &str,
    third: &str,
) -> Result<Vec<Row>, ReadFault>
    ensures { AsksQuery sql.now (Int first ∷ Text second.now ∷ Text third.now ∷ [])
        (D.state conn.old) (D.state conn.new) result }
{
    conn.query_all(sql, params![first, second, third])
}
