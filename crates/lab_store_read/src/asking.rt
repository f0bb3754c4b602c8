//! Queries, by the kinds of their parameters.

ghost use Rattle.std.specs.Prelude.{[], ◌∷◌, pos};
ghost use Rattle.sqlite_value.specs.declared.value.Value.TheVariants.{Int, Text};
ghost use Rattle.lab_store_read.specs.Reads.{AsksQuery};

use crate::faults::ReadFault;
use crate::readable::Readable;
use sqlite::{Row, params};

/// The rows of a query with a text.
///
/// # Errors
/// The store failed, or memory ran out.
pub fn rows_by_text<D: Readable>(
    conn: &mut D,
    sql: &str,
    first: &str,
) -> Result<Vec<Row>, ReadFault>
    ensures { AsksQuery sql.now (Text first.now ∷ []) (D.state conn.old) (D.state conn.new) result }
{
    conn.query_all(sql, params![first])
}

/// The rows of a query with an id.
///
/// # Errors
/// The store failed, or memory ran out.
pub fn rows_by_one<D: Readable>(conn: &mut D, sql: &str, first: i64) -> Result<Vec<Row>, ReadFault>
    ensures { AsksQuery sql.now (Int first ∷ []) (D.state conn.old) (D.state conn.new) result }
{
    conn.query_all(sql, params![first])
}

/// The rows of a query with an id and a text.
///
/// # Errors
/// The store failed, or memory ran out.
pub fn rows_by_code<D: Readable>(
    conn: &mut D,
    sql: &str,
    first: i64,
    second: &str,
) -> Result<Vec<Row>, ReadFault>
    ensures { AsksQuery sql.now (Int first ∷ Text second.now ∷ [])
        (D.state conn.old) (D.state conn.new) result }
{
    conn.query_all(sql, params![first, second])
}

/// The rows of a query with an id and two numbers.
///
/// # Errors
/// The store failed, or memory ran out.
pub fn rows_by_range<D: Readable>(
    conn: &mut D,
    sql: &str,
    first: i64,
    second: u32,
    third: u32,
) -> Result<Vec<Row>, ReadFault>
    ensures { AsksQuery sql.now (Int first ∷ Int (pos second) ∷ Int (pos third) ∷ [])
        (D.state conn.old) (D.state conn.new) result }
{
    conn.query_all(sql, params![first, second, third])
}
