//! The place of a new row, after the rows that its parent has.

ghost use Rattle.std.specs.Prelude.{◌≡◌, ◌+◌, length, IfOk};
ghost use Rattle.lab_store_write.specs.Calls.{CountsBelow};
ghost use Rattle.lab_store_write.specs.Causes.{IsTooGreat};

use crate::statements::RowId;
use crate::values::id_value;
use crate::writable::Writable;
use sqlite::{Error, Row};

// The place after the rows that a parent has.
fn place_behind(rows: &[Row]) -> u64
    ensures value { result ≡ length rows.now + 1 }
    ensures fits { ¬ IsTooGreat result }
{
    rows.len() as u64 + 1
}

/// Returns the place after the rows of a parent: their number plus one. The text is a query that
/// shows these rows by the parent's id.
///
/// # Errors
/// The errors of `Writable::query_all`.
pub fn place_below<W: Writable>(tx: &mut W, text: &str, parent: RowId) -> Result<u64, Error>
    ensures counts { CountsBelow W.lender W.state text.now parent.id tx.old tx.new result }
    ensures fits { IfOk result (λ place. ¬ IsTooGreat place) }
{
    match tx.query_all(text, &[id_value(parent)]) {
        Ok(rows) => Ok(place_behind(&rows)),
        Err(error) => Err(error),
    }
}
