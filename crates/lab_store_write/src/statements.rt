//! A statement inside a transaction.

ghost use Rattle.std.specs.Prelude.{IsTrue};
ghost use Rattle.sqlite.specs.State.{HasCleanDisk, ExecutesInside};
ghost use Rattle.sqlite.specs.Values.{bound};
ghost use Rattle.lab_store_write.specs.Calls.{Stays};

use crate::writable::Writable;
use sqlite::Error;
use sqlite::types::ValueRef;

/// The id of a row in its table.
#[derive(Clone, Copy, Debug, PartialEq, Eq)]
pub struct RowId {
    /// The number.
    pub id: i64,
}

/// Runs a statement that writes, and returns how many rows it wrote.
///
/// # Errors
/// The store failed, or memory ran out.
pub fn run<W: Writable>(tx: &mut W, text: &str, params: &[ValueRef<'_>]) -> Result<usize, Error>
    ensures stays { Stays W.lender W.state tx.old tx.new }
    ensures runs { IsTrue (W.state tx.old).in_transaction → HasCleanDisk (W.state tx.new) →
        ExecutesInside 0 text.now (bound params.now) (W.state tx.old) (W.state tx.new) result }
{
    tx.execute(text, params)
}
