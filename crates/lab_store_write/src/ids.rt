//! A statement that adds a row and returns its id.

ghost use Rattle.std.specs.Prelude.{◌≡◌, ℕ, Ok, IfOk, IfErr, IsTrue};
ghost use Rattle.sqlite.specs.State.{HasCleanDisk, ExecutesInside};
ghost use Rattle.sqlite.specs.Values.{bound};
ghost use Rattle.lab_store_tables.specs.Held.{IsTyped};
ghost use Rattle.lab_store_write.specs.Calls.{Stays};
ghost use Rattle.lab_store_write.specs.Causes.{is_writing, statement, FailsTrying, IsOurs};
ghost use Rattle.lab_store_write.specs.Tried.{Only};

use crate::statements::{RowId, run};
use crate::writable::Writable;
use sqlite::Error;
use sqlite::types::ValueRef;

/// Runs a statement that adds a row, and returns the row's id.
///
/// # Errors
/// The store failed, or memory ran out.
pub fn insert<W: Writable>(tx: &mut W, text: &str, params: &[ValueRef<'_>]) -> Result<RowId, Error>
    ensures stays { Stays W.lender W.state tx.old tx.new }
    ensures ran { IsTrue (W.state tx.old).in_transaction → HasCleanDisk (W.state tx.new) →
        IfOk result (λ one. (count : ℕ) × ExecutesInside 0 text.now (bound params.now)
        (W.state tx.old) (W.state tx.new) (Ok count)
        × (one.id ≡ (W.state tx.new).last_rowid)) }
    ensures failed { IsOurs is_writing text.now (bound params.now) →
        IsTrue (W.state tx.old).in_transaction → HasCleanDisk (W.state tx.new) →
        IsTyped (W.state tx.old).now → IfErr result
        (FailsTrying (Only (statement text.now (bound params.now))) W.state tx.old tx.new) }
{
    run(tx, text, params)?;
    Ok(RowId {
        id: tx.last_insert_rowid(),
    })
}
