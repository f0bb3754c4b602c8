//! Finds out whether a laboratory with a code exists, and adds one in a commit.

ghost use Rattle.std.specs.Prelude.{◌≡◌, ◌≢◌, IfOk, IfErr, IsTrue, OnOk, find, is_some, slice_get};
ghost use Rattle.sqlite.specs.Held.{state};
ghost use Rattle.sqlite.specs.State.{HasCleanDisk, KeepsCommit, Survives};
ghost use Rattle.lab_records_keeper.specs.declared.faults.PlacingFault.TheVariants.{LabExists, Storage};
ghost use Rattle.lab_store_tables.specs.Meaning.{has_code};
ghost use Rattle.lab_store_tables.specs.Ready.{IsAtRest, IsReady};
ghost use Rattle.lab_store_read.specs.Causes.{IsCaused};
ghost use Rattle.lab_store_read.specs.Cells.{storage};
ghost use Rattle.lab_store_read.specs.Reads.{Reads};
ghost use Rattle.lab_store_write.specs.Private.Calls.{FailsFor};
ghost use Rattle.lab_store_write.specs.Calls.{Steps};
ghost use Rattle.lab_store_write.specs.Causes.{IsTooGreat};
ghost use Rattle.lab_store.specs.Causes.{CommitHasItsCause};
ghost use Rattle.lab_store.specs.Private.Causes.{TransactionHasItsCause};
ghost use Rattle.lab_store.specs.Commits.{EndsStep};
ghost use Rattle.lab_store_write_changes.specs.NewbornRows.{AddsRows};

use lab_forms_texts::LabCode;
use lab_records_keeper::PlacingFault;
use lab_records_kept::Lab;
use lab_store_read::{ReadFault, Readable, read_fault};
use lab_store_read_records::lab_rows;
use lab_store_write::running::Inside;
use lab_store_write_changes::add_rows;
use sqlite::{Alter, Connection, Error, Row, Transaction};

// The placing fault for a fault of the store.
fn placing_fault(fault: ReadFault) -> PlacingFault
    ensures placing { result ≢ LabExists }
    ensures told { result ≡ Storage → fault ≡ storage }
{
    match fault {
        ReadFault::Refused(_) => PlacingFault::Storage,
        ReadFault::Memory => PlacingFault::Memory,
    }
}

// Whether there is a row.
fn has_row(rows: &[Row]) -> bool
    ensures { result ≡ is_some (slice_get rows.now 0) }
{
    rows.first().is_some()
}

/// Returns whether a laboratory with the code exists.
pub(crate) fn is_there<D: Readable>(conn: &mut D, code: &LabCode) -> Result<bool, PlacingFault>
    ensures reads { Reads (λ t there. there ≡ is_some (find (has_code code.now) t.labs))
        (D.state conn.old) (D.state conn.new) result }
    ensures kept { HasCleanDisk (D.state conn.new) →
        KeepsCommit (D.state conn.old) (D.state conn.new) }
    ensures fault { IfErr result (λ fault. fault ≢ LabExists) }
    ensures limit { (D.state conn.new).step_limit ≡ (D.state conn.old).step_limit }
    ensures cause { IsReady (D.state conn.old) → HasCleanDisk (D.state conn.new) →
        IfErr result (λ fault. fault ≡ Storage → IsCaused (D.state conn.old) (D.state conn.new)) }
{
    match lab_rows(conn, code.as_str()) {
        Ok(rows) => Ok(has_row(&rows)),
        Err(fault) => Err(placing_fault(fault)),
    }
}

// Adds the rows of the laboratory inside the transaction.
fn add_inside<S: Alter>(tx: &mut Transaction<'_, S>, lab: &Lab) -> Result<(), Error>
    requires inside { IsTrue (state S.Store tx.old.conn.now).in_transaction }
    ensures same_reference { tx.new.conn.ghost_name ≡ tx.old.conn.ghost_name }
    ensures made { HasCleanDisk (state S.Store tx.new.conn.now) →
        IfOk result (λ _. Steps (AddsRows lab.now)
        (state S.Store tx.old.conn.now) (state S.Store tx.new.conn.now)) }
    ensures kept { HasCleanDisk (state S.Store tx.new.conn.now) → KeepsCommit
        (state S.Store tx.old.conn.now) (state S.Store tx.new.conn.now) }
    ensures survives { Survives
        (state S.Store tx.old.conn.now) (state S.Store tx.new.conn.now) (λ _. ⊥) }
    ensures failed { FailsFor (λ _. IsTooGreat lab.now.strays) (state S.Store)
        tx.old.conn.now tx.new.conn.now result }
{
    let mut inside = Inside { tx };
    let made = add_rows(&mut inside, lab);
    let Inside { tx: _ } = inside;
    made
}

// Adds the rows of the laboratory in one transaction.
fn commit_rows<S: Alter>(conn: &mut Connection<S>, lab: &Lab) -> Result<(), Error>
    requires at_rest { IsAtRest (state S.Store conn.old) }
    ensures ends { EndsStep (AddsRows lab.now) result
        (state S.Store conn.old) (state S.Store conn.new) }
    ensures cause { TransactionHasItsCause S.Store (IsTooGreat lab.now.strays)
        conn.old conn.new result }
{
    let mut tx = conn.transaction();
    add_inside(&mut tx, lab)?;
    tx.commit()
}

/// Adds the rows of the laboratory in one commit.
pub(crate) fn place<S: Alter>(conn: &mut Connection<S>, lab: &Lab) -> Result<(), PlacingFault>
    requires at_rest { IsAtRest (state S.Store conn.old) }
    ensures ends { EndsStep (AddsRows lab.now) result
        (state S.Store conn.old) (state S.Store conn.new) }
    ensures fault { IfErr result (λ fault. fault ≢ LabExists) }
    ensures cause { CommitHasItsCause S.Store (λ fault. fault ≡ Storage) (λ t. Unit {0})
        (λ t. IsTooGreat lab.now.strays) conn.old conn.new result }
{
    match commit_rows(conn, lab) {
        Ok(()) => Ok(()),
        Err(error) => Err(placing_fault(read_fault(error))),
    }
}
